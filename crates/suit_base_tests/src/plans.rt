//! Which plans and defences are proper: the answers of another program, which was written from the rules.
ghost use Rattle.std.specs.Prelude.{◌≡◌};
ghost use Rattle.suit_game.specs.Validity.{IsValid};

use arrayvec::ArrayVec;
use std::alloc::Global;
use std::process::Abort;
use std::test::Fail;
use suit_cards::{Holding, Seat};
use suit_classes::{ClassMove, History as Moves};
use suit_game::{Entries, Goal, LeadAt, Question};
use suit_layouts::ClassLayout;
use suit_plans::{
    Counts, DeclarerMove, DeclarerMoves, Defence, DefenceMove, DefenceMoves, DefenceRow,
    DefenceRows, MOST_DEN, Plan, PlanFault, PlanKind, Row, Rows, defence_shares_at, plan_shares_at,
    proper_defence, proper_plan, share,
};

// The number after it.
const PAST_DEN: i128 = 1_237_940_039_285_380_274_899_124_225;

// Rows, each as a text: West's counts and a stroke before a row of a defence, then the class history,
// a colon, and the moves with their counts.
type Lines = &'static [&'static str];

// A denominator, rows, and the fault that is to be found.
type Case = (i128, Lines, Option<(PlanKind, u32)>);

// A question where South leads first and no hand has an entry.
fn led(north: &'static str, south: &'static str, goal: Goal) -> Result<Question, Fail> {
    let north = Holding::read(north.as_bytes()).ok().ok_or(north)?;
    let south = Holding::read(south.as_bytes()).ok().ok_or(south)?;
    Ok(Question {
        start: LeadAt::S,
        entries_n: Entries::Count(0),
        entries_s: Entries::Count(0),
        ..Question::plain(north, south, goal)
    })
}

// A class move: the hand and the class of a lead, the class of a follow, or a dash.
fn class_move(word: &str) -> Result<ClassMove, Fail> {
    match word.as_bytes() {
        [b'-'] => Ok(ClassMove::ShowOut),
        [class] => Ok(ClassMove::Follow {
            class: class.wrapping_sub(b'0'),
        }),
        [hand, class] => Ok(ClassMove::Lead {
            seat: seat(*hand)?,
            class: class.wrapping_sub(b'0'),
        }),
        _ => Err(Fail::from("no class move")),
    }
}

fn seat(letter: u8) -> Result<Seat, Fail> {
    match letter {
        b'N' => Ok(Seat::N),
        b'E' => Ok(Seat::E),
        b'S' => Ok(Seat::S),
        _ => Err(Fail::from("no seat")),
    }
}

fn moves(alloc: Global, words: &str) -> Result<Moves, Fail> {
    let mut items = Vec::new(alloc);
    for word in words.split_ascii_whitespace() {
        items.push(class_move(word)?)?;
    }
    Ok(Moves::of(items))
}

fn counts(alloc: Global, words: &str) -> Result<Counts, Fail> {
    let mut items = Vec::new(alloc);
    for word in words.split_ascii_whitespace() {
        let (mv, count) = word.split_once('=').ok_or("no count")?;
        items.push((class_move(mv)?, count.parse::<i128>()?))?;
    }
    Ok(Counts::of(items))
}

fn layout(digits: &str) -> Result<ClassLayout, Fail> {
    let mut counts = ArrayVec::new();
    for digit in digits.trim().bytes() {
        if counts.try_push(digit.wrapping_sub(b'0')).is_err() {
            return Err(Fail::from("too many counts"));
        }
    }
    Ok(ClassLayout::of(counts))
}

fn row(alloc: Global, line: &str) -> Result<Row, Fail> {
    let (at, shared) = line.split_once(':').ok_or("no counts")?;
    Ok(Row {
        history: moves(alloc, at)?,
        counts: counts(alloc, shared)?,
    })
}

fn rows(alloc: Global, lines: Lines) -> Result<Rows, Fail> {
    let mut items = Vec::new(alloc);
    for line in lines {
        items.push(row(alloc, line)?)?;
    }
    if items.len() > 4_294_967_295 {
        return Err(Fail::from("too many rows"));
    }
    Ok(Rows::of(items))
}

fn defence_row(alloc: Global, line: &str) -> Result<DefenceRow, Fail> {
    let (west, line) = line.split_once('/').ok_or("no layout")?;
    let (at, shared) = line.split_once(':').ok_or("no counts")?;
    Ok(DefenceRow {
        west: layout(west)?,
        history: moves(alloc, at)?,
        counts: counts(alloc, shared)?,
    })
}

fn defence_rows(alloc: Global, lines: Lines) -> Result<DefenceRows, Fail> {
    let mut items = Vec::new(alloc);
    for line in lines {
        items.push(defence_row(alloc, line)?)?;
    }
    if items.len() > 4_294_967_295 {
        return Err(Fail::from("too many rows"));
    }
    Ok(DefenceRows::of(items))
}

// The kind and the row of a fault.
fn fault(verdict: Result<(), PlanFault>) -> Option<(PlanKind, u32)> {
    let fault = verdict.err()?;
    Some((fault.kind, fault.row))
}

fn check_plans(
    rt: &impl Abort,
    alloc: Global,
    question: &Question,
    cases: &[Case],
) -> Result<(), Fail> {
    assert!(rt; question.is_valid());
    for (den, lines, wanted) in cases {
        let plan = Plan {
            den: *den,
            rows: rows(alloc, lines)?,
        };
        let found = fault(proper_plan(question, &plan));
        assert_eq!(rt; found, *wanted, "{den} {lines:?}");
    }
    Ok(())
}

fn check_defences(
    rt: &impl Abort,
    alloc: Global,
    question: &Question,
    cases: &[Case],
) -> Result<(), Fail> {
    assert!(rt; question.is_valid());
    for (den, lines, wanted) in cases {
        let defence = Defence {
            den: *den,
            rows: defence_rows(alloc, lines)?,
        };
        let found = fault(proper_defence(question, &defence));
        assert_eq!(rt; found, *wanted, "{den} {lines:?}");
    }
    Ok(())
}

#[test]
fn plans(rt: HostRuntime) -> Result<(), Fail> {
    use PlanKind::{Den, History, Illegal, Negative, Order, Sum};

    let both = led("AQ", "32", Goal::AtLeast(2))?;
    let tricks = led("AQ", "32", Goal::Tricks)?;
    let settled = led("AQ", "32", Goal::AtLeast(0))?;
    let ten_cards = led("AQJT987654", "3", Goal::AtLeast(10))?;
    let honours = led("AQT", "32", Goal::AtLeast(2))?;
    let void_west = Question {
        vacant_w: 0,
        ..both
    };
    check_plans(
        &rt,
        rt.alloc(),
        &both,
        &[
            (0, &[], Some((Den, 0))),
            (-1, &["S4:"], Some((Den, 0))),
            (PAST_DEN, &[], Some((Den, 0))),
            (
                MOST_DEN,
                &["S4 3: 0=1237940039285380274899124223 2=1"],
                None,
            ),
            (1, &["N0: -=1"], Some((History, 1))),
            (1, &["S4 z: 0=1"], Some((History, 1))),
            (1, &["E1: 0=1"], Some((History, 1))),
            (1, &["S4 1 2 3: N0=1"], Some((History, 1))),
            (1, &["S4 1 2 3 N0 3: 4=1"], Some((History, 1))),
            (1, &["S4: 1=1"], Some((History, 1))),
            (2, &["S4 3: 2=2", "S4 3 2: 3=2"], Some((History, 2))),
            (2, &["S4 3: 2=2", "S4:"], Some((History, 2))),
            (2, &["S4 3: 2=2", "S4 3: 0=2"], Some((Order, 2))),
            (2, &["S4 3: 2=2", ": S4=2"], Some((Order, 2))),
            (2, &["S4 -: 0=2", "S4 3: 2=2"], Some((Order, 2))),
            (
                2,
                &["S4 1: 0=2", "S4 3: 2=2", "S4 1: 0=2"],
                Some((Order, 3)),
            ),
            (2, &["S4 3: 2=2", "S4 1: 1=2"], Some((Order, 2))),
            (2, &["S4 3: 1=2"], Some((Illegal, 1))),
            (2, &["S4 3: 2=1 0=1"], Some((Illegal, 1))),
            (2, &["S4 3: 0=1 0=1"], Some((Illegal, 1))),
            (2, &["S4 3: 2=2", "S4 -: 3=2"], Some((Illegal, 2))),
            (2, &["S4 3: 0=-1 0=3"], Some((Illegal, 1))),
            (1, &["S4 3: 0=2 2=-1"], Some((Negative, 1))),
            (2, &["S4 3: 2=2", "S4 -: 0=-1 2=3"], Some((Negative, 2))),
            (
                2,
                &[
                    "S4 3: 0=-170141183460469231731687303715884105728 2=170141183460469231731687303715884105727",
                ],
                Some((Negative, 1)),
            ),
            (1, &["S4 3: 0=1 2=1"], Some((Sum, 1))),
            (3, &["S4 3: 0=1 2=1"], Some((Sum, 1))),
            (1, &["S4 3:"], Some((Sum, 1))),
            (
                MOST_DEN,
                &["S4 3: 0=170141183460469231731687303715884105727 2=0"],
                Some((Sum, 1)),
            ),
            (2, &["S4 3: 2=2", "S4 3 0 3: N2=1"], Some((Sum, 2))),
            (2, &["S4 3: 2=2", "S4 3 0 3: N2=0"], None),
            (2, &[": S4=2", "S4 1: 0=1 2=1", "S4 1 0 3: N2=1"], None),
            (
                2,
                &[": S4=2", "S4 1: 2=2", "S4 1 0 3: N2=2"],
                Some((Sum, 3)),
            ),
        ],
    )?;
    check_plans(
        &rt,
        rt.alloc(),
        &tricks,
        &[
            (1, &["S4 1 2 3: N0=0"], None),
            (
                2,
                &[
                    "S4 1: 2=2",
                    "S4 1 2 3: N0=1 S4=1",
                    "S4 1 2 3 N0 3: 4=1",
                    "S4 1 2 3 S4 3: 0=1",
                ],
                None,
            ),
            (
                2,
                &[
                    "S4 1: 2=2",
                    "S4 1 2 3: N0=1 S4=1",
                    "S4 1 2 3 S4 3: 0=1",
                    "S4 1 2 3 N0 3: 4=1",
                ],
                Some((Order, 4)),
            ),
            (2, &["S4 1: 2=2", "S4 1 2 3: S4=1 N0=1"], Some((Illegal, 2))),
            (
                2,
                &["S4 1: 2=2", "S4 1 2 3: N0=1 S4=1", "S4 1 2 3 N0 3: 4=2"],
                Some((Sum, 3)),
            ),
        ],
    )?;
    check_plans(
        &rt,
        rt.alloc(),
        &ten_cards,
        &[
            (1, &["S3 4: 0=1 2=1"], Some((Sum, 1))),
            (1, &["S3 4: 0=2 2=-1"], Some((Negative, 1))),
        ],
    )?;
    check_plans(
        &rt,
        rt.alloc(),
        &honours,
        &[
            // In 128 bits the sum would be 1.
            (
                1,
                &[
                    "S6 5: 0=170141183460469231731687303715884105727 2=170141183460469231731687303715884105727 4=3",
                ],
                Some((Sum, 1)),
            ),
            (6, &["S6 5: 0=1 2=2 4=3"], None),
        ],
    )?;
    check_plans(
        &rt,
        rt.alloc(),
        &void_west,
        &[(1, &["S4 3: 2=1"], Some((History, 1)))],
    )?;
    check_plans(
        &rt,
        rt.alloc(),
        &settled,
        &[(1, &[": S4=1"], Some((History, 1))), (3, &[], None)],
    )?;
    Ok(())
}

#[test]
fn defences(rt: HostRuntime) -> Result<(), Fail> {
    use PlanKind::{Den, History, Illegal, Layout, Negative, Order, Sum};

    let both = led("AQ", "32", Goal::AtLeast(2))?;
    let settled = led("AQ", "32", Goal::AtLeast(0))?;
    let ten_cards = led("AQJT987654", "3", Goal::AtLeast(10))?;
    let honours = led("AQT", "32", Goal::AtLeast(2))?;
    let void_west = Question {
        vacant_w: 0,
        ..both
    };
    let known_west = Question {
        west_least: 2,
        west_most: 3,
        ..both
    };
    check_defences(
        &rt,
        rt.alloc(),
        &both,
        &[
            (0, &[], Some((Den, 0))),
            (PAST_DEN, &["99 / :"], Some((Den, 0))),
            (
                MOST_DEN,
                &["13 / S4: 1=1 3=1685282051881545291036671753584639"],
                None,
            ),
            (1, &["23 / S4: 1=1"], Some((Layout, 1))),
            (1, &["1 / S4: 1=1361360"], Some((Layout, 1))),
            (1, &[" / S4: 1=1361360"], Some((Layout, 1))),
            (
                1,
                &["13 / S4: 1=680680 3=680680", "19 / S4:"],
                Some((Layout, 2)),
            ),
            (
                1,
                &["13 / S4: 1=680680 3=680680", "09 / :"],
                Some((Layout, 2)),
            ),
            (1, &["10 / S4 3 0: -=6188"], Some((History, 1))),
            (1, &["13 / : S4=1361360"], Some((History, 1))),
            (1, &["13 / S4 1 2 3 N0: 3=0"], Some((History, 1))),
            (
                1,
                &["13 / S4: 1=680680 3=680680", "13 / S4 1:"],
                Some((History, 2)),
            ),
            (
                1,
                &["13 / S4: 1=680680 3=680680", "13 / S4: 1=680680 3=680680"],
                Some((Order, 2)),
            ),
            (
                1,
                &["13 / S4 1 0: 3=1361360", "13 / S4: 1=680680 3=680680"],
                Some((Order, 2)),
            ),
            (
                1,
                &["13 / S4: 1=680680 3=680680", "12 / S4: 1=544544"],
                Some((Order, 2)),
            ),
            (1, &["12 / S4 3 0: 3=0", "13 / S4: 3=1361360"], None),
            (
                1,
                &["10 / S4: 1=6188", "03 / S4: 3=1089088"],
                Some((Order, 2)),
            ),
            (1, &["03 / S4: 1=1089088"], Some((Illegal, 1))),
            (1, &["13 / S4: 3=1361359 1=1"], Some((Illegal, 1))),
            (1, &["13 / S4: 3=1361359 3=1"], Some((Illegal, 1))),
            (
                1,
                &["13 / S4: 1=680680 3=680680", "18 / S4: 2=2380"],
                Some((Illegal, 2)),
            ),
            (1, &["13 / S4: 1=-1 3=1361361"], Some((Negative, 1))),
            (
                1,
                &["13 / S4: 1=680680 3=680680", "18 / S4: 1=2381 3=-1"],
                Some((Negative, 2)),
            ),
            (1, &["13 / S4: 1=1 3=1361360"], Some((Sum, 1))),
            (1, &["13 / S4: 1=1"], Some((Sum, 1))),
            (
                1,
                &["13 / S4: 1=680680 3=680680", "13 / S4 1 0: 3=1361360"],
                Some((Sum, 2)),
            ),
            (
                1,
                &["13 / S4: 1=680680 3=680680", "13 / S4 1 0: 3=680680"],
                None,
            ),
            (2, &["00 / S4: -=4760", "00 / S4 - 0: 1=2380 3=2380"], None),
            (1, &["13 / S4: 3=1361360", "13 / S4 1 2:"], None),
        ],
    )?;
    check_defences(
        &rt,
        rt.alloc(),
        &honours,
        &[(
            1,
            &[
                "112 / S6: 1=170141183460469231731687303715884105727 3=170141183460469231731687303715884105727 5=729302",
            ],
            Some((Sum, 1)),
        )],
    )?;
    check_defences(
        &rt,
        rt.alloc(),
        &void_west,
        &[(1, &["01 / S4: 3=0"], Some((Layout, 1)))],
    )?;
    check_defences(
        &rt,
        rt.alloc(),
        &known_west,
        &[(1, &["13 / S4: 3=0"], Some((Layout, 1)))],
    )?;
    check_defences(
        &rt,
        rt.alloc(),
        &ten_cards,
        &[(2, &["00 / S3 - 0: 4=4992288", "11 / S3: 4=4992288"], None)],
    )?;
    check_defences(&rt, rt.alloc(), &settled, &[(3, &[], None)])?;
    Ok(())
}

// A plan's counts at a class history, where the plan is proper.
#[tactic(auto, using(suit_plans::proofs::ProperOrders::plan_in_order))]
fn plan_counts<'a>(question: &Question, plan: &'a Plan, history: &[ClassMove]) -> Option<&'a Counts>
    requires { IsValid question.now }
{
    match proper_plan(question, plan) {
        Ok(()) => plan_shares_at(plan.rows.items(), history),
        Err(_) => None,
    }
}

// A defence's counts in a class layout at a class history, where the defence is proper.
#[tactic(auto, using(suit_plans::proofs::ProperOrders::defence_in_order))]
fn defence_counts<'a>(
    question: &Question,
    defence: &'a Defence,
    west: &[u8],
    history: &[ClassMove],
) -> Option<&'a Counts>
    requires { IsValid question.now }
{
    match proper_defence(question, defence) {
        Ok(()) => defence_shares_at(defence.rows.items(), west, history),
        Err(_) => None,
    }
}

#[test]
fn lookups(rt: HostRuntime) -> Result<(), Fail> {
    let both = led("AQ", "32", Goal::AtLeast(2))?;
    assert!(rt; both.is_valid());
    let plan = Plan {
        den: 5,
        rows: rows(rt.alloc(), &["S4 1: 0=4 2=1", "S4 3: 0=2 2=3"])?,
    };
    let defence = Defence {
        den: 1,
        rows: defence_rows(
            rt.alloc(),
            &["13 / S4: 1=680680 3=680680", "18 / S4: 3=2380"],
        )?,
    };
    // What ace, king and queen get of a mass of 9, of which the king is first.
    let cases = [
        ("S4 1", (4, 0, 1), (0, 9, 0)),
        ("S4 3", (2, 0, 3), (0, 9, 0)),
        ("S4", (0, 9, 0), (0, 680_680, 0)),
    ];
    for (at, by_plan, by_defence) in cases {
        let at = moves(rt.alloc(), at)?;
        let plans = plan_counts(&both, &plan, at.items());
        let defences = defence_counts(&both, &defence, &[1, 3], at.items());
        for (counts, wanted) in [(plans, by_plan), (defences, by_defence)] {
            let found = (
                share(counts, false, 9, ClassMove::Follow { class: 0 }),
                share(counts, true, 9, ClassMove::Follow { class: 1 }),
                share(counts, false, 9, ClassMove::Follow { class: 2 }),
            );
            assert_eq!(rt; found, wanted);
        }
    }
    let at = moves(rt.alloc(), "S4")?;
    assert!(rt; defence_counts(&both, &defence, &[1, 4], at.items()).is_none());
    let low = defence_counts(&both, &defence, &[1, 8], at.items()).ok_or("no row")?;
    assert_eq!(rt; low.count_of(ClassMove::Follow { class: 3 }), 2380);
    let wanted = [(ClassMove::Follow { class: 3 }, 2380)];
    assert_eq!(rt; low.items(), wanted.as_slice());
    Ok(())
}

#[test]
fn lists(rt: HostRuntime) -> Result<(), Fail> {
    let mut leads = Vec::new(rt.alloc());
    let mut replies = Vec::new(rt.alloc());
    for class in [4, 0] {
        leads.push(DeclarerMove {
            history: moves(rt.alloc(), "S4 1")?,
            mv: ClassMove::Follow { class },
        })?;
        replies.push(DefenceMove {
            layout: class,
            history: moves(rt.alloc(), "S4")?,
            mv: ClassMove::Follow { class },
        })?;
    }
    let leads = DeclarerMoves::of(leads);
    let replies = DefenceMoves::of(replies);
    assert_eq!(rt; leads.items().len(), 2);
    for (lead, reply) in leads.items().iter().zip(replies.items()) {
        assert_eq!(rt; lead.mv, reply.mv);
        assert_eq!(rt; lead.history.items().len(), 2);
        assert_eq!(rt;
            ClassMove::Follow {
                class: reply.layout
            },
            reply.mv
        );
    }
    Ok(())
}
