//! Answers, with the verdicts that the rules of the game give them by hand.
use crate::hands::asked;
use arrayvec::ArrayVec;
use std::alloc::Global;
use std::sync::atomic::{AtomicU64, Ordering};
use std::test::Fail;
use std::thread::Threads;
use suit_answer::Answer;
use suit_cards::Seat;
use suit_check::{CheckEnd, Verdict, check};
use suit_classes::{ClassMove, History};
use suit_game::{Entries, Gate, Goal, LeadAt, Question};
use suit_layouts::ClassLayout;
use suit_num::Frac;
use suit_plans::{Counts, Defence, DefenceRow, DefenceRows, Plan, PlanFault, PlanKind, Row, Rows};

// A row: a class history, and how much each move gets.
type Turn = (&'static [ClassMove], &'static [(ClassMove, i128)]);

// A row of a defence, with West's counts.
type LayoutTurn = (&'static [u8], Turn);

// A question, the value, the rows of the plan and of the defence, the verdict, and how many threads enter the gate.
type Case = (
    Question,
    Frac,
    &'static [Turn],
    &'static [LayoutTurn],
    Verdict,
    u64,
);

// South leads the three; what follows is the ace, the cards below the king, the two, or no card.
const THREE: ClassMove = ClassMove::Lead {
    seat: Seat::S,
    class: 3,
};

const ACE: ClassMove = ClassMove::Follow { class: 0 };

const QUEEN: ClassMove = ClassMove::Follow { class: 2 };

const TWO: ClassMove = ClassMove::Follow { class: 4 };

const NONE: ClassMove = ClassMove::ShowOut;

// The defence keeps the king while the two may be played.
const KING_KEPT: &[LayoutTurn] = &[
    (&[0, 0], (&[THREE, NONE, ACE], &[(TWO, 2_496_144)])),
    (&[1, 1], (&[THREE], &[(TWO, 2_496_144)])),
];

const LAST_ROW_TWICE: &[LayoutTurn] = &[
    (&[0, 0], (&[THREE, NONE, ACE], &[(TWO, 2_496_144)])),
    (&[1, 1], (&[THREE], &[(TWO, 2_496_144)])),
    (&[1, 1], (&[THREE], &[(TWO, 2_496_144)])),
];

const TOO_MUCH: &[Turn] = &[(&[THREE, TWO], &[(ACE, 1), (QUEEN, 1)])];

fn counts_of(west: &[u8]) -> Result<ClassLayout, Fail> {
    let mut counts = ArrayVec::new();
    for count in west {
        if counts.try_push(*count).is_err() {
            return Err(Fail::from("too many counts"));
        }
    }
    Ok(ClassLayout::of(counts))
}

fn plan(alloc: Global, turns: &[Turn]) -> Result<Plan, Fail> {
    let mut rows = Vec::new(alloc);
    for (history, counts) in turns {
        rows.push(Row {
            history: History::of(Vec::from_slice(alloc, history)?),
            counts: Counts::of(Vec::from_slice(alloc, counts)?),
        })?;
    }
    if rows.len() > 4_294_967_295 {
        return Err(Fail::from("too many rows"));
    }
    Ok(Plan {
        den: 1,
        rows: Rows::of(rows),
    })
}

fn defence(alloc: Global, turns: &[LayoutTurn]) -> Result<Defence, Fail> {
    let mut rows = Vec::new(alloc);
    for (west, (history, counts)) in turns {
        rows.push(DefenceRow {
            west: counts_of(west)?,
            history: History::of(Vec::from_slice(alloc, history)?),
            counts: Counts::of(Vec::from_slice(alloc, counts)?),
        })?;
    }
    if rows.len() > 4_294_967_295 {
        return Err(Fail::from("too many rows"));
    }
    Ok(Defence {
        den: 1,
        rows: DefenceRows::of(rows),
    })
}

// A gate that counts who enters it.
#[derive(Drop)]
struct Counting(AtomicU64);

impl Gate for Counting {
    fn enter(&self) {
        self.0.fetch_add(1, Ordering::SeqCst);
    }
}

// The verdict over an answer to a question, and how many threads entered the gate.
fn found<R: Threads + Sync>(
    rt: &R,
    alloc: Global,
    question: &Question,
    answer: &Answer,
) -> Result<(Result<Verdict, CheckEnd>, u64), Fail> {
    if !question.is_valid() {
        return Err(Fail::from("not valid"));
    }
    let gate = Counting(AtomicU64::new(0));
    let verdict = check(rt, &gate, alloc, question, answer);
    Ok((verdict, gate.0.load(Ordering::SeqCst)))
}

#[test]
fn verdicts(rt: HostRuntime) -> Result<(), Fail> {
    let alloc = rt.alloc();
    let eleven = Question {
        start: LeadAt::N,
        ..asked("AJT98765432", "-", Goal::AtLeast(11))?
    };
    let ten = Question {
        start: LeadAt::S,
        entries_n: Entries::Count(0),
        entries_s: Entries::Count(0),
        ..asked("AQJT987654", "3", Goal::AtLeast(10))?
    };
    let right = Frac::reduced(13, 25);
    let fault = |kind, row| PlanFault { kind, row };
    let cases: [Case; 6] = [
        (eleven, right, &[], &[], Verdict::Valid, 3),
        (
            eleven,
            Frac::reduced(14, 25),
            &[],
            &[],
            Verdict::Least { found: right },
            3,
        ),
        (ten, right, &[], KING_KEPT, Verdict::Valid, 4),
        (
            ten,
            right,
            &[],
            &[],
            Verdict::Most {
                found: Frac::reduced(1, 1),
            },
            4,
        ),
        (
            ten,
            right,
            &[],
            LAST_ROW_TWICE,
            Verdict::Defence(fault(PlanKind::Order, 3)),
            0,
        ),
        (
            ten,
            right,
            TOO_MUCH,
            KING_KEPT,
            Verdict::Plan(fault(PlanKind::Sum, 1)),
            0,
        ),
    ];
    for (question, value, turns, layout_turns, verdict, chunks) in cases {
        let answer = Answer {
            value,
            plan: plan(alloc, turns)?,
            defence: defence(alloc, layout_turns)?,
        };
        let (told, entered) = found(&rt, alloc, &question, &answer)?;
        assert_eq!(rt; told, Ok(verdict));
        assert_eq!(rt; entered, chunks);
    }
    Ok(())
}

// The budget comes before any verdict.
#[test]
fn budgets(rt: HostRuntime) -> Result<(), Fail> {
    let alloc = rt.alloc();
    let question = Question {
        nodes: 1,
        ..asked("AQJT987654", "3", Goal::AtLeast(10))?
    };
    let answer = Answer {
        value: Frac::reduced(1, 1),
        plan: plan(alloc, TOO_MUCH)?,
        defence: defence(alloc, &[])?,
    };
    let (told, entered) = found(&rt, alloc, &question, &answer)?;
    assert_eq!(rt; told, Err(CheckEnd::Nodes { budget: 1 }));
    assert_eq!(rt; entered, 0);
    Ok(())
}
