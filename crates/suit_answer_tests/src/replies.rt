//! Best replies: the answers of another program, which was written from the rules.
use arrayvec::ArrayVec;
use bumpalo::Bump;
use std::alloc::Global;
use std::sync::atomic::{AtomicU64, Ordering};
use std::test::Fail;
use std::thread::Threads;
use suit_cards::{Holding, Seat};
use suit_classes::{ClassMove, History};
use suit_game::{Entries, Gate, Goal, LeadAt, OpenGate, Question};
use suit_layouts::ClassLayout;
use suit_plans::{
    Counts, Defence, DefenceRow, DefenceRows, Plan, Row, Rows, proper_defence, proper_plan,
};
use suit_reply::{DeclarerReply, DefenceReply, least, least_on, most};
use suit_tree::grow;

// Rows, each as a text: West's counts and a stroke before a row of a defence, then the class history,
// a colon, and the moves with their counts.
type Lines = &'static [&'static str];

// A denominator, rows, the number that is to be found, how many choices, and the first of them, each as
// a text: the place of the class layout and a stroke before a choice of the defence's, then the class
// history, a colon, and the move.
type Case = (i128, Lines, i128, usize, Lines);

// A question where South leads first and no hand has an entry.
fn led(north: &'static str, south: &'static str, goal: Goal) -> Result<Question, Fail> {
    let north = Holding::read(north.as_bytes()).ok().ok_or(north)?;
    let south = Holding::read(south.as_bytes()).ok().ok_or(south)?;
    Ok(Question {
        start: LeadAt::S,
        entries_n: Entries::Count(0),
        entries_s: Entries::Count(0),
        ..Question::plain(north, south, goal)
    })
}

// A class move: the hand and the class of a lead, the class of a follow, or a dash.
fn class_move(word: &str) -> Result<ClassMove, Fail> {
    match word.as_bytes() {
        [b'-'] => Ok(ClassMove::ShowOut),
        [class] => Ok(ClassMove::Follow {
            class: class.wrapping_sub(b'0'),
        }),
        [b'N', class] => Ok(ClassMove::Lead {
            seat: Seat::N,
            class: class.wrapping_sub(b'0'),
        }),
        [_, class] => Ok(ClassMove::Lead {
            seat: Seat::S,
            class: class.wrapping_sub(b'0'),
        }),
        _ => Err(Fail::from("no class move")),
    }
}

fn history(alloc: Global, words: &str) -> Result<History, Fail> {
    let mut items = Vec::new(alloc);
    for word in words.split_ascii_whitespace() {
        items.push(class_move(word)?)?;
    }
    Ok(History::of(items))
}

fn counts(alloc: Global, words: &str) -> Result<Counts, Fail> {
    let mut items = Vec::new(alloc);
    for word in words.split_ascii_whitespace() {
        let (mv, count) = word.split_once('=').ok_or("no count")?;
        items.push((class_move(mv)?, count.parse::<i128>()?))?;
    }
    Ok(Counts::of(items))
}

fn layout(digits: &str) -> Result<ClassLayout, Fail> {
    let mut counts = ArrayVec::new();
    for digit in digits.trim().bytes() {
        if counts.try_push(digit.wrapping_sub(b'0')).is_err() {
            return Err(Fail::from("too many counts"));
        }
    }
    Ok(ClassLayout::of(counts))
}

fn plan(alloc: Global, den: i128, lines: Lines) -> Result<Plan, Fail> {
    let mut rows = Vec::new(alloc);
    for line in lines {
        let (at, shared) = line.split_once(':').ok_or("no counts")?;
        rows.push(Row {
            history: history(alloc, at)?,
            counts: counts(alloc, shared)?,
        })?;
    }
    if rows.len() > 4_294_967_295 {
        return Err(Fail::from("too many rows"));
    }
    Ok(Plan {
        den,
        rows: Rows::of(rows),
    })
}

fn defence(alloc: Global, den: i128, lines: Lines) -> Result<Defence, Fail> {
    let mut rows = Vec::new(alloc);
    for line in lines {
        let (west, line) = line.split_once('/').ok_or("no layout")?;
        let (at, shared) = line.split_once(':').ok_or("no counts")?;
        rows.push(DefenceRow {
            west: layout(west)?,
            history: history(alloc, at)?,
            counts: counts(alloc, shared)?,
        })?;
    }
    if rows.len() > 4_294_967_295 {
        return Err(Fail::from("too many rows"));
    }
    Ok(Defence {
        den,
        rows: DefenceRows::of(rows),
    })
}

// A gate that counts who enters it.
#[derive(Drop)]
struct Counting(AtomicU64);

impl Gate for Counting {
    fn enter(&self) {
        self.0.fetch_add(1, Ordering::SeqCst);
    }
}

// The least that a plan earns, with the reply, and the same found on several threads, which enter a gate.
fn least_of<R: Threads + Sync, G: Gate + Sync>(
    rt: &R,
    gate: &G,
    alloc: Global,
    question: &Question,
    den: i128,
    lines: Lines,
) -> Result<[(i128, DefenceReply); 2], Fail> {
    if !question.is_valid() {
        return Err(Fail::from("not valid"));
    }
    let arena = Bump::new(alloc);
    let tree = grow(alloc, &arena, question).ok().ok_or("no tree")?;
    let plan = plan(alloc, den, lines)?;
    if proper_plan(question, &plan).is_err() {
        return Err(Fail::from("not proper"));
    }
    Ok([
        least(alloc, &tree, &plan)?,
        least_on(rt, gate, alloc, &tree, &plan)?,
    ])
}

// The most that a defence lets declarer earn, and the reply.
fn most_of(
    alloc: Global,
    question: &Question,
    den: i128,
    lines: Lines,
) -> Result<(i128, DeclarerReply), Fail> {
    if !question.is_valid() {
        return Err(Fail::from("not valid"));
    }
    let arena = Bump::new(alloc);
    let tree = grow(alloc, &arena, question).ok().ok_or("no tree")?;
    let defence = defence(alloc, den, lines)?;
    if proper_defence(question, &defence).is_err() {
        return Err(Fail::from("not proper"));
    }
    Ok(most(alloc, &tree, &defence)?)
}

// Whether a choice is the one that a text tells.
fn is_told(alloc: Global, line: &str, moves: &[ClassMove], mv: ClassMove) -> Result<bool, Fail> {
    let (at, told) = line.split_once(':').ok_or("no move")?;
    Ok(history(alloc, at)?.items() == moves && class_move(told.trim())? == mv)
}

const QUEEN_MOSTLY: Lines = &["S4 3 : 0=1 2=2"];

const FIVE_PARTS: Lines = &["S4 1 : 0=4 2=1", "S4 3 : 0=2 2=3", "S4 - : 2=5"];

const KINGS_KEPT: Lines = &[
    "00 / S4 - 0 : 3=7140",
    "01 / S4 3 0 : 3=148512",
    "02 / S4 3 0 : 3=1039584",
    "03 / S4 3 0 : 3=3267264",
    "04 / S4 3 0 : 3=5105100",
    "05 / S4 3 0 : 3=4084080",
    "06 / S4 3 0 : 3=1633632",
    "07 / S4 3 0 : 3=297024",
    "11 / S4 : 1=99008 3=198016",
    "12 / S4 : 1=544544 3=1089088",
    "13 / S4 : 1=1361360 3=2722720",
    "14 / S4 : 1=1701700 3=3403400",
    "15 / S4 : 1=1089088 3=2178176",
    "16 / S4 : 1=346528 3=693056",
    "17 / S4 : 1=49504 3=99008",
    "18 / S4 : 1=2380 3=4760",
];

#[test]
fn replies_to_plans(rt: HostRuntime) -> Result<(), Fail> {
    let alloc = rt.alloc();
    let ten = led("AQJT987654", "3", Goal::AtLeast(10))?;
    let both = led("AQ", "32", Goal::AtLeast(2))?;
    let tricks = Question {
        goal: Goal::Tricks,
        ..both
    };
    let cases: [(Question, Case); 7] = [
        (
            ten,
            (1, &[], 5_408_312, 2, &["0 / S3 - 0 : 4", "3 / S3 : 4"]),
        ),
        (
            both,
            (
                1,
                &[],
                12_376,
                30,
                &["0 / S4 - 0 : 3", "0 / S4 - 0 3 N2 : 1", "1 / S4 3 0 : 3"],
            ),
        ),
        (
            both,
            (
                2,
                &["S4 3 : 2=2"],
                10_400_600,
                17,
                &["0 / S4 - 0 : 3", "0 / S4 - 0 3 N2 : 1", "1 / S4 3 2 : 1"],
            ),
        ),
        (
            both,
            (
                3,
                QUEEN_MOSTLY,
                10_412_976,
                44,
                &["0 / S4 - 0 : 3", "0 / S4 - 0 3 N2 : 1"],
            ),
        ),
        (
            both,
            (
                5,
                FIVE_PARTS,
                15_619_464,
                43,
                &["0 / S4 - 2 : 1", "1 / S4 3 0 : 3"],
            ),
        ),
        (
            tricks,
            (3, QUEEN_MOSTLY, 41_614_776, 44, &["0 / S4 - 0 : 3"]),
        ),
        (tricks, (5, FIVE_PARTS, 67_622_464, 43, &["0 / S4 - 2 : 1"])),
    ];
    for (question, (den, rows, number, many, first)) in cases {
        for (found, reply) in least_of(&rt, &OpenGate, alloc, &question, den, rows)? {
            assert_eq!(rt; found, number);
            assert_eq!(rt; reply.items().len(), many);
            for (choice, line) in reply.items().iter().zip(first) {
                let (place, line) = line.split_once('/').ok_or("no place")?;
                assert_eq!(rt; choice.layout, place.trim().parse::<u8>()?);
                assert!(rt; is_told(alloc, line, choice.history.items(), choice.mv)?);
            }
        }
    }
    Ok(())
}

// The class layouts are shared out among four threads at most, and each of them enters the gate once.
#[test]
fn threads_enter_the_gate(rt: HostRuntime) -> Result<(), Fail> {
    let alloc = rt.alloc();
    let none = Holding::read(b"-").ok().ok_or("-")?;
    let eleven = Holding::read(b"AJT98765432").ok().ok_or("eleven cards")?;
    let cases: [(Question, i128, u64); 4] = [
        (
            Question::plain(eleven, none, Goal::AtLeast(11)),
            5_408_312,
            3,
        ),
        (led("AQJT987654", "3", Goal::AtLeast(10))?, 5_408_312, 4),
        (led("A9876", "5432", Goal::AtLeast(0))?, 10_400_600, 3),
        (led("AQ", "32", Goal::AtLeast(2))?, 12_376, 4),
    ];
    for (question, number, chunks) in cases {
        let gate = Counting(AtomicU64::new(0));
        for (found, _) in least_of(&rt, &gate, alloc, &question, 1, &[])? {
            assert_eq!(rt; found, number);
        }
        assert_eq!(rt; gate.0.load(Ordering::SeqCst), chunks);
    }
    Ok(())
}

#[test]
fn replies_to_defences(rt: HostRuntime) -> Result<(), Fail> {
    let alloc = rt.alloc();
    let ten = led("AQJT987654", "3", Goal::AtLeast(10))?;
    let both = led("AQ", "32", Goal::AtLeast(2))?;
    let tricks = Question {
        goal: Goal::Tricks,
        ..both
    };
    let cases: [(Question, Case); 4] = [
        (
            ten,
            (1, &[], 10_400_600, 3, &["S3 1 : 0", "S3 4 : 0", "S3 - : 0"]),
        ),
        (
            both,
            (1, &[], 10_400_600, 3, &["S4 1 : 0", "S4 3 : 0", "S4 - : 0"]),
        ),
        (
            both,
            (
                3,
                KINGS_KEPT,
                15_600_900,
                3,
                &["S4 1 : 0", "S4 3 : 2", "S4 - : 0"],
            ),
        ),
        (
            tricks,
            (1, &[], 20_801_200, 3, &["S4 1 : 0", "S4 3 : 0", "S4 - : 0"]),
        ),
    ];
    for (question, (den, rows, number, many, first)) in cases {
        let (found, reply) = most_of(alloc, &question, den, rows)?;
        assert_eq!(rt; found, number);
        assert_eq!(rt; reply.items().len(), many);
        for (choice, line) in reply.items().iter().zip(first) {
            assert!(rt; is_told(alloc, line, choice.history.items(), choice.mv)?);
        }
    }
    Ok(())
}
