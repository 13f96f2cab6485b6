//! Classes and class moves, written down by hand from the rules.
use std::process::Abort;
use std::test::Fail;
use suit_cards::{Holding, Rank, Seat};
use suit_classes::{ClassMove, ClassPlace, ClassTurn, Classes, Owner, laws};
use suit_game::{Entries, Goal, LeadAt, Move, Question};

fn holding(text: &'static str) -> Result<Holding, Fail> {
    Ok(Holding::read(text.as_bytes()).ok().ok_or(text)?)
}

fn rank(letter: u8) -> Result<Rank, Fail> {
    Ok(Rank::of(letter).ok_or("no rank")?)
}

// A question with free entries, all places vacant and no more known.
fn plain(north: &'static str, south: &'static str, goal: Goal) -> Result<Question, Fail> {
    Ok(Question::plain(holding(north)?, holding(south)?, goal))
}

// Ten cards facing the three, which is led: no hand has an entry.
fn ten_cards() -> Result<Question, Fail> {
    Ok(Question {
        start: LeadAt::S,
        entries_n: Entries::Count(0),
        entries_s: Entries::Count(0),
        ..plain("AQJT987654", "3", Goal::AtLeast(10))?
    })
}

// A class move: the hand and the class of a lead, the class of a follow, or a dash.
fn class_move(word: &str) -> Result<ClassMove, Fail> {
    match word.as_bytes() {
        [b'-'] => Ok(ClassMove::ShowOut),
        [digit] if digit.is_ascii_digit() => Ok(ClassMove::Follow {
            class: *digit - b'0',
        }),
        [b'N', digit] if digit.is_ascii_digit() => Ok(ClassMove::Lead {
            seat: Seat::N,
            class: *digit - b'0',
        }),
        [b'S', digit] if digit.is_ascii_digit() => Ok(ClassMove::Lead {
            seat: Seat::S,
            class: *digit - b'0',
        }),
        _ => Err(Fail::from("no class move")),
    }
}

#[test]
fn classes_of_questions(rt: HostRuntime) -> Result<(), Fail> {
    let cases: [(&'static str, &'static str, &'static [(Owner, u8, u8)]); 4] = [
        (
            "AQJT987654",
            "3",
            &[
                (Owner::N, b'A', 1),
                (Owner::Defence, b'K', 1),
                (Owner::N, b'Q', 9),
                (Owner::S, b'3', 1),
                (Owner::Defence, b'2', 1),
            ],
        ),
        (
            "AJT98765432",
            "-",
            &[
                (Owner::N, b'A', 1),
                (Owner::Defence, b'K', 2),
                (Owner::N, b'J', 10),
            ],
        ),
        ("AKQJT98765432", "-", &[(Owner::N, b'A', 13)]),
        (
            "AQ",
            "32",
            &[
                (Owner::N, b'A', 1),
                (Owner::Defence, b'K', 1),
                (Owner::N, b'Q', 1),
                (Owner::Defence, b'J', 8),
                (Owner::S, b'3', 2),
            ],
        ),
    ];
    for (north, south, wanted) in cases {
        let classes = Classes::of(&plain(north, south, Goal::Tricks)?);
        assert_eq!(rt; classes.count() as usize, wanted.len());
        let mut class = 0;
        let (defence, sizes) = (classes.defence(), classes.sizes());
        let mut held = defence.as_slice().iter().copied();
        let mut counts = sizes.as_slice().iter().copied();
        for (owner, top, size) in wanted {
            assert!(rt; class < classes.count());
            assert_eq!(rt; classes.owner(class), *owner);
            assert_eq!(rt; classes.top(class), rank(*top)?);
            assert_eq!(rt; classes.size(class), *size);
            assert_eq!(rt; classes.class_of(rank(*top)?), class);
            if *owner == Owner::Defence {
                assert_eq!(rt; held.next(), Some(class));
                assert_eq!(rt; counts.next(), Some(*size));
            }
            class += 1;
        }
        assert_eq!(rt; held.next(), None);
        assert_eq!(rt; counts.next(), None);
    }
    let classes = Classes::of(&ten_cards()?);
    assert_eq!(rt; classes.class_of(rank(b'4')?), 2);
    Ok(())
}

#[test]
fn merged_histories(rt: HostRuntime) -> Result<(), Fail> {
    let classes = Classes::of(&ten_cards()?);
    let moves = [
        Move::Lead {
            seat: Seat::S,
            rank: rank(b'3')?,
        },
        Move::Follow { rank: rank(b'2')? },
        Move::Follow { rank: rank(b'A')? },
        Move::ShowOut,
    ];
    let merged = classes.merge(rt.alloc(), &moves)?;
    let mut items = merged.items().iter().copied();
    for word in ["S3", "4", "0", "-"] {
        assert_eq!(rt; items.next(), Some(class_move(word)?));
    }
    assert_eq!(rt; items.next(), None);

    let ordered = ["N0", "N7", "S0", "S3", "0", "9", "-"];
    for (i, here) in ordered.iter().enumerate() {
        for (j, there) in ordered.iter().enumerate() {
            assert_eq!(rt; class_move(here)? < class_move(there)?, i < j);
            assert_eq!(rt;
                laws::moves_are_ordered(&class_move(here)?, &class_move(there)?),
                i < j
            );
        }
    }
    Ok(())
}

// What is so after a class history, where West was dealt these counts.
#[derive(Clone, Copy)]
struct Expected {
    west: &'static [u8],
    history: &'static str,
    turn: ClassTurn,
    moves: &'static str,
    payoff: u64,
}

fn case(
    west: &'static [u8],
    history: &'static str,
    turn: ClassTurn,
    moves: &'static str,
    payoff: u64,
) -> Expected {
    Expected {
        west,
        history,
        turn,
        moves,
        payoff,
    }
}

fn check_cases(rt: &impl Abort, question: &Question, cases: &[Expected]) -> Result<(), Fail> {
    assert!(rt; question.is_valid());
    let classes = Classes::of(question);
    for case in cases {
        let mut place = ClassPlace::start(question, &classes);
        for word in case.history.split_ascii_whitespace() {
            let mv = class_move(word)?;
            assert!(rt; !place.decided(), "before {word}");
            assert!(rt; place.moves(case.west).as_slice().contains(&mv), "{word}");
            place = place.step(mv);
        }
        assert_eq!(rt; place.turn(), case.turn, "after {}", case.history);
        assert_eq!(rt; place.decided(), case.turn == ClassTurn::Decided);
        assert_eq!(rt; place.payoff(), case.payoff);
        if place.decided() {
            continue;
        }
        let moves = place.moves(case.west);
        let mut words = case.moves.split_ascii_whitespace();
        for mv in moves.as_slice() {
            let word = words.next().ok_or("more moves are legal")?;
            assert_eq!(rt; *mv, class_move(word)?, "after {}", case.history);
        }
        assert_eq!(rt; words.next(), None);
    }
    Ok(())
}

#[test]
fn places_of_ten_cards(rt: HostRuntime) -> Result<(), Fail> {
    let question = ten_cards()?;
    check_cases(
        &rt,
        &question,
        &[
            case(&[1, 1], "", ClassTurn::Lead, "S3", 0),
            case(&[1, 1], "S3", ClassTurn::Defence(Seat::W), "1 4", 0),
            case(&[1, 0], "S3", ClassTurn::Defence(Seat::W), "1", 0),
            case(&[0, 1], "S3", ClassTurn::Defence(Seat::W), "4", 0),
            case(&[0, 0], "S3", ClassTurn::Defence(Seat::W), "-", 0),
            case(&[1, 0], "S3 1", ClassTurn::Declarer(Seat::N), "0 2", 0),
            case(&[1, 0], "S3 1 0", ClassTurn::Defence(Seat::E), "4", 0),
            case(&[1, 1], "S3 1 0", ClassTurn::Defence(Seat::E), "-", 0),
            // The ace wins, and the classes stay as they were.
            case(&[1, 0], "S3 1 0 4", ClassTurn::Lead, "N2", 0),
            // The king wins, and one trick too few is left.
            case(&[1, 0], "S3 1 2 4", ClassTurn::Decided, "", 0),
            // The queen wins, and the ace is still apart from the jack.
            case(&[1, 1], "S3 4 2 -", ClassTurn::Lead, "N0 N2", 0),
            case(
                &[1, 1],
                "S3 4 2 - N0 - - 1 N2 - - -",
                ClassTurn::Lead,
                "N2",
                0,
            ),
            // Declarer shows out of a hand, too.
            case(
                &[0, 0],
                "S3 - 0 4 N2 1",
                ClassTurn::Declarer(Seat::S),
                "-",
                0,
            ),
            case(&[0, 0], "S3 - 0 4 N2 1 - -", ClassTurn::Decided, "", 0),
        ],
    )?;
    let mut one = question;
    one.goal = Goal::AtLeast(1);
    // One trick is enough, and the goal is not met before.
    check_cases(
        &rt,
        &one,
        &[
            case(&[1, 0], "", ClassTurn::Lead, "S3", 0),
            case(&[1, 0], "S3 1 0 4", ClassTurn::Decided, "", 1),
            case(&[1, 0], "S3 1 2 4", ClassTurn::Lead, "N0 N2", 0),
        ],
    )
}

#[test]
fn places_of_a_tenace(rt: HostRuntime) -> Result<(), Fail> {
    let tricks = plain("AQ", "32", Goal::Tricks)?;
    check_cases(
        &rt,
        &tricks,
        &[
            case(&[1, 4], "", ClassTurn::Lead, "N0 N2 S4", 0),
            case(&[1, 4], "S4 3", ClassTurn::Declarer(Seat::N), "0 2", 0),
            case(&[1, 4], "S4 3 2", ClassTurn::Defence(Seat::E), "3", 0),
            case(&[0, 4], "S4 3 2", ClassTurn::Defence(Seat::E), "1 3", 0),
            case(&[1, 4], "S4 3 2 3", ClassTurn::Lead, "N0 S4", 1),
            case(&[0, 4], "S4 3 2 1", ClassTurn::Lead, "N0 S4", 0),
            // Two touching cards of South's are one class, and one of them is left.
            case(&[0, 4], "S4 3 2 1 N0 3 4 3", ClassTurn::Decided, "", 1),
            case(&[1, 0], "S4 1 0 3 S4", ClassTurn::Defence(Seat::W), "-", 1),
        ],
    )?;
    let mut two = tricks;
    two.goal = Goal::AtLeast(2);
    check_cases(
        &rt,
        &two,
        &[
            case(&[1, 4], "S4 3 2 3", ClassTurn::Lead, "N0 S4", 0),
            case(&[0, 4], "S4 3 2 1", ClassTurn::Decided, "", 0),
        ],
    )?;
    // The longer hand counts: three tricks can still come from it.
    let mut long = plain("A", "K43", Goal::AtLeast(3))?;
    check_cases(
        &rt,
        &long,
        &[case(&[4, 1], "", ClassTurn::Lead, "N0 S1 S3", 0)],
    )?;
    long.goal = Goal::AtLeast(4);
    check_cases(&rt, &long, &[case(&[4, 1], "", ClassTurn::Decided, "", 0)])?;
    long.goal = Goal::AtLeast(0);
    check_cases(&rt, &long, &[case(&[4, 1], "", ClassTurn::Decided, "", 1)])
}
