//! Missing cards, weights and validity, written down by hand.
use std::test::Fail;
use suit_cards::Holding;
use suit_game::{Entries, Gate, Goal, OpenGate, Question, total, weight};

// The plain question of two hands, for tricks.
fn plain(north: &'static str, south: &'static str) -> Result<Question, Fail> {
    let north = Holding::read(north.as_bytes()).ok().ok_or(north)?;
    let south = Holding::read(south.as_bytes()).ok().ok_or(south)?;
    Ok(Question::plain(north, south, Goal::Tricks))
}

#[test]
fn missing_cards(rt: HostRuntime) -> Result<(), Fail> {
    let cases = [
        ("AQ", "32", "KJT987654"),
        ("AJT98765432", "-", "KQ"),
        ("AKQJT98765432", "", "-"),
        ("2", "A", "KQJT9876543"),
    ];
    for (north, south, missing) in cases {
        assert_eq!(rt; plain(north, south)?.missing().text().as_str(), missing);
    }
    OpenGate.enter();
    Ok(())
}

#[test]
fn weights_and_totals(rt: HostRuntime) -> Result<(), Fail> {
    let eleven_cards = plain("AJT98765432", "")?;
    let tenace = plain("AQ", "32")?;
    let cases = [
        (eleven_cards, 10_400_600, 0, 2_496_144),
        (eleven_cards, 10_400_600, 1, 2_704_156),
        (eleven_cards, 10_400_600, 2, 2_496_144),
        (
            Question {
                west_least: 1,
                west_most: 1,
                ..eleven_cards
            },
            5_408_312,
            2,
            0,
        ),
        (
            Question {
                vacant_w: 10,
                ..tenace
            },
            1_144_066,
            11,
            0,
        ),
        (plain("AQJT987654", "3")?, 10_400_600, 3, 1_961_256),
    ];
    for (question, all, west_len, deals) in cases {
        assert!(rt; question.is_valid());
        assert_eq!(rt; total(&question), all);
        assert_eq!(rt; weight(&question, west_len), deals);
    }
    Ok(())
}

#[test]
fn invalid_questions(rt: HostRuntime) -> Result<(), Fail> {
    let tenace = plain("AQ", "32")?;
    let cases = [
        plain("AQ", "A2")?,
        plain("", "-")?,
        Question {
            entries_n: Entries::Count(14),
            ..tenace
        },
        Question {
            entries_s: Entries::Count(14),
            ..tenace
        },
        Question {
            vacant_w: 14,
            ..tenace
        },
        Question {
            vacant_e: 14,
            ..tenace
        },
        Question {
            west_least: 3,
            west_most: 2,
            ..tenace
        },
        Question {
            west_most: 14,
            ..tenace
        },
        Question {
            vacant_w: 4,
            vacant_e: 4,
            ..tenace
        },
        Question {
            goal: Goal::AtLeast(14),
            ..tenace
        },
        Question { nodes: 0, ..tenace },
        Question {
            nodes: 4_000_001,
            ..tenace
        },
        Question {
            pivots: 1_000_001,
            ..tenace
        },
        Question {
            west_least: 3,
            ..plain("AJT98765432", "")?
        },
    ];
    for question in cases {
        assert!(rt; !question.is_valid());
    }
    Ok(())
}
