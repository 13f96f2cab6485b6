//! Class layouts and their weights, worked out apart from the program.
ghost use Rattle.std.specs.Prelude.{◌≡◌, ◌≤◌, length, sum, IsTrue};
ghost use Rattle.suit_game.specs.Blocks.{AreSizes};

use std::test::Fail;
use suit_cards::Holding;
use suit_game::{Goal, Question};
use suit_layouts::{ClassWalk, class_index, class_layouts, class_weight};

// The king apart from eight low cards.
const KING_AND_EIGHT: &[u8] = &[1, 8];

// A question with free entries, all places vacant and no more known.
fn plain(north: &'static str, south: &'static str) -> Result<Question, Fail> {
    Ok(Question::plain(
        Holding::read(north.as_bytes()).ok().ok_or(north)?,
        Holding::read(south.as_bytes()).ok().ok_or(south)?,
        Goal::Tricks,
    ))
}

// How many cards so many blocks have.
fn cards_of(sizes: &[u8]) -> u32
    requires { length sizes.now ≤ 7 }
    ensures { result ≡ sum sizes.now }
{
    let mut cards = 0;
    for size in sizes {
        cards += u32::from(*size);
    }
    cards
}

// Whether blocks of these sizes take up the missing cards of a suit.
fn are_sizes(question: &Question, sizes: &[u8]) -> bool
    ensures { IsTrue result → AreSizes question.now sizes.now }
{
    let missing = question.missing().len();
    sizes.len() <= 7
        && cards_of(sizes) == u32::from(missing)
        && usize::from(missing) + sizes.len() <= 14
        && sizes.iter().all(|size| *size >= 1)
}

#[test]
fn listed(rt: HostRuntime) -> Result<(), Fail> {
    let two_apart = plain("AQJT987654", "3")?;
    let eleven_cards = plain("AJT98765432", "")?;
    let cases: [(Question, &[u8], usize, &[(&[u8], u64)]); 9] = [
        (
            two_apart,
            &[1, 1],
            4,
            &[
                (&[0, 0], 2_496_144),
                (&[0, 1], 2_704_156),
                (&[1, 0], 2_704_156),
                (&[1, 1], 2_496_144),
            ],
        ),
        (
            Question {
                west_least: 1,
                west_most: 1,
                ..two_apart
            },
            &[1, 1],
            2,
            &[(&[0, 1], 2_704_156), (&[1, 0], 2_704_156)],
        ),
        (
            eleven_cards,
            &[2],
            3,
            &[(&[0], 2_496_144), (&[1], 5_408_312), (&[2], 2_496_144)],
        ),
        (
            Question {
                vacant_w: 2,
                ..eleven_cards
            },
            &[2],
            3,
            &[(&[0], 78), (&[1], 26), (&[2], 1)],
        ),
        (
            Question {
                vacant_w: 1,
                ..eleven_cards
            },
            &[2],
            2,
            &[(&[0], 12), (&[1], 2)],
        ),
        (
            Question {
                vacant_e: 1,
                ..eleven_cards
            },
            &[2],
            2,
            &[(&[1], 2), (&[2], 12)],
        ),
        (plain("AKQJT98765432", "")?, &[], 1, &[(&[], 10_400_600)]),
        (
            plain("AQ", "32")?,
            &[1, 8],
            18,
            &[
                (&[0, 0], 2380),
                (&[0, 1], 49_504),
                (&[0, 2], 346_528),
                (&[0, 3], 1_089_088),
            ],
        ),
        (
            plain("Q9", "63")?,
            &[2, 2, 2, 2, 1],
            162,
            &[
                (&[0, 0, 0, 0, 0], 2380),
                (&[0, 0, 0, 0, 1], 6188),
                (&[0, 0, 0, 1, 0], 12_376),
            ],
        ),
    ];
    for (question, sizes, many, first) in cases {
        assert!(rt; question.is_valid());
        assert!(rt; are_sizes(&question, sizes));
        let layouts = class_layouts(rt.alloc(), &question, sizes)?;
        assert_eq!(rt; layouts.len(), many);
        assert_eq!(rt; ClassWalk::new(&question, sizes).count(), many);
        for ((layout, weight), (counts, deals)) in layouts.iter().zip(first) {
            assert_eq!(rt; layout.counts(), *counts);
            assert_eq!(rt; *weight, *deals);
        }
    }
    Ok(())
}

#[test]
fn single(rt: HostRuntime) -> Result<(), Fail> {
    let tenace = plain("AQ", "32")?;
    let long_west = Question {
        west_least: 2,
        ..tenace
    };
    let cases: [(Question, &[u8], u64, usize); 8] = [
        (tenace, &[0, 0], 2380, 0),
        (tenace, &[1, 0], 6188, 9),
        (tenace, &[1, 8], 2380, 17),
        (tenace, &[2, 0], 0, 0),
        (tenace, &[0], 0, 0),
        (tenace, &[0, 0, 0], 0, 0),
        (long_west, &[0, 1], 0, 0),
        (long_west, &[0, 2], 346_528, 0),
    ];
    for (question, counts, deals, index) in cases {
        assert!(rt; question.is_valid());
        assert!(rt; are_sizes(&question, KING_AND_EIGHT));
        assert_eq!(rt; class_weight(&question, KING_AND_EIGHT, counts), deals);
        let found = class_index(&question, KING_AND_EIGHT, counts);
        assert_eq!(rt; found, if deals > 0 { Some(index) } else { None });
    }
    Ok(())
}
