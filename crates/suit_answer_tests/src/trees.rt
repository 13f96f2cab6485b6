//! How many pairs trees have, counted by another program or by hand, and one small tree written down.
use bumpalo::Bump;
use std::test::Fail;
use suit_cards::{Holding, Seat};
use suit_classes::{ClassMove, ClassTurn};
use suit_game::{Entries, Goal, LeadAt, Question};
use suit_tree::{TreeEnd, grow};

// A question with free entries, all places vacant and no more known.
fn plain(north: &'static str, south: &'static str, goal: Goal) -> Result<Question, Fail> {
    let north = Holding::read(north.as_bytes()).ok().ok_or(north)?;
    let south = Holding::read(south.as_bytes()).ok().ok_or(south)?;
    Ok(Question::plain(north, south, goal))
}

// The same with the lead in one hand first, and so many entries to North and to South.
fn led_from(start: LeadAt, north: u8, south: u8, question: Question) -> Question {
    Question {
        start,
        entries_n: Entries::Count(north),
        entries_s: Entries::Count(south),
        ..question
    }
}

#[test]
fn counted(rt: HostRuntime) -> Result<(), Fail> {
    let suit = Question {
        start: LeadAt::N,
        ..plain("AKQJT98765432", "-", Goal::AtLeast(13))?
    };
    let ace = plain("A", "2", Goal::AtLeast(1))?;
    let finesse = plain("AQ", "32", Goal::Tricks)?;
    let tenace = plain("AJT", "432", Goal::AtLeast(2))?;
    let ten = plain("AQJT987654", "3", Goal::AtLeast(10))?;
    let nine = plain("AJT987654", "3", Goal::AtLeast(8))?;
    let seven = plain("AKT9876", "54", Goal::AtLeast(7))?;
    let cases: [(Question, u32); 19] = [
        (suit, 53),
        (Question { nodes: 53, ..suit }, 53),
        (
            Question {
                goal: Goal::AtLeast(0),
                nodes: 1,
                ..suit
            },
            1,
        ),
        (ace, 108),
        (Question { nodes: 108, ..ace }, 108),
        (
            Question {
                goal: Goal::Tricks,
                ..ace
            },
            108,
        ),
        (
            led_from(LeadAt::S, 0, 0, plain("AQ", "32", Goal::AtLeast(2))?),
            438,
        ),
        (led_from(LeadAt::S, 0, 0, finesse), 582),
        (finesse, 1702),
        (
            Question {
                regain: LeadAt::S,
                ..led_from(LeadAt::N, 0, 1, plain("KJ", "2", Goal::Tricks)?)
            },
            2435,
        ),
        (led_from(LeadAt::S, 0, 0, ten), 267),
        (led_from(LeadAt::S, 0, 0, nine), 1156),
        (led_from(LeadAt::S, 0, 1, seven), 2714),
        (tenace, 8100),
        (
            Question {
                regain: LeadAt::N,
                ..led_from(LeadAt::Either, 1, 1, tenace)
            },
            6836,
        ),
        (
            Question {
                vacant_w: 5,
                vacant_e: 11,
                west_least: 2,
                west_most: 5,
                ..led_from(LeadAt::Either, 1, 0, plain("K9", "42", Goal::AtLeast(1))?)
            },
            30_760,
        ),
        (
            Question {
                west_least: 3,
                west_most: 5,
                ..led_from(LeadAt::S, 0, 2, plain("QT9", "32", Goal::Tricks)?)
            },
            10_881,
        ),
        (
            led_from(
                LeadAt::Either,
                1,
                1,
                plain("AKT9", "J32", Goal::AtLeast(4))?,
            ),
            24_216,
        ),
        (plain("-", "A", Goal::AtLeast(2))?, 13),
    ];
    for (question, pairs) in cases {
        assert!(rt; question.is_valid());
        let arena = Bump::new(rt.alloc());
        let tree = grow(rt.alloc(), &arena, &question).ok().ok_or("no tree")?;
        assert_eq!(rt; tree.pairs(), pairs);
    }
    for (question, budget) in [(suit, 52), (ace, 107), (ace, 1), (tenace, 8099)] {
        let small = Question {
            nodes: budget,
            ..question
        };
        assert!(rt; small.is_valid());
        let arena = Bump::new(rt.alloc());
        let end = grow(rt.alloc(), &arena, &small).err();
        assert_eq!(rt; end, Some(TreeEnd::Nodes { budget }));
    }
    Ok(())
}

#[test]
fn ace_facing_the_two(rt: HostRuntime) -> Result<(), Fail> {
    // How many class layouts each node holds, one move deeper from line to line.
    let levels: [&[usize]; 5] = [
        &[12],
        &[12, 12],
        &[11, 1, 11, 1],
        &[11, 1, 11, 1],
        &[10, 1, 1, 10, 1, 1],
    ];
    let question = plain("A", "2", Goal::AtLeast(1))?;
    assert!(rt; question.is_valid());
    let arena = Bump::new(rt.alloc());
    let tree = grow(rt.alloc(), &arena, &question).ok().ok_or("no tree")?;
    assert_eq!(rt; tree.layouts().len(), 12);
    assert_eq!(rt; tree.root().by(), None);
    assert_eq!(rt; tree.root().turn(), ClassTurn::Lead);
    let leads = [(Seat::N, 0, Seat::E), (Seat::S, 2, Seat::W)];
    for (child, (seat, class, next)) in tree.root().children().iter().zip(leads) {
        assert_eq!(rt; child.by(), Some(ClassMove::Lead { seat, class }));
        assert_eq!(rt; child.turn(), ClassTurn::Defence(next));
    }
    let mut nodes = Vec::new(rt.alloc());
    let root = *tree.root();
    nodes.push(root)?;
    for held in levels {
        assert_eq!(rt; nodes.len(), held.len());
        let mut below = Vec::new(rt.alloc());
        for (node, many) in nodes.iter().zip(held) {
            assert_eq!(rt; node.layouts().len(), *many);
            let decided = node.turn() == ClassTurn::Decided;
            assert_eq!(rt; decided, node.children().is_empty());
            assert_eq!(rt; node.payoff(), u64::from(decided));
            for child in node.children() {
                assert!(rt; child.by().is_some());
                below.push(*child)?;
            }
        }
        nodes = below;
    }
    assert!(rt; nodes.is_empty());
    Ok(())
}
