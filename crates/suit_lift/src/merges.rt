//! Moves and West's cards told by their classes, without memory.
ghost use Rattle.std.specs.Prelude.{◌≡◌, ◌≤◌, length};
ghost use Rattle.suit_game.specs.Strategies.{same_move};
ghost use Rattle.suit_classes.specs.WhatIsAllowed.{is_among};
ghost use Rattle.suit_classes.specs.ClassGame.{cards_in, counts_of};
ghost use Rattle.suit_classes.specs.ClassMoves.{merge, merged};
ghost use Rattle.suit_lift.specs.Lifts.{fellows, is_lowest};
ghost use Rattle.suit_game.specs.declared.limits.TheConstants.{HAND_SIZE, MOST_MOVES};

use arrayvec::ArrayVec;
use suit_cards::{Holding, Rank};
use suit_classes::{ClassMove, Classes, MOST_DEFENCE_CLASSES, is_among};
use suit_game::Move;

/// A move with its card replaced by the card's class.
pub(crate) fn merge(classes: &Classes, mv: Move) -> ClassMove
    ensures { result ≡ merge classes.now mv }
{
    match mv {
        Move::Lead { seat, rank } => ClassMove::Lead {
            seat,
            class: classes.class_of(rank),
        },
        Move::Follow { rank } => ClassMove::Follow {
            class: classes.class_of(rank),
        },
        Move::ShowOut => ClassMove::ShowOut,
    }
}

/// Moves, of which there are at most 52, each with its card replaced by the card's class.
pub(crate) fn merged(classes: &Classes, moves: &[Move]) -> ArrayVec<ClassMove, 52>
    requires { length moves.now ≤ MOST_MOVES }
    ensures { result.items ≡ merged classes.now moves.now }
{
    let mut merges = ArrayVec::new();
    for mv in moves {
        merges.push(merge(classes, *mv));
    }
    merges
}

/// How many of some moves merge to a class move.
#[tactic(auto, unfolding(crate::specs::Lifts::fellows))]
pub(crate) fn how_often(classes: &Classes, moves: &[Move], class: ClassMove) -> u8
    requires { length moves.now ≤ MOST_MOVES }
    ensures { result ≡ length (fellows classes.now moves.now class) }
{
    let mut count = 0;
    for mv in moves {
        if merge(classes, *mv).is_same(class) {
            count += 1;
        }
    }
    count
}

/// Whether a move is the last of some that merges as it does.
#[tactic(auto, unfolding(crate::specs::Lifts::is_lowest))]
pub(crate) fn is_lowest(classes: &Classes, mut moves: &[Move], mv: &Move) -> bool
    requires { length moves.now ≤ MOST_MOVES }
    ensures { result ≡ is_lowest classes.now moves.entry.now mv.now }
{
    while let [first, later @ ..] = moves {
        if is_same(first, mv) {
            return !some_merges_to(classes, later, merge(classes, *mv));
        }
        moves = later;
    }
    false
}

// Whether one of some moves merges to a class move.
fn some_merges_to(classes: &Classes, moves: &[Move], class: ClassMove) -> bool
    requires { length moves.now ≤ MOST_MOVES }
    ensures { result ≡ is_among (merged classes.now moves.now) class }
{
    is_among(merged(classes, moves).as_slice(), class)
}

// Whether both are the same move.
fn is_same(here: &Move, there: &Move) -> bool
    ensures { result ≡ same_move here.now there.now }
{
    *here == *there
}

/// How many cards of each of the defenders' classes West was dealt.
pub(crate) fn counts_of(classes: &Classes, west: Holding) -> ArrayVec<u8, MOST_DEFENCE_CLASSES>
    ensures { result.items ≡ counts_of classes.now west }
{
    let cards = west.ranks();
    let mut counts = ArrayVec::new();
    for class in classes.defence().as_slice() {
        counts.push(cards_in(classes, cards.as_slice(), *class));
    }
    counts
}

// How many of some cards are of a class.
fn cards_in(classes: &Classes, cards: &[Rank], class: u8) -> u8
    requires { length cards.now ≤ HAND_SIZE }
    ensures { result ≡ cards_in classes.now cards.now class }
{
    let mut count = 0;
    for rank in cards {
        if classes.class_of(*rank) == class {
            count += 1;
        }
    }
    count
}
