//! The size of a support.
ghost use Rattle.std.specs.Prelude.{◌≡◌, ◌+◌, ◌-◌, ◌^◌, min};
ghost use Rattle.suit_game.specs.declared.question.Question.{Question};
ghost use Rattle.suit_game.specs.Validity.{IsValid};
ghost use Rattle.suit_program.specs.Supports.Marks.{IsGrownTree, support_seen};
ghost use Rattle.suit_program.specs.Programs.{size_of};
ghost use Rattle.suit_program.specs.Walks.Reaches.{IsSomeReach, Reached};
ghost use Rattle.suit_program.specs.Walks.SupportSizes.{IsReachBefore, size_at, size_from};
ghost use Rattle.suit_tree.specs.Trees.{IsTreeOf};

use crate::Support;
use crate::walks::reach::Reach;
use suit_game::MOST_MOVES;
use suit_tree::Tree;

/// How many rows and columns the program of a support has, for the question whose tree is given. It stays at the
/// greatest number that it can tell.
pub fn size(tree: &Tree, support: &Support) -> u32
    requires { IsGrownTree tree.now }
    ensures { (question : Question) → IsValid question → IsTreeOf question tree.now
        → result ≡ min (size_of question (support_seen question support.now)) (2 ^ 32 - 1) }
{
    size_from(&Reach::start(tree, support), MOST_MOVES, 0)
}

// How many rows and columns stand at class histories from a reached one on, after which at most so many moves come, and
// before them.
fn size_from(reach: &Reach, more: u8, before: u32) -> u32
    requires { IsReachBefore more reach.now }
    ensures { Reached reach.now (λ question support history.
        result ≡ min (before + size_from question support history) (2 ^ 32 - 1)) }
{
    let mut size = before.saturating_add(size_at(reach));
    for child in reach.node().children() {
        match reach.child(child) {
            Some(next) => size = size_from(&next, more - 1, size),
            None => {}
        }
    }
    size
}

// How many rows and columns stand at a reached class history.
fn size_at(reach: &Reach) -> u32
    requires { IsSomeReach reach.now }
    ensures { Reached reach.now (λ question support history. result ≡ size_at question support history) }
{
    if reach.declarer_chooses() {
        return 1 + reach.own_moves().len() as u32;
    }
    let mut size = 0;
    for layout in reach.layouts() {
        if reach.chooses(layout.index) {
            size += 1 + reach.answers(layout).len() as u32;
        }
    }
    size
}
