//! The columns of a support's program, as a walk over what is reached meets them.
ghost use Rattle.std.specs.Prelude.{◌≡◌, ◌-◌, ◌++◌, [], IfOk, OnOk, length, map};
ghost use Rattle.std.specs.List.{flat_map};
ghost use Rattle.suit_game.specs.declared.question.Question.{Question};
ghost use Rattle.suit_game.specs.Validity.{IsValid};
ghost use Rattle.suit_tree.specs.Trees.{IsTreeOf};
ghost use Rattle.suit_program.specs.Supports.Marks.{IsGrownTree, support_seen};
ghost use Rattle.suit_program.specs.Programs.{columns, columns_at, held_column};
ghost use Rattle.suit_program.specs.Walks.Reaches.{IsSomeReach, Reached};
ghost use Rattle.suit_program.specs.Readings.{is_passed};
ghost use Rattle.suit_program.specs.Supports.{reached_layouts};
ghost use Rattle.suit_program.specs.Walks.{IsWalkAt, walked};

use crate::Support;
use crate::walks::reach::Reach;
use std::alloc::{AllocError, Global};
use suit_game::MOST_MOVES;
use suit_tree::Tree;

/// Of each column of a support's program, in order, whether it is declarer's.
pub(crate) fn passed_columns(
    alloc: Global,
    tree: &Tree,
    support: &Support,
) -> Result<Vec<bool>, AllocError>
    requires { IsGrownTree tree.now }
    ensures { IfOk result (λ passed. (question : Question) → IsValid question → IsTreeOf question tree.now
        → passed.items ≡ map is_passed (columns question (support_seen question support.now))) }
{
    let mut passed = Vec::new(alloc);
    add_below(&Reach::start(tree, support), MOST_MOVES, &mut passed)?;
    Ok(passed)
}

// Adds the columns from a reached class history on, which at most so many moves follow.
fn add_below(reach: &Reach, more: u8, passed: &mut Vec<bool>) -> Result<(), AllocError>
    requires { IsWalkAt reach.now more }
    ensures { OnOk result ((at : IsWalkAt reach.now more) → passed.new.items
        ≡ passed.old.items ++ walked (λ history. map is_passed (columns_at at.question at.support history))
        at.question at.support at.history) }
{
    add_here(reach, passed)?;
    let node = reach.node();
    for child in node.children() {
        if let Some(next) = reach.child(child) {
            add_below(&next, more - 1, passed)?;
        }
    }
    Ok(())
}

// Adds those at the class history itself, which are declarer's where he has a choice.
fn add_here(reach: &Reach, passed: &mut Vec<bool>) -> Result<(), AllocError>
    requires { IsSomeReach reach.now }
    ensures { OnOk result (Reached reach.now (λ question support history. passed.new.items
        ≡ passed.old.items ++ map is_passed (columns_at question support history))) }
{
    let own = reach.declarer_chooses();
    let count = columns_here(reach);
    for _column in 0..count {
        passed.push(own)?;
    }
    Ok(())
}

/// How many columns there are at a class history.
pub(crate) fn columns_here(reach: &Reach) -> usize
    requires { IsSomeReach reach.now }
    ensures { Reached reach.now (λ question support history. result ≡ length (columns_at question support history)) }
{
    if reach.declarer_chooses() {
        reach.own_moves().len()
    } else {
        held_columns(reach)
    }
}

// How many of the defence's there are: one for each class layout in which it has a choice.
fn held_columns(reach: &Reach) -> usize
    ensures { Reached reach.now (λ question support history. result
        ≡ length (flat_map (held_column question history) (reached_layouts question support history))) }
{
    let mut columns = 0;
    for layout in reach.layouts() {
        if reach.chooses(layout.index) {
            columns += 1;
        }
    }
    columns
}
