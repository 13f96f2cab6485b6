//! Where the rows of a support's program stand at a class history that is reached.
ghost use Rattle.std.specs.Prelude.{◌≡◌, ◌≤◌, Contains, IfNone, IfSome, length, map, take};
ghost use Rattle.std.specs.List.{flat_map};
ghost use Rattle.suit_program.specs.Walks.AnswerRows.{IsLayoutAt, layout_at};
ghost use Rattle.suit_program.specs.Programs.{answered_limits, limits_at};
ghost use Rattle.suit_program.specs.Walks.Reaches.{IsSomeReach, Reached};
ghost use Rattle.suit_program.specs.Supports.{reached_layouts};
ghost use Rattle.suit_program.specs.declared.walks.reach.TheConstants.{MOST_NEXT};

use crate::walks::reach::{Reach, ReachedLayout};

/// How many rows there are at a class history: one where declarer has a choice, and else one for each answer of the
/// defence in each class layout.
pub(crate) fn rows_here(reach: &Reach) -> usize
    requires { IsSomeReach reach.now }
    ensures { Reached reach.now (λ question support history. result ≡ length (limits_at question support history)) }
{
    if reach.declarer_chooses() {
        1
    } else {
        answers_before(reach, reach.layouts().len())
    }
}

/// How many answers of the defence there are in the first class layouts of those in which the class history is reached.
pub(crate) fn answers_before(reach: &Reach, count: usize) -> usize
    requires many { count ≤ length reach.now.layouts.items }
    requires reached { IsSomeReach reach.now }
    ensures { Reached reach.now (λ question support history. result
        ≡ length (flat_map (answered_limits question support history)
        (take count (reached_layouts question support history)))) }
{
    let layouts = reach.layouts();
    let mut answers = 0;
    for index in 0..count {
        answers += answers_in(reach, &layouts[index]);
    }
    answers
}

// How many there are in one of them.
fn answers_in<'a>(reach: &Reach<'a>, layout: &ReachedLayout<'a>) -> usize
    requires reached { IsSomeReach reach.now }
    requires listed { Contains reach.now.layouts.items layout.now }
    ensures few { result ≤ MOST_NEXT }
    ensures told { Reached reach.now (λ question support history. result
        ≡ length (answered_limits question support history (layout_at question layout.now.index))) }
{
    if reach.chooses(layout.index) {
        reach.answers(layout).len()
    } else {
        0
    }
}

/// The place of the class layout with an index among those in which the class history is reached, if it is one of them.
pub(crate) fn place_of(reach: &Reach, index: u8) -> Option<usize>
    ensures some { IfSome result (λ place. IsLayoutAt reach.now.layouts.items place index) }
    ensures none { IfNone result (Contains (map (λ layout. layout.index) reach.now.layouts.items) index → ⊥) }
{
    let layouts = reach.layouts();
    for place in 0..layouts.len() {
        if layouts[place].index == index {
            return Some(place);
        }
    }
    None
}
