//! Which class histories are allowed, and where they lead.
ghost use Rattle.std.specs.Prelude.{◌≡◌, ◌<◌, ◌≤◌, MatchOption, false, length, true};
ghost use Rattle.suit_game.specs.Validity.{IsValid};
ghost use Rattle.suit_classes.specs.WhatIsAllowed.{allows, allows_from, is_among};
ghost use Rattle.suit_classes.specs.ClassPlaces.{class_after, class_moves, class_start};
ghost use Rattle.suit_plans.specs.Masses.{weight_of};
ghost use Rattle.suit_plans.specs.Properness.{goes_undecided, some_allows};
ghost use Rattle.suit_plans.specs.Starts.{IsStart};
ghost use Rattle.suit_game.specs.declared.limits.TheConstants.{MOST_MOVES};

use suit_classes::{ClassMove, ClassPlace, Classes, is_among};
use suit_game::Question;
use suit_layouts::ClassWalk;

/// Whether a class layout of positive weight allows a class history.
#[tactic(auto, unfolding(suit_classes::specs::WhatIsAllowed::allows))]
pub(crate) fn allows(question: &Question, counts: &[u8], history: &[ClassMove]) -> bool
    requires valid { IsValid question.now }
    requires weighs { 0 < weight_of question.now counts.now }
    ensures { result ≡ allows question.now counts.now history.now }
{
    allows_from(
        &ClassPlace::start(question, &Classes::of(question)),
        counts,
        history,
    )
}

/// Whether some class layout of positive weight allows a class history.
pub(crate) fn some_allows(question: &Question, history: &[ClassMove]) -> bool
    requires { IsValid question.now }
    ensures { result ≡ some_allows question.now history.now }
{
    let classes = Classes::of(question);
    let sizes = classes.sizes();
    let start = ClassPlace::start(question, &classes);
    for (layout, _) in ClassWalk::new(question, sizes.as_slice()) {
        if allows_from(&start, layout.counts(), history) {
            return true;
        }
    }
    false
}

// Whether the moves are, one after the other, moves for these counts, from the first position on.
fn allows_from(start: &ClassPlace, counts: &[u8], history: &[ClassMove]) -> bool
    requires { IsStart start.now counts.now }
    ensures { result ≡ allows_from counts.now start.now history.now }
{
    let mut place = *start;
    for index in 0..history.len() {
        if !has_move(&place, counts, history[index]) {
            return false;
        }
        place = place.step(history[index]);
    }
    true
}

// Whether a move is one of those at a place for these counts.
fn has_move(place: &ClassPlace, counts: &[u8], mv: ClassMove) -> bool
    ensures { result ≡ is_among (class_moves place.now counts.now) mv }
{
    is_among(&place.moves(counts), mv)
}

/// Where a class history leads that goes past no decided position.
pub(crate) fn undecided_place(question: &Question, history: &[ClassMove]) -> Option<ClassPlace>
    requires { length history.now ≤ MOST_MOVES }
    ensures { MatchOption result (goes_undecided (class_start question.now) history.now
        ≡ false) (λ place. (goes_undecided (class_start question.now) history.now ≡ true)
        × (place ≡ class_after question.now history.now)) }
{
    let mut place = ClassPlace::start(question, &Classes::of(question));
    for index in 0..history.len() {
        if place.decided() {
            return None;
        }
        place = place.step(history[index]);
    }
    Some(place)
}
