//! Counts of cards by class.
ghost use Rattle.std.specs.Prelude.{◌≡◌, ℕ, ◌+◌, ◌-◌, ◌<◌, ◌≤◌, ◌++◌, length, map, slice_index, slice_set};
ghost use Rattle.suit_classes.specs.declared.classes.TheConstants.{MOST_CLASSES};
ghost use Rattle.suit_classes.specs.declared.class_moves.ClassMove.TheVariants.{Lead, Follow};
ghost use Rattle.suit_classes.specs.ClassPlaces.{counted_classes, dealt_to, or_show_out};

use super::{ClassMove, Classes, MOST_CLASSES, Owner};
use arrayvec::ArrayVec;
use suit_cards::Seat;

/// How many cards of each class.
pub type CardsByClass = [u8; MOST_CLASSES];

/// How many cards of each class a side was dealt.
pub(crate) fn dealt_to(classes: &Classes, owner: Owner) -> CardsByClass
    ensures { result ≡ dealt_to classes.now owner }
{
    let mut dealt = [0; MOST_CLASSES];
    for class in 0..classes.count() {
        if classes.owner(class).is(owner) {
            dealt[class as usize] = classes.size(class);
        }
    }
    dealt
}

/// The counts with one card of a class less.
pub(crate) fn one_less(counts: &CardsByClass, class: u8) -> CardsByClass
    ensures { result ≡ slice_set counts.now class (slice_index counts.now class - 1) }
{
    let mut later = *counts;
    if (class as usize) < later.len() {
        later[class as usize] = later[class as usize].saturating_sub(1);
    }
    later
}

/// The counts with one card of a class more.
pub(crate) fn one_more(counts: &CardsByClass, class: u8) -> CardsByClass
    ensures { slice_index counts.now class < 255
        → result ≡ slice_set counts.now class (slice_index counts.now class + 1) }
{
    let mut later = *counts;
    if (class as usize) < later.len() {
        later[class as usize] = later[class as usize].saturating_add(1);
    }
    later
}

/// Adds the leads of a hand that has so many cards of each class left.
pub(crate) fn add_leads(
    leads: &mut ArrayVec<ClassMove, MOST_CLASSES>,
    seat: Seat,
    left: &CardsByClass,
)
    requires { length leads.old.items + length (counted_classes left.now) ≤ MOST_CLASSES }
    ensures { leads.new.items ≡ leads.old.items ++ map (Lead seat) (counted_classes left.now) }
{
    for class in 0..MOST_CLASSES as u8 {
        if left[class as usize] > 0 {
            leads.push(ClassMove::Lead { seat, class });
        }
    }
}

/// The follows of a hand that has so many cards of each class left: with none it shows out.
pub(crate) fn follows_of(left: &CardsByClass) -> ArrayVec<ClassMove, MOST_CLASSES>
    ensures { result.items ≡ or_show_out (map Follow (counted_classes left.now)) }
{
    let mut follows = ArrayVec::new();
    for class in 0..MOST_CLASSES as u8 {
        if left[class as usize] > 0 {
            follows.push(ClassMove::Follow { class });
        }
    }
    if follows.is_empty() {
        follows.push(ClassMove::ShowOut);
    }
    follows
}
