//! How a row shares out its mass.
ghost use Rattle.std.specs.Prelude.{◌≡◌, Option, option_map};
ghost use Rattle.suit_plans.specs.Masses.{count_of, share};

use std::marker::Model;
use suit_classes::ClassMove;

/// The shares of a row: moves, each with a count of how much of the mass it gets. Contracts see them as
/// the list of these pairs.
#[derive(Debug, Drop)]
pub struct Counts {
    items: Vec<(ClassMove, i128)>,
}

impl Model for Counts {
    ghost use Rattle.std.specs.Prelude.{List, ℤ};
    ghost use Rattle.suit_classes.specs.declared.class_moves.ClassMove.{ClassMove};

    ghost Value = { List (ClassMove × ℤ) };

    ghost view = { λ counts. counts.items.items };
}

impl Counts {
    /// The counts of these moves.
    pub fn of(items: Vec<(ClassMove, i128)>) -> Counts
        ensures { result ≡ items.items }
    {
        Counts { items }
    }

    /// The moves with their counts, in order.
    pub fn items(&self) -> &[(ClassMove, i128)]
        ensures { result.now ≡ self.now }
    {
        &self.items
    }

    /// The count of a move, and 0 where the move is not named.
    pub fn count_of(&self, mv: ClassMove) -> i128
        ensures { result ≡ count_of self.now mv }
    {
        for count in &self.items {
            if count.0.is_same(mv) {
                return count.1;
            }
        }
        0
    }
}

/// What a move gets of the mass at a turn of its side: its count where there is a row, and without a
/// row all of the mass or none, by whether it is the first move there.
pub fn share(shares: Option<&Counts>, first: bool, mass: i128, mv: ClassMove) -> i128
    ensures { result ≡ share (option_map (λ shares. shares.now) shares.entry) first mass mv }
{
    match shares {
        Some(shares) => shares.count_of(mv),
        None => if first { mass } else { 0 },
    }
}
