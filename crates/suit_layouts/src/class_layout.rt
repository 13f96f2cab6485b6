//! One class layout.
ghost use Rattle.std.specs.Prelude.{◌≡◌, ◌≤◌, length};

use arrayvec::ArrayVec;
use std::marker::Model;

/// How many cards of each block of missing cards West holds, in the order of the blocks. Contracts
/// see it as the list of these counts.
#[derive(Clone, Debug, Drop, PartialEq, Eq, PartialOrd, Ord)]
pub struct ClassLayout {
    counts: ArrayVec<u8, 7>,
}

impl Model for ClassLayout {
    ghost use Rattle.suit_cards.specs.Cards as lists;

    ghost Value = { lists.ClassLayout };

    ghost view = { λ layout. layout.counts.items };

    ghost inverse = { λ counts. record { counts = record { items = counts } } };
}

impl ClassLayout {
    /// The class layout of these counts, whether or not a question has it.
    pub fn of(counts: ArrayVec<u8, 7>) -> ClassLayout
        ensures { result ≡ counts.items }
    {
        ClassLayout { counts }
    }

    /// West's counts, of which there are at most seven.
    pub fn counts(&self) -> &[u8]
        ensures value { result.now ≡ self.now }
        ensures few { length result.now ≤ 7 }
    {
        self.counts.as_slice()
    }
}
