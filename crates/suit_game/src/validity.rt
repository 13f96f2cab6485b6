//! Which questions make sense.
ghost use Rattle.std.specs.Prelude.{◌≡◌, ◌+◌, ◌<◌, ◌≤◌, ◌↔◌, not, length, IsTrue};
ghost use Rattle.std.specs.List.{list_any};
ghost use Rattle.suit_cards.specs.Holdings.{IsHolding, holds};
ghost use Rattle.suit_game.specs.declared.limits.TheConstants.{HAND_SIZE, MOST_NODES, MOST_PIVOTS};
ghost use Rattle.suit_game.specs.Validity.{AreEntries, IsGoal, IsValid};
ghost use Rattle.suit_game.specs.Weights.{HasPlaces};

use super::weights::total_within;
use super::{Entries, Goal, HAND_SIZE, MOST_NODES, MOST_PIVOTS, Question};

impl Entries {
    // Whether a count of entries is at most 13.
    fn are_few(self) -> bool
        ensures { IsTrue result ↔ AreEntries self }
    {
        match self {
            Entries::Count(left) => left <= HAND_SIZE,
            Entries::Free => true,
        }
    }
}

impl Goal {
    // Whether it asks for 13 tricks at most.
    fn is_low(self) -> bool
        ensures { IsTrue result ↔ IsGoal self }
    {
        match self {
            Goal::AtLeast(least) => least <= HAND_SIZE,
            Goal::Tricks => true,
        }
    }
}

impl Question {
    /// Whether the question makes sense. No card stands in both declarer hands, and some card in one. Each count of
    /// entries and the goal are at most `HAND_SIZE`. Each defender has at most `HAND_SIZE` vacant places, and the
    /// missing cards fit into them. The fewest cards that West may hold are not above the most, and those not above
    /// `HAND_SIZE`. There are 1 to `MOST_NODES` nodes, and at most `MOST_PIVOTS` pivots. Some layout has a weight.
    pub fn is_valid(&self) -> bool
        ensures { IsTrue result ↔ IsValid self.now }
    {
        self.has_hands()
            && self.entries_n.are_few()
            && self.entries_s.are_few()
            && self.goal.is_low()
            && self.has_range()
            && self.has_budgets()
            && self.has_places()
            && total_within(self) > 0
    }

    // Whether no card stands in both declarer hands, and some card in one.
    fn has_hands(&self) -> bool
        ensures value { IsTrue result
            ↔ (IsTrue (not (list_any (holds self.now.south) self.now.north))
            × (0 < length self.now.north + length self.now.south)) }
        ensures holdings { IsTrue result → IsHolding self.now.north × IsHolding self.now.south }
    {
        !self.north.shares(self.south) && self.north.len() + self.south.len() > 0
    }

    // Whether West's range has a length in it and ends by 13.
    fn has_range(&self) -> bool
        ensures { IsTrue result ↔ ((self.now.west_least ≤ self.now.west_most) × (self.now.west_most ≤ HAND_SIZE)) }
    {
        self.west_least <= self.west_most && self.west_most <= HAND_SIZE
    }

    // Whether the budgets are in their limits.
    fn has_budgets(&self) -> bool
        ensures { IsTrue result
            ↔ ((1 ≤ self.now.nodes) × (self.now.nodes ≤ MOST_NODES) × (self.now.pivots ≤ MOST_PIVOTS)) }
    {
        1 <= self.nodes && self.nodes <= MOST_NODES && self.pivots <= MOST_PIVOTS
    }

    // Whether each defender has at most 13 vacant places, and the missing cards fit into them.
    fn has_places(&self) -> bool
        ensures { IsTrue result ↔ HasPlaces self.now }
    {
        self.vacant_w <= HAND_SIZE
            && self.vacant_e <= HAND_SIZE
            && self.missing().len() <= self.vacant_w + self.vacant_e
    }
}
