//! The moves of single cards.
use suit_cards::{Rank, Seat};

/// What a seat does when it is on turn.
#[derive(Clone, Copy, Debug, PartialEq, Eq)]
pub enum Move {
    /// Declarer leads a card from North's or South's hand.
    Lead {
        /// The hand that the card is led from.
        seat: Seat,
        /// The card led.
        rank: Rank,
    },
    /// The hand on turn follows with a card.
    Follow {
        /// The card played.
        rank: Rank,
    },
    /// The hand on turn has no card of the suit.
    ShowOut,
}

impl Default for Move {
    /// Showing out, for lists of fixed length that want some value.
    fn default() -> Move {
        Move::ShowOut
    }
}
