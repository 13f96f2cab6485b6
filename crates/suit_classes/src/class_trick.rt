//! The trick in progress, in the class game.
use super::Owner;
use suit_cards::Seat;

/// The trick in progress, if there is one.
#[derive(Clone, Copy, Debug, PartialEq, Eq)]
pub enum ClassTrick {
    /// No trick is in progress.
    Closed,
    /// Some seats have played to the trick.
    Open {
        /// The seat on turn.
        turn: Seat,
        /// How many seats play after it.
        after: u8,
        /// Whose card is the highest.
        winner: Owner,
        /// The class of that card.
        highest: u8,
    },
}
