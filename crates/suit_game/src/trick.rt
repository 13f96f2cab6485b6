//! The trick in progress.
use suit_cards::{Rank, Seat};

/// A trick to which some seats have played.
#[derive(Clone, Copy, Debug, PartialEq, Eq)]
pub(crate) struct OpenTrick {
    /// The seat on turn.
    pub turn: Seat,
    /// How many seats play after it.
    pub after: u8,
    /// Who has played the highest card.
    pub winner: Seat,
    /// That card.
    pub highest: Rank,
}
