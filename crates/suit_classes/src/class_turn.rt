//! Who is on turn in the class game.
use suit_cards::Seat;

/// Who is on turn at a position of the class game.
#[derive(Clone, Copy, Debug, PartialEq, Eq)]
pub enum ClassTurn {
    /// Declarer leads, from either hand that may.
    Lead,
    /// A hand of declarer's follows.
    Declarer(Seat),
    /// A defender follows.
    Defence(Seat),
    /// No trick is in progress, and no lead is legal or the goal is settled.
    Decided,
}
