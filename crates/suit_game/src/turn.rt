//! Who is on turn.
use suit_cards::Seat;

/// Who is on turn at a position.
#[derive(Clone, Copy, Debug, PartialEq, Eq)]
pub enum Turn {
    /// Declarer leads, from either hand that may.
    Lead,
    /// A hand of declarer's follows.
    Declarer(Seat),
    /// A defender follows.
    Defence(Seat),
    /// Play is over: no trick is in progress, and no lead is legal.
    Over,
}
