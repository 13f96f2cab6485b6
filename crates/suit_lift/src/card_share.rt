//! What a lift gives to a card.
use suit_game::Move;

/// What a lift gives to a legal move: it stands for the weight `count / among`.
#[derive(Clone, Copy, Debug, Default, PartialEq, Eq)]
pub struct CardShare {
    /// The move.
    pub mv: Move,
    /// The count of its class move.
    pub count: i128,
    /// Among how many cards of one class that count is divided.
    pub among: u8,
}
