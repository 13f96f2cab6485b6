//! What a turn makes of its moves.

/// The sum of all moves, or the best for the side that replies.
#[derive(Clone, Copy, Debug, PartialEq, Eq)]
pub(crate) enum TurnRule {
    Sum,
    Least,
    Most,
}
