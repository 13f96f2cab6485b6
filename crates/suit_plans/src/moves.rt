//! Moves at class histories, of which best replies are lists.
use suit_classes::{ClassMove, History};
use suit_lists::Listed;

/// A move of declarer's at a class history.
#[derive(Debug, Drop)]
pub struct DeclarerMove {
    /// The class history.
    pub history: History,
    /// The move.
    pub mv: ClassMove,
}

/// A move of the defence's in a class layout, at a class history.
#[derive(Debug, Drop)]
pub struct DefenceMove {
    /// The index of the class layout among those of positive weight, in their order.
    pub layout: u8,
    /// The class history.
    pub history: History,
    /// The move.
    pub mv: ClassMove,
}

/// Moves of declarer's. Contracts see them as a list.
pub type DeclarerMoves = Listed<DeclarerMove>;

/// Moves of the defence's. Contracts see them as a list.
pub type DefenceMoves = Listed<DefenceMove>;
