//! The limits of a question, and the budgets that stand where none is given.

/// The cards of a hand: as many as the suit has, and as tricks are played. No number of cards, places, entries or
/// tricks that a question gives is above it.
pub const HAND_SIZE: u8 = 13;

/// The most moves of a legal history: thirteen tricks of four.
pub const MOST_MOVES: u8 = 52;

/// The most missing cards and blocks of them together, where a card of declarer's lies between any two blocks: the
/// cards of the suit, and one more block than there are cards of declarer's to part them.
pub const MOST_MISSING_AND_BLOCKS: u8 = 14;

/// The most deals that the layouts of a question can stand for: the ways to choose 13 of 26 vacant places.
pub const MOST_TOTAL: u64 = 10_400_600;

/// The most nodes that a question may allow.
pub const MOST_NODES: u32 = 4_000_000;

/// The most pivots that a question may allow.
pub const MOST_PIVOTS: u32 = 1_000_000;

/// How many nodes a question allows that does not say so.
pub const DEFAULT_NODES: u32 = 200_000;

/// How many pivots a question allows that does not say so.
pub const DEFAULT_PIVOTS: u32 = 100_000;

/// The most rows and columns that the program of a round's support may have.
pub const MOST_SUPPORT: u32 = 4_000;
