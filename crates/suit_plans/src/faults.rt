//! What is wrong with a plan or a defence.
use thiserror::Error;

/// The kinds of faults, with their numbers. Of a row the class layout is looked at first, and then the
/// kinds in this order.
#[derive(Clone, Copy, Debug, PartialEq, Eq, Error)]
pub enum PlanKind {
    /// A denominator that is not from 1 to `MOST_DEN`.
    #[error("the denominator is not from 1 to 2^90")]
    Den = 1,
    /// A row at a class history that cannot have one: no class layout with a weight allows it (a row of a
    /// defence: its own does not), or play is decided there or earlier, or the other side is on turn.
    #[error("no row can stand at this class history")]
    History = 2,
    /// A row that should stand earlier, or that has the place of the row before it.
    #[error("the row does not stand after the row before it")]
    Order = 3,
    /// A move that cannot be made there, or that does not come after the move before it.
    #[error("a move cannot be made there, or does not stand after the move before it")]
    Illegal = 4,
    /// A negative count.
    #[error("a count is negative")]
    Negative = 5,
    /// Counts whose sum is not the mass that came to the class history.
    #[error("the counts do not add up to the mass that came to the class history")]
    Sum = 6,
    /// A row for counts of West's that no layout with a weight has.
    #[error("no layout with a weight has these counts of West's")]
    Layout = 7,
}

/// The first fault of a plan or a defence.
#[derive(Clone, Copy, Debug, PartialEq, Eq, Error)]
#[error("row {row}: {kind}")]
pub struct PlanFault {
    /// What is wrong.
    pub kind: PlanKind,
    /// The number of the row, counted from 1, and 0 where the fault is the denominator's.
    pub row: u32,
}
