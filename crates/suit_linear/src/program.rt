//! Linear programs.
use super::{Numbers, ProgramRows};

/// A linear program in standard form. Its points give each column a number that is not negative,
/// and keep every row within its bound; wanted is a point where the objective, the sum of the
/// columns times their costs, is largest.
#[derive(Debug, Drop)]
pub struct Program {
    /// What one unit of each column adds to the objective.
    pub costs: Numbers,
    /// What limits the columns.
    pub rows: ProgramRows,
}

/// One inequality of a program.
#[derive(Debug, Drop)]
pub struct ProgramRow {
    /// What one unit of each column adds to the row.
    pub entries: Numbers,
    /// What the row comes to at most.
    pub bound: i128,
}
