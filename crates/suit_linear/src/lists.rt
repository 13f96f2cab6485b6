//! Lists that contracts see as lists.
use super::{Entry, ProgramRow, SparseRow};
use suit_lists::Listed;
use suit_num::Frac;

/// Whole numbers.
pub type Numbers = Listed<i128>;

/// Fractions in lowest terms.
pub type Fracs = Listed<Frac>;

/// The rows of a program.
pub type ProgramRows = Listed<ProgramRow>;

/// The entries of a row, in any order.
pub type Entries = Listed<Entry>;

/// The rows of a sparse program.
pub type SparseRows = Listed<SparseRow>;
