//! Linear programs, the tableaus of their runs, and what a run ends with: the definitions that the
//! simplex is held to, and their laws. Nothing here is solved.
#![tactic(auto)]

mod ends;
pub mod laws;
mod limits;
mod lists;
mod program;
mod sparse;

pub use ends::{Optimum, SimplexEnd};
pub use limits::MOST_SMALL;
pub use lists::{Entries, Fracs, Numbers, ProgramRows, SparseRows};
pub use program::{Program, ProgramRow};
pub use sparse::{Entry, SparseProgram, SparseRow, numbers_of};
