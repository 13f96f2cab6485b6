//! Linear programs solved exactly: Bland's simplex over whole numbers of at most 127 bits and a
//! sign, with a budget of pivots, and the dual prices that prove an optimum.
#![tactic(auto)]

mod dense;
pub mod examples;
mod first;
pub mod laws;
mod reading;
mod row;
mod solving;
mod sparse;

pub use solving::{optimum, sparse_optimum};
pub use suit_linear::{
    Entries, Entry, Fracs, Numbers, Optimum, Program, ProgramRow, ProgramRows, SimplexEnd,
    SparseProgram, SparseRow, SparseRows,
};
