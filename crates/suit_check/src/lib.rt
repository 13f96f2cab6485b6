//! The checker of answers: whether a plan and a defence show a value to be that of a question.
#![tactic(auto)]

mod checking;
mod ends;
pub mod laws;
mod sharing;
mod verdict;

pub use checking::check;
pub use ends::CheckEnd;
pub use verdict::Verdict;
