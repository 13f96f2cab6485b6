//! Questions solved: supports that grow round by round, until a plan and a defence meet at one value.
#![tactic(auto)]

mod ends;
pub mod laws;
mod limits;
mod round;
mod solving;

pub use ends::SolveEnd;
pub use limits::most_size;
pub use solving::{Solving, solve};
