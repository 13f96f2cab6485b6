//! Lines of play: a plan told to a player in sentences, one for each choice that declarer comes to.
#![tactic(auto)]

pub mod laws;
mod moves;
mod sentences;
mod telling;
mod value;

pub use telling::lines_text;
pub use value::{MOST_DECIMALS, MOST_HUNDREDTHS, MOST_VALUE};

/// Memory ran out.
pub type Memory = std::alloc::AllocError;
