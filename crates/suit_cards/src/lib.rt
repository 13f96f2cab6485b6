//! Ranks, seats and holdings: the cards of one suit. Nothing here takes memory.
#![tactic(auto)]

mod holdings;
mod ranks;
mod seats;
mod sharing;

pub use holdings::{CardFault, Holding};
pub use ranks::Rank;
pub use seats::Seat;
