//! The question that a player asks, the game of single cards that it is about, and the laws of that game.
#![tactic(auto)]

mod entries;
pub mod examples;
mod gate;
pub mod laws;
mod limits;
mod moves;
mod place;
mod question;
mod sharing;
mod trick;
mod turn;
mod validity;
pub mod weight_laws;
mod weights;

pub use gate::{Gate, OpenGate};
pub use limits::{
    DEFAULT_NODES, DEFAULT_PIVOTS, HAND_SIZE, MOST_MISSING_AND_BLOCKS, MOST_MOVES, MOST_NODES,
    MOST_PIVOTS, MOST_SUPPORT, MOST_TOTAL,
};
pub use moves::Move;
pub use place::Place;
pub use question::{Entries, Goal, LeadAt, Question};
pub use turn::Turn;
pub use weights::{total, total_within, weight};
