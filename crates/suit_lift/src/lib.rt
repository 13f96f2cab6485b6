//! From classes to single cards: how a plan and a defence over classes play cards, and the laws of that play.
#![tactic(auto)]

mod card_share;
mod class_shares;
pub mod examples;
pub mod laws;
mod lifts;
mod merges;

pub use card_share::CardShare;
pub use lifts::{card_weights, defence_weights};
