//! The whole program as one call over its words and its ports.
#![tactic(auto)]

mod commands;
pub mod examples;
mod judge;
pub mod laws;
mod refusal;
mod reply;
mod status;
mod top;

pub use judge::SolvingJudge;
pub use status::Status;
pub use top::run;
