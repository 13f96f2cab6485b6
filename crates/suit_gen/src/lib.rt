//! Made tables: records of questions that a plain generator draws, always the same for the same number.
#![tactic(auto)]

mod deals;
mod draws;
mod tables;

pub use tables::{make, questions};

/// Memory ran out.
pub type Memory = std::alloc::AllocError;
