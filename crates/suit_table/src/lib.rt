//! Tables of questions: each record is judged by itself, on several threads, and told in a line of its own.
#![tactic(auto)]

mod fields;
mod judging;
mod lines;
mod outcomes;
mod records;
mod summaries;
mod tables;

pub use judging::{BATCH, Entry, Finding, Judge, Told, judge_all};
pub use lines::{detail_of, word_of};
pub use outcomes::Outcome;
pub use records::{FIELDS, MOST_TABLE};
pub use summaries::{MOST_QUESTIONS, summary};
pub use tables::{TableEnd, table};

/// Memory ran out.
pub type Memory = std::alloc::AllocError;
