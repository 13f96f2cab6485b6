//! The question text: what a player writes to ask about a suit, read with the exact fault of each mistake, and printed.
#![tactic(auto)]

mod column;
mod columns;
mod draft;
pub mod examples;
mod faults;
mod keywords;
mod line;
mod reading;
mod values;
mod writing;

pub use column::COLUMNS;
pub use draft::Draft;
pub use faults::{QuestionFault, QuestionKind};
pub use reading::{question_end, read_question};
pub use writing::question_text;

/// Memory ran out.
pub type Memory = std::alloc::AllocError;
