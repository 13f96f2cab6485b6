//! The answer text: a value with the plan and the defence that show it, written and read again to the byte.
#![tactic(auto)]

mod alone;
mod answer;
mod faults;
mod forms;
pub mod laws;
mod letters;
mod lines;
mod numbers;
mod parts;
mod reading;
mod rows;
mod sharing;
mod values;
mod worth;
mod writing;

pub use alone::{defence_text, plan_text, read_defence, read_plan};
pub use answer::Answer;
pub use faults::AnswerFault;
pub use letters::ClassLetters;
pub use reading::read_answer;
pub use worth::value_over;
pub use writing::{answer_text, write_defence, write_move, write_number, write_plan};

/// Memory ran out.
pub type Memory = std::alloc::AllocError;
