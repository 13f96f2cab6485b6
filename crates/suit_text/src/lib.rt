//! Texts: their lines, words and numbers in two dialects, the loose one that questions are asked in and the strict one
//! that answers are written in.
#![tactic(auto)]

mod cut;
mod digits;
mod limits;
pub mod loose;
pub mod strict;

pub use cut::Cut;
pub use digits::digits_in;
pub use limits::MOST_TEXT;
