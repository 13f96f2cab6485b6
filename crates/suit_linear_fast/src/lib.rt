//! The run of the simplex without a tableau. What a pivot reads of a tableau is guessed from the
//! pivots so far, by cheap arithmetic that may wrap, and then tested against the rows of the
//! program: what passes is what the tableau has. Where a guess fails or numbers grow, there is no
//! answer.
#![tactic(auto)]

mod cells;
mod claims;
mod lines;
mod objective;
mod past_pivots;
mod pivot;
mod primitive;
mod reading;
mod running;
mod sparse;

pub use primitive::make_primitive;
pub use running::fast;
