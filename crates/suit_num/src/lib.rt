//! Exact whole numbers of at most 127 bits and a sign: fractions in lowest terms, products and
//! differences that say where they do not fit, divisors, and binomials. Nothing here takes memory.
#![tactic(auto)]

mod binomials;
mod divisors;
mod fraction;
mod halving;
pub mod laws;
mod limits;
mod narrow;
mod sharing;

pub use binomials::choose;
pub use divisors::{gcd, lcm};
pub use fraction::Frac;
pub use limits::MOST_BITS;
pub use narrow::{mul, sub};
