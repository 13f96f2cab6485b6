//! Lists: a wrapper that contracts see as a list, and in proofs/ the lemmas on lists over any element type, by subject.
#![tactic(auto)]

mod listed;

pub use listed::Listed;
