//! Supports: the moves that play may make, and what they name along class histories.
pub(crate) mod mark;
pub(crate) mod node_moves;
pub(crate) mod support;
