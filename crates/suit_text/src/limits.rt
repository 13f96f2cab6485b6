//! The limit of what is read.

/// The most bytes of a text that is read.
pub const MOST_TEXT: usize = 16_777_216;
