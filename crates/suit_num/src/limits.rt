//! The width of the numbers of a run.

/// In how many bits a number of a run is kept: one of them is its sign.
pub const MOST_BITS: u32 = 128;
