//! How large a small number may be.

/// The greatest size of a small number: two factors of this size, and the difference of two such products, are within
/// 127 bits.
pub const MOST_SMALL: u64 = 1 << 62;
