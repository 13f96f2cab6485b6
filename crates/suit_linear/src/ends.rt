//! How a run of the simplex ends.
use super::{Fracs, Numbers};
use std::alloc::AllocError;
use thiserror::Error;

/// A point with the largest objective, and the prices of the rows that prove it.
#[derive(Debug, Drop)]
pub struct Optimum {
    /// The value of each column.
    pub point: Fracs,
    /// The prices of the rows in order, each to be divided by `scale`.
    pub duals: Numbers,
    /// What the prices and the objective are divided by. It is positive.
    pub scale: i128,
    /// The objective is `value / scale`.
    pub value: i128,
}

/// Why a run ended without an optimum.
#[derive(Clone, Copy, PartialEq, Eq, Debug, Error)]
pub enum SimplexEnd {
    /// The budget of pivots is used up, and another one would follow.
    #[error("the budget of pivots is used up")]
    Pivots,
    /// The pivot of this number, counted from 1, makes a number past 127 bits and a sign.
    #[error("pivot {pivot} makes a number that is too wide")]
    Wide {
        /// The pivot.
        pivot: u32,
    },
    /// There was no memory for the tableau or for the answer.
    #[error("out of memory")]
    Memory,
}

impl From<AllocError> for SimplexEnd {
    ghost use Rattle.std.specs.Prelude.{◌≡◌};
    ghost use Rattle.suit_linear.specs.declared.ends.SimplexEnd.TheVariants as ends;

    ghost from_gives = { λ _ e. e ≡ ends.Memory };

    fn from(_: AllocError) -> SimplexEnd {
        SimplexEnd::Memory
    }
}
