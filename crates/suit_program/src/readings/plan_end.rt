//! Why nothing was read from an optimum.
ghost use Rattle.std.specs.Prelude.{◌≡◌};
ghost use Rattle.suit_program.specs.declared.readings.plan_end.PlanEnd.TheVariants.{Memory};

use std::alloc::{AllocError, AllocFailed};
use thiserror::Error;

/// Why there is no plan and no defence.
#[derive(Clone, Copy, Debug, PartialEq, Eq, Error)]
pub enum PlanEnd {
    /// The denominator of the plan or of the defence is above `MOST_DEN`.
    #[error("the denominator of the plan or of the defence is too wide")]
    Wide,
    /// There was no memory for them.
    #[error("there was no memory for the plan and the defence")]
    Memory,
}

impl From<AllocError> for PlanEnd {
    ghost from_gives = { λ _ end. end ≡ Memory };

    fn from(_fault: AllocError) -> PlanEnd {
        PlanEnd::Memory
    }
}

impl<T: Drop> From<AllocFailed<T>> for PlanEnd {
    ghost from_gives = { λ _ end. end ≡ Memory };

    fn from(_fault: AllocFailed<T>) -> PlanEnd {
        PlanEnd::Memory
    }
}
