//! Why there is no verdict.
ghost use Rattle.std.specs.Prelude.{◌≡◌};
ghost use Rattle.suit_check.specs.declared.ends.CheckEnd.TheVariants.{Memory};
ghost use Rattle.suit_check.specs.Ends.{same_end};

use std::alloc::AllocError;
use suit_tree::TreeEnd;
use thiserror::Error;

/// Why an answer got no verdict.
#[derive(Clone, Copy, Debug, PartialEq, Eq, Error)]
pub enum CheckEnd {
    /// The question has more pairs of a class history and a class layout than its budget.
    #[error("the question has more pairs of a class history and a class layout than {budget}")]
    Nodes {
        /// The budget.
        budget: u32,
    },
    /// Memory ran out.
    #[error("memory ran out")]
    Memory,
}

impl From<TreeEnd> for CheckEnd {
    ghost from_gives = { λ end told. told ≡ same_end end };

    fn from(end: TreeEnd) -> CheckEnd {
        match end {
            TreeEnd::Nodes { budget } => CheckEnd::Nodes { budget },
            TreeEnd::Memory => CheckEnd::Memory,
        }
    }
}

impl From<AllocError> for CheckEnd {
    ghost from_gives = { λ _ end. end ≡ Memory };

    fn from(_fault: AllocError) -> CheckEnd {
        CheckEnd::Memory
    }
}
