//! Why a tree was not grown.
ghost use Rattle.std.specs.Prelude.{◌≡◌};
ghost use Rattle.suit_tree.specs.declared.tree_end.TreeEnd.TheVariants.{Memory};

use std::alloc::{AllocError, AllocFailed};
use thiserror::Error;

/// Why there is no tree.
#[derive(Clone, Copy, Debug, PartialEq, Eq, Error)]
pub enum TreeEnd {
    /// The tree has more pairs of a class history and a class layout than the question's budget.
    #[error("the tree has more pairs of a class history and a class layout than {budget}")]
    Nodes {
        /// The budget.
        budget: u32,
    },
    /// There was no memory for it.
    #[error("there was no memory for the tree")]
    Memory,
}

impl From<AllocError> for TreeEnd {
    ghost from_gives = { λ _ end. end ≡ Memory };

    fn from(_fault: AllocError) -> TreeEnd {
        TreeEnd::Memory
    }
}

impl<T: Drop> From<AllocFailed<T>> for TreeEnd {
    ghost from_gives = { λ _ end. end ≡ Memory };

    fn from(_fault: AllocFailed<T>) -> TreeEnd {
        TreeEnd::Memory
    }
}
