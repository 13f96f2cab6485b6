//! Why a question has no answer.
ghost use Rattle.std.specs.Prelude.{◌≡◌};
ghost use Rattle.suit_solve.specs.declared.ends.SolveEnd.TheVariants.{Memory};
ghost use Rattle.suit_solve.specs.Ends.{same_end};

use std::alloc::AllocError;
use suit_tree::TreeEnd;
use thiserror::Error;

/// Why a question has no answer.
#[derive(Clone, Copy, Debug, PartialEq, Eq, Error)]
pub enum SolveEnd {
    /// The question has more pairs of a class history and a class layout than its budget.
    #[error("the question has more pairs of a class history and a class layout than {budget}")]
    Nodes {
        /// The budget.
        budget: u32,
    },
    /// The program of the support is too large.
    #[error("the program of round {round} is too large")]
    Support {
        /// The round, counted from 0.
        round: u32,
    },
    /// The run of the simplex needs more pivots than the question's budget.
    #[error("the run of round {round} needs more pivots")]
    Pivots {
        /// The round, counted from 0.
        round: u32,
    },
    /// A number is too wide: of the run of the simplex, or a denominator that is read from its optimum.
    #[error("a number of round {round} is too wide")]
    Wide {
        /// The round, counted from 0.
        round: u32,
    },
    /// Memory ran out.
    #[error("memory ran out")]
    Memory,
}

impl From<TreeEnd> for SolveEnd {
    ghost from_gives = { λ end told. told ≡ same_end end };

    fn from(end: TreeEnd) -> SolveEnd {
        match end {
            TreeEnd::Nodes { budget } => SolveEnd::Nodes { budget },
            TreeEnd::Memory => SolveEnd::Memory,
        }
    }
}

impl From<AllocError> for SolveEnd {
    ghost from_gives = { λ _ end. end ≡ Memory };

    fn from(_fault: AllocError) -> SolveEnd {
        SolveEnd::Memory
    }
}
