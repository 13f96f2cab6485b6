//! What can be wrong with an answer text.
ghost use Rattle.std.specs.Prelude.{◌≡◌};
ghost use Rattle.suit_answer.specs.declared.faults.ReadEnd.TheVariants as ends;

use std::alloc::{AllocError, AllocFailed};
use thiserror::Error;

/// The first mistake in an answer text, told of its line, counted from 1. The first seven are numbered from 1 in this
/// order.
#[derive(Clone, Copy, Debug, PartialEq, Eq, Error)]
pub enum AnswerFault {
    /// The first line is not `answer 1`.
    #[error("line {line}: this is no answer of version 1")]
    Version { line: u32 },
    /// A line does not have the form that is due in its place.
    #[error("line {line}: another line is due")]
    Line { line: u32 },
    /// A word is no number, or a number is too large, or the value is not in lowest terms.
    #[error("line {line}: a number is wrong")]
    Number { line: u32 },
    /// A word is no move.
    #[error("line {line}: a move is wrong")]
    Move { line: u32 },
    /// The counts of West's are more or fewer than the defenders' classes.
    #[error("line {line}: there are too many or too few counts")]
    Count { line: u32 },
    /// The text ends before the line that is due has ended.
    #[error("line {line}: the text ends too early")]
    Truncated { line: u32 },
    /// Something stands after the end.
    #[error("line {line}: something stands after the end")]
    Tail { line: u32 },
    /// Memory ran out.
    #[error("memory ran out")]
    Memory,
}

/// Why reading stopped.
#[derive(Debug, Drop)]
pub enum ReadEnd {
    /// Memory ran out.
    Memory,
    /// The text is at fault.
    Fault(AnswerFault),
}

impl From<AllocError> for ReadEnd {
    ghost from_gives = { λ _ stop. stop ≡ ends.Memory };

    fn from(_: AllocError) -> ReadEnd {
        ReadEnd::Memory
    }
}

impl<T: Drop> From<AllocFailed<T>> for ReadEnd {
    ghost from_gives = { λ _ stop. stop ≡ ends.Memory };

    fn from(_: AllocFailed<T>) -> ReadEnd {
        ReadEnd::Memory
    }
}
