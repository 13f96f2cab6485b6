//! What can be wrong with a question text.
ghost use Rattle.std.specs.Prelude.{◌≡◌};
ghost use Rattle.suit_question.specs.Faults.{fault_number};

use thiserror::Error;

/// The kind of a mistake. They are numbered from 1 in this order.
#[derive(Clone, Copy, Debug, PartialEq, Eq, Error)]
pub enum QuestionKind {
    /// A line that has to be there is missing: `north`, `south`, `goal` or `end`.
    #[error("a line is missing")]
    NoLine,
    /// A line does not begin with a keyword, has too few or too many words, or a word that is none of those allowed.
    #[error("a word is wrong")]
    Word,
    /// A line of this keyword stood before.
    #[error("the keyword stood before")]
    Repeated,
    /// Something in a hand is not the name of a card.
    #[error("something in the hand is no card")]
    Rank,
    /// A hand has the same card twice.
    #[error("the hand has a card twice")]
    Twice,
    /// North and South hold the same card.
    #[error("both hands have the same card")]
    Shared,
    /// Neither North nor South holds a card.
    #[error("neither hand has a card")]
    Empty,
    /// A number was due, and the word is none.
    #[error("a number is due")]
    Number,
    /// A number is too small or too large for its line, or West's least length is larger than the most.
    #[error("a number is too small or too large")]
    Range,
    /// The missing cards do not fit into the vacant places.
    #[error("the missing cards are more than the vacant places")]
    Vacant,
    /// No layout of the missing cards is possible.
    #[error("the missing cards cannot lie in any way")]
    NoLayout,
    /// A line that says something stands after the end.
    #[error("something stands after the end")]
    Tail,
}

/// A mistake in a question text, and the line that it is told of.
#[derive(Clone, Copy, Debug, PartialEq, Eq, Error)]
#[error("line {line}: {kind}")]
pub struct QuestionFault {
    /// What is wrong.
    pub kind: QuestionKind,
    /// The line, counted from 1.
    pub line: u32,
}

impl QuestionKind {
    /// The number by which the kind is told, from 1 to 12.
    pub fn number(self) -> u8
        ensures { result ≡ fault_number self }
    {
        match self {
            QuestionKind::NoLine => 1,
            QuestionKind::Word => 2,
            QuestionKind::Repeated => 3,
            QuestionKind::Rank => 4,
            QuestionKind::Twice => 5,
            QuestionKind::Shared => 6,
            QuestionKind::Empty => 7,
            QuestionKind::Number => 8,
            QuestionKind::Range => 9,
            QuestionKind::Vacant => 10,
            QuestionKind::NoLayout => 11,
            QuestionKind::Tail => 12,
        }
    }

    /// The mistake, told of a line.
    pub(crate) fn at(self, line: u32) -> QuestionFault
        ensures { result ≡ record { kind = self; line = line } }
    {
        QuestionFault { kind: self, line }
    }
}
