//! The letters of classes, and the words of moves.
ghost use Rattle.std.specs.Prelude.{◌≡◌, ◌<◌, ◌≤◌, ◌==◌, IfSome, length, position, slice_index};
ghost use Rattle.suit_classes.specs.Classes.{hands_of, class_count};
ghost use Rattle.suit_answer.specs.Letters.{class_letters, class_named, hand_named, follow_named, move_read, move_due};
ghost use Rattle.suit_answer.specs.Results.{Gives};

use crate::faults::{AnswerFault, ReadEnd};
use arrayvec::ArrayVec;
use std::marker::Model;
use suit_cards::Seat;
use suit_classes::{ClassMove, Classes, MOST_CLASSES};
use suit_game::Question;

/// The letters of a question's classes: that of each class's highest rank. Contracts see them as a text, in which the
/// letter of each class stands at the class's number.
#[derive(Clone, Debug, Drop)]
pub struct ClassLetters {
    letters: ArrayVec<u8, MOST_CLASSES>,
}

impl Model for ClassLetters {
    ghost use Rattle.suit_cards.specs.Cards.{Text};

    ghost Value = { Text };

    ghost view = { λ letters. letters.letters.items };

    ghost inverse = { λ text. record { letters = record { items = text } } };
}

impl ClassLetters {
    /// The letters of the classes of a question.
    #[tactic(auto, unfolding(crate::specs::Letters::class_letters))]
    pub fn of(question: &Question) -> ClassLetters
        ensures value { result ≡ class_letters (hands_of question.now) }
        ensures each { length result ≡ class_count (hands_of question.now) }
    {
        let classes = Classes::of(question);
        let mut letters = ArrayVec::new();
        for class in 0..classes.count() {
            letters.push(classes.top(class).letter());
        }
        ClassLetters { letters }
    }

    /// The letter of a class.
    pub fn letter(&self, class: u8) -> u8
        requires { class < length self.now }
        ensures { result ≡ slice_index self.now class }
    {
        self.letters.as_slice()[class as usize]
    }

    /// The class of a letter.
    pub fn class_of(&self, letter: u8) -> Option<u8>
        ensures { result ≡ class_named self.now letter }
    {
        let class = index_of(letter, self.letters.as_slice())?;
        Some(class as u8)
    }

    /// The move that a word stands for.
    fn move_in(&self, word: &[u8]) -> Option<ClassMove>
        ensures { result ≡ move_read self.now word.now }
    {
        match word {
            [byte] => self.follow_in(*byte),
            [hand, byte] => {
                let seat = hand_of(*hand)?;
                let class = self.class_of(*byte)?;
                Some(ClassMove::Lead { seat, class })
            }
            _ => None,
        }
    }

    /// The move of a word of one byte.
    fn follow_in(&self, byte: u8) -> Option<ClassMove>
        ensures { result ≡ follow_named self.now byte }
    {
        if byte == b'-' {
            return Some(ClassMove::ShowOut);
        }
        let class = self.class_of(byte)?;
        Some(ClassMove::Follow { class })
    }

    /// The move that is due in a line.
    #[tactic(auto, unfolding(crate::specs::Letters::move_due))]
    pub(crate) fn move_due(&self, line: u32, word: &[u8]) -> Result<ClassMove, ReadEnd>
        ensures { Gives (λ mv. mv) result (move_due self.now line word.now) }
    {
        match self.move_in(word) {
            Some(mv) => Ok(mv),
            None => Err(ReadEnd::Fault(AnswerFault::Move { line })),
        }
    }
}

/// The index of a letter, of which there are at most thirteen.
fn index_of(wanted: u8, letters: &[u8]) -> Option<usize>
    ensures value { result ≡ position (λ letter. letter == wanted) letters.now }
    ensures within { IfSome result (λ index. index < length letters.now) }
{
    letters.iter().position(|letter| *letter == wanted)
}

/// The hand of declarer's that a byte names.
fn hand_of(byte: u8) -> Option<Seat>
    ensures { result ≡ hand_named byte }
{
    match byte {
        b'N' => Some(Seat::N),
        b'S' => Some(Seat::S),
        _ => None,
    }
}
