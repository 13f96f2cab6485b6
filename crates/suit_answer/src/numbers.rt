//! The numbers that are due in a line.
ghost use Rattle.std.specs.Prelude.{◌≤◌, IfOk};
ghost use Rattle.suit_num.specs.Narrow.{IsNarrow};
ghost use Rattle.suit_answer.specs.Numbers.{number_due, small_due};
ghost use Rattle.suit_answer.specs.Results.{Gives};

use crate::faults::{AnswerFault, ReadEnd};
use suit_text::strict::number_in;

/// The number that is due in a line.
#[tactic(auto, unfolding(crate::specs::Numbers::number_due))]
pub fn number_due(line: u32, text: &[u8]) -> Result<i128, ReadEnd>
    ensures value { Gives (λ number. number) result (number_due line text.now) }
    ensures narrow { IfOk result IsNarrow }
{
    match number_in(text) {
        Some(number) => Ok(number as i128),
        None => Err(ReadEnd::Fault(AnswerFault::Number { line })),
    }
}

/// The number that is due in a line and may not be above the most.
#[tactic(auto, unfolding(crate::specs::Numbers::small_due))]
pub fn small_due(most: u32, line: u32, text: &[u8]) -> Result<u32, ReadEnd>
    ensures value { Gives (λ number. number) result (small_due most line text.now) }
    ensures most { IfOk result (λ number. number ≤ most) }
{
    match number_in(text) {
        Some(number) if number <= most as u128 => Ok(number as u32),
        _ => Err(ReadEnd::Fault(AnswerFault::Number { line })),
    }
}
