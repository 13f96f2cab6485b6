//! The value of an answer text.
ghost use Rattle.std.specs.Prelude.{◌≡◌};
ghost use Rattle.suit_num.specs.Narrow.{IsNarrow};
ghost use Rattle.suit_text.specs.Strict.{words_of};
ghost use Rattle.suit_answer.specs.Fractions.{fraction_of};
ghost use Rattle.suit_answer.specs.Reading.{value_due};
ghost use Rattle.suit_answer.specs.Results.{Gives};

use crate::faults::{AnswerFault, ReadEnd};
use crate::forms::value_form;
use crate::numbers::number_due;
use suit_num::{Frac, gcd};

/// The value that a line tells.
#[tactic(auto, unfolding(crate::specs::Reading::value_due))]
pub fn value_due(line: u32, text: &[u8]) -> Result<Frac, ReadEnd>
    ensures { Gives (λ value. value) result (value_due line (words_of text.now)) }
{
    let Some((num, den)) = value_form(text) else {
        return Err(ReadEnd::Fault(AnswerFault::Line { line }));
    };
    let num = number_due(line, num)?;
    let den = number_due(line, den)?;
    match fraction_of(num, den) {
        Some(value) => Ok(value),
        None => Err(ReadEnd::Fault(AnswerFault::Number { line })),
    }
}

/// The fraction of two numbers that are its lowest terms.
fn fraction_of(num: i128, den: i128) -> Option<Frac>
    requires narrow_num { IsNarrow num }
    requires narrow_den { IsNarrow den }
    ensures { result ≡ fraction_of num den }
{
    if den <= 0 || gcd(num, den) != 1 {
        return None;
    }
    Some(Frac { num, den })
}
