//! The line that tells a record.
ghost use Rattle.std.specs.Prelude.{◌≡◌, ◌∷◌, ◌++◌, [], IfOk, codes, string_bytes};
ghost use Rattle.std.specs.Fmt.{signed_decimal};
ghost use Rattle.csv.specs.Writing.{default_writer, row_text};
ghost use Rattle.suit_table.specs.Judging.{told_line};
ghost use Rattle.suit_table.specs.Outcomes.{detail_of, line, outcome_line, word_of};

use crate::Memory;
use crate::judging::{Finding, Told};
use crate::outcomes::Outcome;
use csv::{Error, WriterBuilder};
use std::alloc::{AllocError, Global};
use suit_game::{MOST_SUPPORT, Question};
use suit_num::MOST_BITS;

/// The line of a record.
pub(crate) fn told_line(alloc: Global, told: &Told) -> Result<Vec<u8>, Memory>
    ensures { IfOk result (λ text. text.items ≡ told_line told.now) }
{
    match &told.finding {
        Finding::Judged(question, outcome) => outcome_line(alloc, told.number, question, *outcome),
        Finding::Faulty(kind) => {
            let number = format!(in alloc; "{}", kind.number())?;
            line(alloc, told.number, "malformed", &number)
        }
    }
}

/// The line of a record whose question has this outcome.
fn outcome_line(
    alloc: Global,
    number: u32,
    question: &Question,
    outcome: Outcome,
) -> Result<Vec<u8>, Memory>
    ensures { IfOk result (λ text. text.items ≡ outcome_line number question.now outcome) }
{
    let detail = detail_of(alloc, question, outcome)?;
    line(alloc, number, word_of(outcome), &detail)
}

/// The word of an outcome, as the line of a record tells it.
pub fn word_of(outcome: Outcome) -> &'static str
    ensures { result.now ≡ word_of outcome }
{
    match outcome {
        Outcome::Value(_) => "value",
        Outcome::Nodes => "nodes",
        Outcome::Support => "support",
        Outcome::Pivots => "pivots",
        Outcome::Wide => "wide",
        Outcome::Memory => "memory",
    }
}

/// The detail of an outcome, as the line of a record tells it: the value, the budget of the question that was passed,
/// the limit of solving that was, or 0 for want of memory.
///
/// # Errors
///
/// Want of memory.
pub fn detail_of(alloc: Global, question: &Question, outcome: Outcome) -> Result<String, Memory>
    ensures { IfOk result (λ text. string_bytes text ≡ detail_of question.now outcome) }
{
    match outcome {
        Outcome::Value(value) => fraction(alloc, value.num, value.den),
        Outcome::Nodes => format!(in alloc; "{}", question.nodes),
        Outcome::Support => format!(in alloc; "{}", MOST_SUPPORT),
        Outcome::Pivots => format!(in alloc; "{}", question.pivots),
        Outcome::Wide => format!(in alloc; "{}", MOST_BITS),
        Outcome::Memory => format!(in alloc; "{}", 0),
    }
}

/// A fraction as a text.
fn fraction(alloc: Global, num: i128, den: i128) -> Result<String, Memory>
    ensures { IfOk result (λ text. string_bytes text ≡ signed_decimal num ++ codes "/" ++ signed_decimal den) }
{
    format!(in alloc; "{num}/{den}")
}

/// A line of three fields, as `csv` writes it. A writer over memory fails for want of memory alone.
fn line(alloc: Global, number: u32, word: &str, detail: &str) -> Result<Vec<u8>, Memory>
    ensures { IfOk result (λ text. text.items ≡ line number word.now detail.now) }
{
    let number = format!(in alloc; "{number}")?;
    match row(alloc, number.as_bytes(), word.as_bytes(), detail.as_bytes()) {
        Ok(text) => Ok(text),
        Err(_) => Err(AllocError),
    }
}

/// Three fields as a row.
fn row(alloc: Global, number: &[u8], word: &[u8], detail: &[u8]) -> Result<Vec<u8>, Error>
    ensures { IfOk result (λ text. text.items
        ≡ row_text default_writer (number.now ∷ word.now ∷ detail.now ∷ [])) }
{
    let mut writer = WriterBuilder::new().from_writer(Vec::new(alloc));
    writer.write_fields(&[number, word, detail])?;
    match writer.into_inner() {
        Ok(text) => Ok(text),
        Err(failed) => Err(failed.into_error()),
    }
}
