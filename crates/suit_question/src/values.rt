//! The values of single columns.
ghost use Rattle.std.specs.Prelude.{◌≡◌, ◌≤◌, IfOk};
ghost use Rattle.suit_cards.specs.Holdings.{IsHolding};
ghost use Rattle.suit_game.specs.Validity.{AreEntries, IsGoal};
ghost use Rattle.suit_question.specs.Values.{number_within, holding_named, lead_named, entries_named, goal_named};

use crate::faults::QuestionKind;
use suit_cards::{CardFault, Holding};
use suit_game::{Entries, Goal, HAND_SIZE, LeadAt};
use suit_text::loose::{is_word, number_in};

/// The most digits of a number, zeros in front with them.
pub const MOST_DIGITS: usize = 9;

/// The number that a word stands for, which is to be from the least to the most.
pub fn number_from(least: u32, most: u32, text: &[u8]) -> Result<u32, QuestionKind>
    ensures value { result ≡ number_within least most text.now }
    ensures least { IfOk result (λ number. least ≤ number) }
    ensures most { IfOk result (λ number. number ≤ most) }
{
    let number = number_in(MOST_DIGITS, text).ok_or(QuestionKind::Number)? as u32;
    if number < least || number > most {
        return Err(QuestionKind::Range);
    }
    Ok(number)
}

/// A number of cards, places, entries or tricks.
pub fn count_in(text: &[u8]) -> Result<u8, QuestionKind>
    ensures value { result ≡ number_within 0 HAND_SIZE text.now }
    ensures most { IfOk result (λ number. number ≤ HAND_SIZE) }
{
    let number = number_from(0, HAND_SIZE as u32, text)?;
    Ok(number as u8)
}

/// The holding that a word stands for.
pub fn holding_in(text: &[u8]) -> Result<Holding, QuestionKind>
    ensures value { result ≡ holding_named text.now }
    ensures holding { IfOk result IsHolding }
{
    match Holding::read(text) {
        Ok(holding) => Ok(holding),
        Err(CardFault::NotRank { at: _ }) => Err(QuestionKind::Rank),
        Err(CardFault::Twice { at: _ }) => Err(QuestionKind::Twice),
    }
}

/// Where a word says that the lead stands.
pub fn lead_in(text: &[u8]) -> Result<LeadAt, QuestionKind>
    ensures { result ≡ lead_named text.now }
{
    if is_word(b"n", text) {
        return Ok(LeadAt::N);
    }
    if is_word(b"s", text) {
        return Ok(LeadAt::S);
    }
    if is_word(b"either", text) {
        return Ok(LeadAt::Either);
    }
    Err(QuestionKind::Word)
}

/// The entries that a word stands for.
pub fn entries_in(text: &[u8]) -> Result<Entries, QuestionKind>
    ensures value { result ≡ entries_named text.now }
    ensures most { IfOk result AreEntries }
{
    if is_word(b"free", text) {
        return Ok(Entries::Free);
    }
    Ok(Entries::Count(count_in(text)?))
}

/// The goal that a word stands for.
pub fn goal_in(text: &[u8]) -> Result<Goal, QuestionKind>
    ensures value { result ≡ goal_named text.now }
    ensures most { IfOk result IsGoal }
{
    if is_word(b"tricks", text) {
        return Ok(Goal::Tricks);
    }
    Ok(Goal::AtLeast(count_in(text)?))
}
