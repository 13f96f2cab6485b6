//! The rows of plans and of defences, read from their lines.
ghost use Rattle.std.specs.Prelude.{◌≡◌, ◌≤◌, length};
ghost use Rattle.suit_classes.specs.declared.classes.TheConstants.{MOST_DEFENCE_CLASSES};
ghost use Rattle.suit_text.specs.Strict.{words_of, words_after};
ghost use Rattle.suit_answer.specs.Results.{Gives};
ghost use Rattle.suit_answer.specs.Rows.{history_due, shares_due, counts_due};
ghost use Rattle.suit_answer.specs.Rows.{plan_turn_due, defence_turn_due, plan_row_due, defence_row_due};

use crate::faults::{AnswerFault, ReadEnd};
use crate::forms::{is_layout_turn, is_turn, is_word};
use crate::letters::ClassLetters;
use crate::numbers::{number_due, small_due};
use arrayvec::ArrayVec;
use std::alloc::Global;
use suit_classes::{ClassMove, History, MOST_DEFENCE_CLASSES};
use suit_game::HAND_SIZE;
use suit_layouts::ClassLayout;
use suit_plans::{Counts, DefenceRow, Row};
use suit_text::strict::{first_word, next_word};

/// A row of a plan, from its line.
#[tactic(auto, unfolding(crate::specs::Rows::plan_row_due))]
pub fn plan_row_due(
    alloc: Global,
    letters: &ClassLetters,
    line: u32,
    text: &[u8],
) -> Result<Row, ReadEnd>
    ensures { Gives (λ row. row) result (plan_row_due letters.now line (words_of text.now)) }
{
    let keyword = first_word(text);
    if !is_word(keyword.front, b"at") || !is_turn(keyword.rest) {
        return Err(ReadEnd::Fault(AnswerFault::Line { line }));
    }
    plan_turn_due(alloc, letters, line, keyword.rest)
}

/// A row of a plan, from what follows its keyword.
#[tactic(auto, unfolding(crate::specs::Rows::plan_turn_due))]
fn plan_turn_due(
    alloc: Global,
    letters: &ClassLetters,
    line: u32,
    text: &[u8],
) -> Result<Row, ReadEnd>
    ensures { Gives (λ row. row) result (plan_turn_due letters.now line (words_after text.now)) }
{
    let (history, rest) = history_due(alloc, letters, line, text)?;
    let shares = shares_due(alloc, letters, line, rest)?;
    Ok(Row {
        history: History::of(history),
        counts: Counts::of(shares),
    })
}

/// A row of a defence, from its line.
#[tactic(auto, unfolding(crate::specs::Rows::defence_row_due))]
pub fn defence_row_due(
    alloc: Global,
    letters: &ClassLetters,
    classes: usize,
    line: u32,
    text: &[u8],
) -> Result<DefenceRow, ReadEnd>
    requires { classes ≤ MOST_DEFENCE_CLASSES }
    ensures { Gives (λ row. row) result (defence_row_due letters.now classes line (words_of text.now)) }
{
    let keyword = first_word(text);
    if !is_word(keyword.front, b"west") || !is_layout_turn(keyword.rest) {
        return Err(ReadEnd::Fault(AnswerFault::Line { line }));
    }
    defence_turn_due(alloc, letters, classes, line, keyword.rest)
}

/// A row of a defence, from what follows its keyword.
#[tactic(auto, unfolding(crate::specs::Rows::defence_turn_due))]
fn defence_turn_due(
    alloc: Global,
    letters: &ClassLetters,
    classes: usize,
    line: u32,
    text: &[u8],
) -> Result<DefenceRow, ReadEnd>
    requires { classes ≤ MOST_DEFENCE_CLASSES }
    ensures { Gives (λ row. row) result (defence_turn_due letters.now classes line (words_after text.now)) }
{
    let (counts, rest) = counts_due(alloc, line, text)?;
    let (history, rest) = history_due(alloc, letters, line, rest)?;
    let shares = shares_due(alloc, letters, line, rest)?;
    if counts.len() != classes {
        return Err(ReadEnd::Fault(AnswerFault::Count { line }));
    }
    Ok(DefenceRow {
        west: layout_of(counts.as_slice()),
        history: History::of(history),
        counts: Counts::of(shares),
    })
}

/// The class layout of counts, of which there are few enough.
fn layout_of(counts: &[u8]) -> ClassLayout
    requires { length counts.now ≤ MOST_DEFENCE_CLASSES }
    ensures { result ≡ counts.now }
{
    let mut layout = ArrayVec::new();
    for count in counts {
        layout.push(*count);
    }
    ClassLayout::of(layout)
}

/// The counts up to a word `at`, and what follows it.
#[tactic(auto, unfolding(crate::specs::Rows::counts_due))]
fn counts_due(alloc: Global, line: u32, text: &[u8]) -> Result<(Vec<u8>, &[u8]), ReadEnd>
    ensures { Gives (λ x. (x.0.items, words_after x.1.now)) result (counts_due line (words_after text.now)) }
{
    let mut counts = Vec::new(alloc);
    let mut rest = text;
    while let Some(word) = next_word(rest) {
        rest = word.rest;
        if is_word(word.front, b"at") {
            return Ok((counts, rest));
        }
        let count = small_due(HAND_SIZE as u32, line, word.front)?;
        counts.push(count as u8)?;
    }
    Err(ReadEnd::Fault(AnswerFault::Line { line }))
}

/// The moves up to a colon, and what follows it.
#[tactic(auto, unfolding(crate::specs::Rows::history_due))]
fn history_due<'a>(
    alloc: Global,
    letters: &ClassLetters,
    line: u32,
    text: &'a [u8],
) -> Result<(Vec<ClassMove>, &'a [u8]), ReadEnd>
    ensures { Gives (λ x. (x.0.items, words_after x.1.now)) result
        (history_due letters.now line (words_after text.now)) }
{
    let mut moves = Vec::new(alloc);
    let mut rest = text;
    while let Some(word) = next_word(rest) {
        rest = word.rest;
        if is_word(word.front, b":") {
            return Ok((moves, rest));
        }
        let mv = letters.move_due(line, word.front)?;
        moves.push(mv)?;
    }
    Err(ReadEnd::Fault(AnswerFault::Line { line }))
}

/// Moves, each with its count.
#[tactic(auto, unfolding(crate::specs::Rows::shares_due))]
fn shares_due(
    alloc: Global,
    letters: &ClassLetters,
    line: u32,
    text: &[u8],
) -> Result<Vec<(ClassMove, i128)>, ReadEnd>
    ensures { Gives (λ x. x.items) result (shares_due letters.now line (words_after text.now)) }
{
    let mut shares = Vec::new(alloc);
    let mut rest = text;
    while let Some(word) = next_word(rest) {
        let Some(number) = next_word(word.rest) else {
            return Err(ReadEnd::Fault(AnswerFault::Line { line }));
        };
        rest = number.rest;
        let mv = letters.move_due(line, word.front)?;
        let count = number_due(line, number.front)?;
        shares.push((mv, count))?;
    }
    Ok(shares)
}
