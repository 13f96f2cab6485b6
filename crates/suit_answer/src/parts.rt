//! The parts of an answer text: a line that tells a denominator and how many rows there are, and the rows.
ghost use Rattle.std.specs.Prelude.{◌≡◌, ◌+◌, ◌≤◌, codes, length, vec_len, IfOk};
ghost use Rattle.suit_classes.specs.declared.classes.TheConstants.{MOST_DEFENCE_CLASSES};
ghost use Rattle.suit_text.specs.Strict.{pieces_of, words_of};
ghost use Rattle.suit_answer.specs.Reading.{header_due, rows_due, part_due};
ghost use Rattle.suit_answer.specs.Results.{Gives};
ghost use Rattle.suit_answer.specs.Rows.{plan_row_due, defence_row_due};

use crate::faults::{AnswerFault, ReadEnd};
use crate::forms::header_form;
use crate::letters::ClassLetters;
use crate::lines::next_line;
use crate::numbers::{number_due, small_due};
use crate::rows::{defence_row_due, plan_row_due};
use std::alloc::Global;
use suit_classes::MOST_DEFENCE_CLASSES;
use suit_plans::{Defence, DefenceRow, DefenceRows, Plan, Row, Rows};
use suit_text::MOST_TEXT;

/// The most rows that a line may tell of.
pub const MOST_ROWS: u32 = 4_294_967_295;

/// No line that is due in a text has a number above this: each line before it has a byte of the text at least.
pub const MOST_LINES: u32 = MOST_TEXT as u32 + 1;

/// A part that was read, and where the text goes on.
#[derive(Drop)]
pub struct Read<'a, P> {
    /// The plan or the defence.
    pub part: P,
    /// The number of the next line.
    pub line: u32,
    /// The text from there on.
    pub rest: &'a [u8],
}

/// The denominator and the number of rows that a keyword's line tells.
#[tactic(auto, unfolding(crate::specs::Reading::header_due))]
fn header_due(keyword: &[u8], line: u32, text: &[u8]) -> Result<(i128, u32), ReadEnd>
    ensures { Gives (λ x. x) result (header_due keyword.now line (words_of text.now)) }
{
    let Some((den, rows)) = header_form(keyword, text) else {
        return Err(ReadEnd::Fault(AnswerFault::Line { line }));
    };
    let den = number_due(line, den)?;
    let rows = small_due(MOST_ROWS, line, rows)?;
    Ok((den, rows))
}

/// So many rows of a plan, and the text after them.
fn plan_rows_due<'a>(
    alloc: Global,
    letters: &ClassLetters,
    line: u32,
    count: u32,
    text: &'a [u8],
) -> Result<(Vec<Row>, &'a [u8]), ReadEnd>
    requires { line + length text.now ≤ MOST_LINES }
    ensures value { Gives (λ x. (x.0.items, pieces_of x.1.now)) result
        (rows_due (plan_row_due letters.now) line count (pieces_of text.now)) }
    ensures shorter { IfOk result (λ x. count + length x.1.now ≤ length text.now) }
    ensures few { IfOk result (λ x. vec_len x.0 ≡ count) }
{
    let mut rows = Vec::new(alloc);
    let mut rest = text;
    for index in 0..count {
        let next = next_line(line + index, rest)?;
        let row = plan_row_due(alloc, letters, line + index, next.front)?;
        rows.push(row)?;
        rest = next.rest;
    }
    Ok((rows, rest))
}

/// So many rows of a defence, and the text after them.
fn defence_rows_due<'a>(
    alloc: Global,
    letters: &ClassLetters,
    classes: usize,
    line: u32,
    count: u32,
    text: &'a [u8],
) -> Result<(Vec<DefenceRow>, &'a [u8]), ReadEnd>
    requires few { classes ≤ MOST_DEFENCE_CLASSES }
    requires short { line + length text.now ≤ MOST_LINES }
    ensures value { Gives (λ x. (x.0.items, pieces_of x.1.now)) result
        (rows_due (defence_row_due letters.now classes) line count (pieces_of text.now)) }
    ensures shorter { IfOk result (λ x. count + length x.1.now ≤ length text.now) }
    ensures few { IfOk result (λ x. vec_len x.0 ≡ count) }
{
    let mut rows = Vec::new(alloc);
    let mut rest = text;
    for index in 0..count {
        let next = next_line(line + index, rest)?;
        let row = defence_row_due(alloc, letters, classes, line + index, next.front)?;
        rows.push(row)?;
        rest = next.rest;
    }
    Ok((rows, rest))
}

/// The plan that is due from a line on.
#[tactic(auto, unfolding(crate::specs::Reading::part_due))]
pub fn plan_due<'a>(
    alloc: Global,
    letters: &ClassLetters,
    line: u32,
    text: &'a [u8],
) -> Result<Read<'a, Plan>, ReadEnd>
    requires { line + length text.now ≤ MOST_LINES }
    ensures value { Gives (λ read. (read.part.den, read.part.rows, read.line, pieces_of read.rest.now)) result
        (part_due (codes "plan") (plan_row_due letters.now) line (pieces_of text.now)) }
    ensures shorter { IfOk result (λ read. read.line + length read.rest.now ≤ line + length text.now) }
{
    let next = next_line(line, text)?;
    let (den, count) = header_due(b"plan", line, next.front)?;
    let (rows, rest) = plan_rows_due(alloc, letters, line + 1, count, next.rest)?;
    let part = Plan {
        den,
        rows: Rows::of(rows),
    };
    Ok(Read {
        part,
        line: line + 1 + count,
        rest,
    })
}

/// The defence that is due from a line on.
#[tactic(auto, unfolding(crate::specs::Reading::part_due))]
pub fn defence_due<'a>(
    alloc: Global,
    letters: &ClassLetters,
    classes: usize,
    line: u32,
    text: &'a [u8],
) -> Result<Read<'a, Defence>, ReadEnd>
    requires few { classes ≤ MOST_DEFENCE_CLASSES }
    requires short { line + length text.now ≤ MOST_LINES }
    ensures value { Gives (λ read. (read.part.den, read.part.rows, read.line, pieces_of read.rest.now)) result
        (part_due (codes "defence") (defence_row_due letters.now classes) line (pieces_of text.now)) }
    ensures shorter { IfOk result (λ read. read.line + length read.rest.now ≤ line + length text.now) }
{
    let next = next_line(line, text)?;
    let (den, count) = header_due(b"defence", line, next.front)?;
    let (rows, rest) = defence_rows_due(alloc, letters, classes, line + 1, count, next.rest)?;
    let part = Defence {
        den,
        rows: DefenceRows::of(rows),
    };
    Ok(Read {
        part,
        line: line + 1 + count,
        rest,
    })
}
