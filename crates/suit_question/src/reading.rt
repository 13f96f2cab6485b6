//! Reading a question text.
ghost use Rattle.std.specs.Prelude.{◌≡◌, ◌≤◌, ◌+◌, length, IfOk};
ghost use Rattle.suit_game.specs.Validity.{IsValid};
ghost use Rattle.suit_question.specs.Columns.{AreInRange};
ghost use Rattle.suit_question.specs.Reading.{first_saying, ended, question_read, end_index};
ghost use Rattle.suit_question.specs.Words.{is_end, is_skipped};
ghost use Rattle.suit_text.specs.Loose.{lines_of, words_of};

use crate::columns::Columns;
use crate::faults::{QuestionFault, QuestionKind};
use crate::keywords::{put_one, put_two};
use crate::line::{Line, line_in};
use suit_game::Question;
use suit_text::MOST_TEXT;
use suit_text::loose::first_line;

/// Reads the question that a text asks. The lines come in any order up to `end`, after which nothing may be said. A
/// fault is that of the first line with one: for a line before the end Word where it has no keyword or a wrong number
/// of words, then Repeated where the keyword stood before, then what is wrong with its first bad value; and Tail for
/// a line after the end. Where no line has a fault it is the first of the whole, told of the line of `end`: NoLine,
/// Shared, Empty, Range, Vacant or NoLayout. With no `end` it is NoLine, told of the line after the last. No memory
/// is taken.
#[tactic(auto, unfolding(crate::specs::Reading::asked_by))]
pub fn read_question(bytes: &[u8]) -> Result<Question, QuestionFault>
    requires { length bytes.now ≤ MOST_TEXT }
    ensures value { result ≡ question_read bytes.now }
    ensures valid { IfOk result IsValid }
{
    let mut columns = Columns::new();
    let mut rest = bytes;
    let mut line = 1;
    while let Some(cut) = first_line(rest) {
        rest = cut.rest;
        match line_in(cut.front) {
            Line::Skipped => {}
            Line::End => return end_at(columns, line, rest),
            Line::One { keyword, value } => {
                put_one(&mut columns, keyword, value).map_err(|kind| kind.at(line))?;
            }
            Line::Two {
                keyword,
                left,
                right,
            } => {
                put_two(&mut columns, keyword, left, right).map_err(|kind| kind.at(line))?;
            }
            Line::Other => return Err(QuestionKind::Word.at(line)),
        }
        line += 1;
    }
    Err(QuestionKind::NoLine.at(line))
}

/// The question at an end line, which nothing may be said after.
fn end_at(columns: Columns, line: u32, rest: &[u8]) -> Result<Question, QuestionFault>
    requires range { AreInRange columns }
    requires short { line + length rest.now ≤ MOST_TEXT + 1 }
    ensures value { result ≡ ended columns line (lines_of rest.now) }
    ensures valid { IfOk result IsValid }
{
    if let Some(line) = saying_line(line + 1, rest) {
        return Err(QuestionKind::Tail.at(line));
    }
    columns.finish().map_err(|kind| kind.at(line))
}

/// The first line of a text that says something, where the text begins with a line of this number.
#[tactic(auto, unfolding(crate::specs::Reading::first_saying))]
fn saying_line(first: u32, text: &[u8]) -> Option<u32>
    requires { first + length text.now ≤ MOST_TEXT + 2 }
    ensures { result ≡ first_saying first (lines_of text.now) }
{
    let mut rest = text;
    let mut number = first;
    while let Some(cut) = first_line(rest) {
        if !is_skipped(cut.front) {
            return Some(number);
        }
        rest = cut.rest;
        number += 1;
    }
    None
}

/// How many bytes the question takes: all up to and with its first line of the one word `end`, or all that there are.
#[tactic(auto, using(crate::proofs::EndPlaces::end_here, crate::proofs::EndPlaces::end_later, crate::proofs::EndPlaces::no_end))]
pub fn question_end(bytes: &[u8]) -> usize
    ensures value { result ≡ end_index bytes.now }
    ensures within { result ≤ length bytes.now }
{
    let mut rest = bytes;
    while let Some(cut) = first_line(rest) {
        rest = cut.rest;
        if is_end(cut.front) {
            return bytes.len() - rest.len();
        }
    }
    bytes.len()
}

/// Whether a line says nothing.
fn is_skipped(line: &[u8]) -> bool
    ensures { result ≡ is_skipped (words_of line.now) }
{
    matches!(line_in(line), Line::Skipped)
}

/// Whether a line ends the question.
fn is_end(line: &[u8]) -> bool
    ensures { result ≡ is_end (words_of line.now) }
{
    matches!(line_in(line), Line::End)
}
