//! Writing an answer text, and the words that all texts write moves and numbers by.
ghost use Rattle.std.specs.Prelude.{◌≡◌, ◌∷◌, [], ◌++◌, ◌≤◌, length, map, All, Ok, OnOk, IfOk, decimal};
ghost use Rattle.std.specs.Fmt.{signed_decimal};
ghost use Rattle.std.specs.List.{flat_map};
ghost use Rattle.suit_answer.specs.Letters.{move_word, seat_letter};
ghost use Rattle.suit_answer.specs.Reading.{answer_read};
ghost use Rattle.suit_answer.specs.Writable.{IsWritable, IsWritableMove, IsWritableRow};
ghost use Rattle.suit_answer.specs.Writable.{IsWritableShare, IsWritableTurn};
ghost use Rattle.suit_answer.specs.Writing.{spaced, line_text, share_words, turn_words, plan_row_words};
ghost use Rattle.suit_answer.specs.Writing.{defence_row_words, header_words, value_words};
ghost use Rattle.suit_answer.specs.Writing.{plan_lines, defence_lines, text_of};
ghost use Rattle.suit_answer.specs.declared.parts.TheConstants.{MOST_ROWS};

use crate::Memory;
use crate::answer::Answer;
use crate::letters::ClassLetters;
use itoa::Buffer;
use std::alloc::Global;
use suit_cards::Seat;
use suit_classes::ClassMove;
use suit_game::Question;
use suit_num::Frac;
use suit_plans::{Defence, DefenceRow, Plan, Row};

/// Writes a number at the end of a text.
pub fn write_number(text: &mut Vec<u8>, number: i128) -> Result<(), Memory>
    ensures { OnOk result (text.new.items ≡ text.old.items ++ signed_decimal number) }
{
    let mut buffer = Buffer::new();
    text.extend_from_slice(buffer.format(number).as_bytes())
}

/// Writes a move at the end of a text: the letter of its class, with the seat's letter before it where it is a lead,
/// or a dash where the hand shows out.
pub fn write_move(text: &mut Vec<u8>, letters: &ClassLetters, mv: ClassMove) -> Result<(), Memory>
    requires { IsWritableMove (length letters.now) mv }
    ensures { OnOk result (text.new.items ≡ text.old.items ++ move_word letters.now mv) }
{
    match mv {
        ClassMove::Lead { seat, class } => {
            text.push(seat_letter(seat))?;
            text.push(letters.letter(class))?;
        }
        ClassMove::Follow { class } => text.push(letters.letter(class))?,
        ClassMove::ShowOut => text.push(b'-')?,
    }
    Ok(())
}

/// The letter of a seat.
fn seat_letter(seat: Seat) -> u8
    ensures { seat_letter seat ≡ result ∷ [] }
{
    match seat {
        Seat::N => b'N',
        Seat::E => b'E',
        Seat::S => b'S',
        Seat::W => b'W',
    }
}

/// Writes moves, each with a space in front.
fn write_history(
    text: &mut Vec<u8>,
    letters: &ClassLetters,
    history: &[ClassMove],
) -> Result<(), Memory>
    requires { All (IsWritableMove (length letters.now)) history.now }
    ensures { OnOk result (text.new.items ≡ text.old.items ++ spaced (map (move_word letters.now) history.now)) }
{
    for mv in history {
        text.push(b' ')?;
        write_move(text, letters, *mv)?;
    }
    Ok(())
}

/// Writes moves and their counts, each with a space in front.
fn write_shares(
    text: &mut Vec<u8>,
    letters: &ClassLetters,
    shares: &[(ClassMove, i128)],
) -> Result<(), Memory>
    requires { All (IsWritableShare (length letters.now)) shares.now }
    ensures { OnOk result (text.new.items
        ≡ text.old.items ++ spaced (flat_map (share_words letters.now) shares.now)) }
{
    for (mv, count) in shares {
        text.push(b' ')?;
        write_move(text, letters, *mv)?;
        text.push(b' ')?;
        write_number(text, *count)?;
    }
    Ok(())
}

/// Writes counts of cards, each with a space in front.
fn write_counts(text: &mut Vec<u8>, counts: &[u8]) -> Result<(), Memory>
    ensures { OnOk result (text.new.items ≡ text.old.items ++ spaced (map decimal counts.now)) }
{
    for count in counts {
        text.push(b' ')?;
        write_small(text, *count as u32)?;
    }
    Ok(())
}

/// Writes a number that is not below 0.
fn write_small(text: &mut Vec<u8>, number: u32) -> Result<(), Memory>
    ensures { OnOk result (text.new.items ≡ text.old.items ++ decimal number) }
{
    let mut buffer = Buffer::new();
    text.extend_from_slice(buffer.format(number).as_bytes())
}

/// Writes a history, a colon and moves with their counts, each word with a space in front.
fn write_turn(
    text: &mut Vec<u8>,
    letters: &ClassLetters,
    history: &[ClassMove],
    shares: &[(ClassMove, i128)],
) -> Result<(), Memory>
    requires { IsWritableTurn (length letters.now) history.now shares.now }
    ensures { OnOk result (text.new.items
        ≡ text.old.items ++ spaced (turn_words letters.now history.now shares.now)) }
{
    write_history(text, letters, history)?;
    text.extend_from_slice(b" :")?;
    write_shares(text, letters, shares)?;
    Ok(())
}

/// Writes the line of a row of a plan.
fn write_plan_row(text: &mut Vec<u8>, letters: &ClassLetters, row: &Row) -> Result<(), Memory>
    requires { IsWritableRow (length letters.now) row.now }
    ensures { OnOk result (text.new.items ≡ text.old.items ++ line_text (plan_row_words letters.now row.now)) }
{
    text.extend_from_slice(b"at")?;
    write_turn(text, letters, row.history.items(), row.counts.items())?;
    text.extend_from_slice(b"\n")?;
    Ok(())
}

/// Writes the line of a row of a defence.
fn write_defence_row(
    text: &mut Vec<u8>,
    letters: &ClassLetters,
    row: &DefenceRow,
) -> Result<(), Memory>
    requires { IsWritableTurn (length letters.now) row.now.history row.now.counts }
    ensures { OnOk result (text.new.items ≡ text.old.items ++ line_text (defence_row_words letters.now row.now)) }
{
    text.extend_from_slice(b"west")?;
    write_counts(text, row.west.counts())?;
    text.extend_from_slice(b" at")?;
    write_turn(text, letters, row.history.items(), row.counts.items())?;
    text.extend_from_slice(b"\n")?;
    Ok(())
}

/// Writes the line of a value.
fn write_value(text: &mut Vec<u8>, value: Frac) -> Result<(), Memory>
    ensures { OnOk result (text.new.items ≡ text.old.items ++ line_text (value_words value)) }
{
    text.extend_from_slice(b"value ")?;
    write_number(text, value.num)?;
    text.extend_from_slice(b"/")?;
    write_number(text, value.den)?;
    text.extend_from_slice(b"\n")?;
    Ok(())
}

/// Writes the line of a keyword, a denominator and a number of rows.
fn write_header(text: &mut Vec<u8>, keyword: &[u8], den: i128, rows: u32) -> Result<(), Memory>
    ensures { OnOk result (text.new.items ≡ text.old.items ++ line_text (header_words keyword.now den rows)) }
{
    text.extend_from_slice(keyword)?;
    text.extend_from_slice(b" ")?;
    write_number(text, den)?;
    text.extend_from_slice(b" ")?;
    write_small(text, rows)?;
    text.extend_from_slice(b"\n")?;
    Ok(())
}

/// Writes the lines of a plan at the end of a text: `plan` with its denominator and its number of rows, and the rows.
pub fn write_plan(text: &mut Vec<u8>, letters: &ClassLetters, plan: &Plan) -> Result<(), Memory>
    requires few { length plan.now.rows ≤ MOST_ROWS }
    requires rows { All (IsWritableRow (length letters.now)) plan.now.rows }
    ensures { OnOk result (text.new.items
        ≡ text.old.items ++ flat_map line_text (plan_lines letters.now plan.now)) }
{
    let rows = plan.rows.items();
    write_header(text, b"plan", plan.den, rows.len() as u32)?;
    for row in rows {
        write_plan_row(text, letters, row)?;
    }
    Ok(())
}

/// Writes the lines of a defence at the end of a text: `defence` with its denominator and its number of rows, and the
/// rows.
pub fn write_defence(
    text: &mut Vec<u8>,
    letters: &ClassLetters,
    defence: &Defence,
) -> Result<(), Memory>
    requires few { length defence.now.rows ≤ MOST_ROWS }
    requires rows { All (λ row. IsWritableTurn (length letters.now) row.history row.counts) defence.now.rows }
    ensures { OnOk result (text.new.items
        ≡ text.old.items ++ flat_map line_text (defence_lines letters.now defence.now)) }
{
    let rows = defence.rows.items();
    write_header(text, b"defence", defence.den, rows.len() as u32)?;
    for row in rows {
        write_defence_row(text, letters, row)?;
    }
    Ok(())
}

/// Writes an answer: `answer 1`, the value, the plan, the defence, and `end`, each line ended by a line feed and its
/// words one space apart. What is written is read again as the answer.
///
/// # Errors
///
/// Want of memory.
pub fn answer_text(alloc: Global, question: &Question, answer: &Answer) -> Result<Vec<u8>, Memory>
    requires { IsWritable question.now answer.now }
    ensures text { IfOk result (λ text. text.items ≡ text_of question.now answer.now) }
    ensures reads_back { IfOk result (λ text. answer_read question.now text.items ≡ Ok answer.now) }
{
    let letters = ClassLetters::of(question);
    let mut text = Vec::from_slice(alloc, b"answer 1\n")?;
    write_value(&mut text, answer.value)?;
    write_plan(&mut text, &letters, &answer.plan)?;
    write_defence(&mut text, &letters, &answer.defence)?;
    text.extend_from_slice(b"end\n")?;
    Ok(text)
}
