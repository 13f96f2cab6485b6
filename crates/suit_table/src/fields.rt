//! The question that the fields of a record name.
ghost use Rattle.std.specs.Prelude.{◌≡◌, Ok, Err, IfErr, IfOk, OnOk, length, reverse};
ghost use Rattle.csv.specs.Records.{fields_of};
ghost use Rattle.suit_game.specs.Validity.{IsValid};
ghost use Rattle.suit_question.specs.Columns.{IsColumn, column_numbered};
ghost use Rattle.suit_table.specs.Fields.{without_front, field_put, question_named, trimmed};
ghost use Rattle.suit_table.specs.declared.records.TheConstants.{FIELDS};

use csv::ByteRecord;
use suit_game::Question;
use suit_question::{Draft, QuestionFault};
use suit_text::loose::is_blank;

/// The question that the fields of a record name, each without the blanks at its ends, or the first fault.
pub(crate) fn question_named(fields: &ByteRecord, number: u32) -> Result<Question, QuestionFault>
    requires { length (fields_of fields.now) ≡ FIELDS }
    ensures named { result ≡ question_named number (fields_of fields.now) }
    ensures valid { IfOk result IsValid }
{
    let mut draft = Draft::new();
    let mut column = 1;
    for field in fields {
        put_field(&mut draft, column, field, number)?;
        column += 1;
    }
    draft.finish(number)
}

/// Puts the text of a field into a column, where it has one.
fn put_field(draft: &mut Draft, column: u8, field: &[u8], line: u32) -> Result<(), QuestionFault>
    requires { IsColumn column }
    ensures ok { OnOk result (field_put draft.old (column_numbered column) (trimmed field.now) ≡ Ok draft.new) }
    ensures fault { IfErr result (λ fault. field_put draft.old (column_numbered column) (trimmed field.now)
        ≡ Err fault.kind) }
    ensures line { IfErr result (λ fault. fault.line ≡ line) }
{
    let text = without_end_blanks(without_first_blanks(field));
    if text.is_empty() {
        return Ok(());
    }
    draft.put(column, text, line)
}

/// A text without the spaces and tabs that it begins with.
fn without_first_blanks(text: &[u8]) -> &[u8]
    ensures { result.now ≡ without_front text.now }
{
    let mut rest = text;
    while let Some((first, after)) = rest.split_first() {
        if !is_blank(*first) {
            return rest;
        }
        rest = after;
    }
    rest
}

/// A text without those that it ends with.
fn without_end_blanks(text: &[u8]) -> &[u8]
    ensures { result.now ≡ reverse (without_front (reverse text.now)) }
{
    let mut rest = text;
    while let Some((last, before)) = rest.split_last() {
        if !is_blank(*last) {
            return rest;
        }
        rest = before;
    }
    rest
}
