//! The lines that are due in a text.
ghost use Rattle.std.specs.Prelude.{◌<◌, length, IfOk};
ghost use Rattle.suit_text.specs.Strict.{pieces_of};
ghost use Rattle.suit_answer.specs.Lines.{line_due};
ghost use Rattle.suit_answer.specs.Results.{Gives};

use crate::faults::{AnswerFault, ReadEnd};
use suit_text::Cut;
use suit_text::strict::first_line;

/// The next line of a text, of which this is the number.
pub fn next_line(line: u32, text: &[u8]) -> Result<Cut<'_>, ReadEnd>
    ensures value { Gives (λ cut. (cut.front.now, pieces_of cut.rest.now)) result (line_due line (pieces_of text.now)) }
    ensures shorter { IfOk result (λ cut. length cut.rest.now < length text.now) }
{
    match first_line(text) {
        Some(cut) => Ok(cut),
        None => Err(ReadEnd::Fault(AnswerFault::Truncated { line })),
    }
}
