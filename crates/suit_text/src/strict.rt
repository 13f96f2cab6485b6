//! The strict dialect, that of answers: each line ends with a line feed, one space stands between two words and nowhere
//! else, and a number begins with no zero that it can do without. So each text can be written in one way alone.
ghost use Rattle.std.specs.Prelude.{◌≡◌, ◌==◌, ◌≤◌, ◌<◌, ◌^◌, length, [], ◌∷◌, Some, None, IfSome, IfNone, position};
ghost use Rattle.suit_text.specs.Strict.{pieces_of, next_of, words_of, words_after, has_spare_zero, number_read};

use crate::cut::Cut;
use crate::digits::digits_in;

/// The first line of a text, unless it does not end.
pub fn first_line(text: &[u8]) -> Option<Cut<'_>>
    ensures none { IfNone result (next_of (pieces_of text.now) ≡ None) }
    ensures some { IfSome result (λ cut. next_of (pieces_of text.now) ≡ Some (cut.front.now, pieces_of cut.rest.now)) }
    ensures shorter { IfSome result (λ cut. length cut.rest.now < length text.now) }
{
    let at = index_of(b'\n', text)?;
    let (front, _) = text.split_at(at);
    let (_, rest) = text.split_at(at + 1);
    Some(Cut { front, rest })
}

/// The first word of a line.
pub fn first_word(line: &[u8]) -> Cut<'_>
    ensures words { words_of line.now ≡ result.front.now ∷ words_after result.rest.now }
    ensures shorter { length result.rest.now ≤ length line.now }
{
    let end = index_of(b' ', line).unwrap_or(line.len());
    let (front, rest) = line.split_at(end);
    Cut { front, rest }
}

/// The next word of what follows a word, unless nothing does.
pub fn next_word(text: &[u8]) -> Option<Cut<'_>>
    ensures none { IfNone result (words_after text.now ≡ []) }
    ensures some { IfSome result (λ cut. words_after text.now ≡ cut.front.now ∷ words_after cut.rest.now) }
    ensures shorter { IfSome result (λ cut. length cut.rest.now < length text.now) }
{
    match text {
        [] => None,
        [_, words @ ..] => Some(first_word(words)),
    }
}

/// The index of the first such byte.
pub fn index_of(wanted: u8, text: &[u8]) -> Option<usize>
    ensures { result ≡ position (λ byte. byte == wanted) text.now }
{
    text.iter().position(|byte| *byte == wanted)
}

/// The number that a word stands for.
pub fn number_in(text: &[u8]) -> Option<u128>
    ensures value { result ≡ number_read text.now }
    ensures most { IfSome result (λ number. number < 2 ^ 127) }
{
    if text.is_empty() || has_spare_zero(text) {
        return None;
    }
    digits_in(text)
}

/// Whether a zero in front could be left out.
fn has_spare_zero(text: &[u8]) -> bool
    ensures { result ≡ has_spare_zero text.now }
{
    text.len() > 1 && text[0] == b'0'
}
