//! The loose dialect, that of questions: spaces and tabs keep words apart, a carriage return may stand before a line
//! feed, the last line needs no line feed, letters are capital or not, and a number may begin with zeros.
ghost use Rattle.std.specs.Prelude.{◌≡◌, ◌==◌, ◌≤◌, ◌<◌, ◌^◌, not, length, [], ◌∷◌, IfSome, IfNone, position};
ghost use Rattle.suit_text.specs.Loose.{is_blank, words_of, without_return, lines_of, BeginsPiece, is_word, number_read};

use crate::cut::Cut;
use crate::digits::digits_in;

/// The first line of a text, unless the text is at its end.
pub fn first_line(text: &[u8]) -> Option<Cut<'_>>
    ensures none { IfNone result (text.now ≡ []) }
    ensures some { IfSome result (λ cut. BeginsPiece text.now cut.front.now cut.rest.now) }
    ensures lines { IfSome result (λ cut. lines_of text.now ≡ words_of cut.front.now ∷ lines_of cut.rest.now) }
    ensures shorter { IfSome result (λ cut. length cut.rest.now < length text.now) }
    ensures over { IfNone result (lines_of text.now ≡ []) }
{
    if text.is_empty() {
        return None;
    }
    let Some(at) = feed_index(text) else {
        let (front, rest) = text.split_at(text.len());
        return Some(Cut { front, rest });
    };
    let (front, _) = text.split_at(at);
    let (_, rest) = text.split_at(at + 1);
    Some(Cut {
        front: unreturned(front),
        rest,
    })
}

/// The index of the first line feed.
fn feed_index(text: &[u8]) -> Option<usize>
    ensures { result ≡ position (λ byte. byte == 10) text.now }
{
    text.iter().position(|byte| *byte == b'\n')
}

/// A line without the carriage return at its end.
fn unreturned(line: &[u8]) -> &[u8]
    ensures { result.now ≡ without_return line.now }
{
    line.strip_suffix(b"\r").unwrap_or(line)
}

/// The first word of a line, and what comes after it.
pub fn first_word(line: &[u8]) -> Option<Cut<'_>>
    ensures none { IfNone result (words_of line.now ≡ []) }
    ensures some { IfSome result (λ cut. words_of line.now ≡ cut.front.now ∷ words_of cut.rest.now) }
{
    let start = word_index(line)?;
    let (_, text) = line.split_at(start);
    let end = blank_index(text).unwrap_or(text.len());
    let (front, rest) = text.split_at(end);
    Some(Cut { front, rest })
}

/// The index of the first byte that is no space and no tab.
fn word_index(line: &[u8]) -> Option<usize>
    ensures { result ≡ position (λ byte. not (is_blank byte)) line.now }
{
    line.iter().position(|byte| !is_blank(*byte))
}

/// The index of the first space or tab.
fn blank_index(text: &[u8]) -> Option<usize>
    ensures { result ≡ position is_blank text.now }
{
    text.iter().position(|byte| is_blank(*byte))
}

/// Whether a byte is a space or a tab.
pub fn is_blank(byte: u8) -> bool
    ensures { result ≡ is_blank byte }
{
    byte == b' ' || byte == b'\t'
}

/// Whether a text is this word, but for the case of the letters.
pub fn is_word(word: &[u8], text: &[u8]) -> bool
    ensures { result ≡ is_word word.now text.now }
{
    text.eq_ignore_ascii_case(word)
}

/// The number that at least one digit, and at most so many, stand for.
pub fn number_in(digits: usize, text: &[u8]) -> Option<u64>
    requires { digits ≤ 19 }
    ensures value { result ≡ number_read digits text.now }
    ensures most { IfSome result (λ number. number < 10 ^ digits) }
{
    if text.is_empty() || text.len() > digits {
        return None;
    }
    let number = digits_in(text)?;
    Some(number as u64)
}
