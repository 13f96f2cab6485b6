//! What a line of a question says, by its words.
ghost use Rattle.suit_question.specs.Entries.{IsLine};
ghost use Rattle.suit_text.specs.Loose.{words_of};

use suit_text::loose::{first_word, is_word};

/// What a line is, by its words.
#[derive(Clone, Copy)]
pub enum Line<'a> {
    /// It says nothing.
    Skipped,
    /// It ends the question.
    End,
    /// A keyword and one value.
    One {
        keyword: &'a [u8],
        value: &'a [u8],
    },
    /// A keyword and two values.
    Two {
        keyword: &'a [u8],
        left: &'a [u8],
        right: &'a [u8],
    },
    /// It has fewer or more words than any keyword asks for.
    Other,
}

/// What a line is.
pub fn line_in(text: &[u8]) -> Line<'_>
    ensures { IsLine (words_of text.now) result }
{
    let Some(first) = first_word(text) else {
        return Line::Skipped;
    };
    if first.front.starts_with(b"#") {
        return Line::Skipped;
    }
    let keyword = first.front;
    let Some(second) = first_word(first.rest) else {
        return if is_word(b"end", keyword) {
            Line::End
        } else {
            Line::Other
        };
    };
    let Some(third) = first_word(second.rest) else {
        return Line::One {
            keyword,
            value: second.front,
        };
    };
    match first_word(third.rest) {
        None => Line::Two {
            keyword,
            left: second.front,
            right: third.front,
        },
        Some(_) => Line::Other,
    }
}
