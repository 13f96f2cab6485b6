//! The keywords that lines begin with, and what such a line puts.
ghost use Rattle.std.specs.Prelude.{◌≡◌, ◌∷◌, [], Ok, Err, IfErr, OnOk, map};
ghost use Rattle.suit_question.specs.Columns.{AreInRange};
ghost use Rattle.suit_question.specs.Keywords.{keyword_named, named_in};
ghost use Rattle.suit_question.specs.Reading.{line_put};

use crate::column::Column;
use crate::columns::Columns;
use crate::faults::QuestionKind;
use suit_text::loose::is_word;

/// The columns that a keyword's values go to.
#[derive(Clone, Copy)]
pub enum Keyword {
    /// One value.
    Single(Column),
    /// Two values.
    Pair(Column, Column),
}

/// The keywords, each with its columns.
const KEYWORDS: [(&[u8], Keyword); 10] = [
    (b"north", Keyword::Single(Column::North)),
    (b"south", Keyword::Single(Column::South)),
    (b"start", Keyword::Single(Column::Start)),
    (b"regain", Keyword::Single(Column::Regain)),
    (
        b"entries",
        Keyword::Pair(Column::EntriesN, Column::EntriesS),
    ),
    (b"vacant", Keyword::Pair(Column::VacantW, Column::VacantE)),
    (b"west", Keyword::Pair(Column::WestLeast, Column::WestMost)),
    (b"goal", Keyword::Single(Column::Goal)),
    (b"nodes", Keyword::Single(Column::Nodes)),
    (b"pivots", Keyword::Single(Column::Pivots)),
];

/// The keyword that a word is.
fn keyword_in(word: &[u8]) -> Option<Keyword>
    ensures { result ≡ keyword_named word.now }
{
    found_in(&KEYWORDS, word)
}

/// The first keyword of a table that a word is.
fn found_in(mut table: &[(&[u8], Keyword)], word: &[u8]) -> Option<Keyword>
    ensures { result ≡ named_in (map (λ entry. (entry.0.now, entry.1)) table.entry.now) word.now }
{
    while let [entry, rest @ ..] = table {
        if is_word(entry.0, word) {
            return Some(entry.1);
        }
        table = rest;
    }
    None
}

/// Puts the value of a line with one.
pub fn put_one(columns: &mut Columns, keyword: &[u8], value: &[u8]) -> Result<(), QuestionKind>
    ensures ok { OnOk result (line_put columns.old (keyword.now ∷ value.now ∷ []) ≡ Ok columns.new) }
    ensures fault { IfErr result (λ kind. line_put columns.old (keyword.now ∷ value.now ∷ []) ≡ Err kind) }
    ensures range { AreInRange columns.old → AreInRange columns.new }
{
    match keyword_in(keyword) {
        Some(Keyword::Single(column)) => columns.put(column, value),
        Some(Keyword::Pair(_, _)) | None => Err(QuestionKind::Word),
    }
}

/// Puts the values of a line with two.
pub fn put_two(
    columns: &mut Columns,
    keyword: &[u8],
    left: &[u8],
    right: &[u8],
) -> Result<(), QuestionKind>
    ensures ok { OnOk result (line_put columns.old (keyword.now ∷ left.now ∷ right.now ∷ []) ≡ Ok columns.new) }
    ensures fault { IfErr result (λ kind. line_put columns.old (keyword.now ∷ left.now ∷ right.now ∷ []) ≡ Err kind) }
    ensures range { AreInRange columns.old → AreInRange columns.new }
{
    match keyword_in(keyword) {
        Some(Keyword::Pair(first, second)) => columns.put_both(first, left, second, right),
        Some(Keyword::Single(_)) | None => Err(QuestionKind::Word),
    }
}
