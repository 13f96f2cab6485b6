//! The words that name a made table: its number, and how many records it has.
ghost use Rattle.std.specs.Prelude.{◌≡◌, ◌≤◌, IfSome, map};
ghost use Rattle.suit_top.specs.Commands.Made.{IsMade, number_named, numbers_named, table_named};

use suit_text::loose::number_in;

/// The most records of a made table.
pub const MOST_RECORDS: u16 = 10_000;

/// A made table.
#[derive(Clone, Copy, Debug, PartialEq, Eq)]
pub struct MadeTable {
    /// Its number, from which all is drawn.
    pub number: u32,
    /// How many records it has.
    pub count: u16,
}

/// The made table that the words after a command's name name, where this is the name.
pub(super) fn table_named(name: &str, words: &[&str]) -> Option<MadeTable>
    ensures named { result ≡ table_named name.now (map (λ word. word.now) words.now) }
    ensures within { IfSome result IsMade }
{
    match words {
        [first, number, count] => {
            if *first == name {
                numbers_named(number, count)
            } else {
                None
            }
        }
        _ => None,
    }
}

/// The made table of two words.
fn numbers_named(number: &str, count: &str) -> Option<MadeTable>
    ensures named { result ≡ numbers_named number.now count.now }
    ensures within { IfSome result IsMade }
{
    let number = number_named(number, 10, u32::MAX as u64)?;
    let count = number_named(count, 5, MOST_RECORDS as u64)?;
    if count == 0 {
        return None;
    }
    Some(MadeTable {
        number: number as u32,
        count: count as u16,
    })
}

/// The number that at least one digit, and at most so many, stand for, if it is not more than the most.
fn number_named(word: &str, digits: usize, most: u64) -> Option<u64>
    requires { digits ≤ 10 }
    ensures named { result ≡ number_named digits most word.now }
    ensures within { IfSome result (λ number. number ≤ most) }
{
    let number = number_in(digits, word.as_bytes())?;
    if number > most { None } else { Some(number) }
}
