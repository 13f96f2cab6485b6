//! What a pivot does to the numbers of one row.
ghost use Rattle.std.specs.Prelude.{◌≡◌, ◌<◌, ◌↔◌, ℤ, pos, ◌*ℤ◌, ◌-ℤ◌, ◌<ℤ◌};
ghost use Rattle.std.specs.Prelude.{IsTrue, IsOk, OnOk, length, All, SomeIff};
ghost use Rattle.std.specs.List.{list_all};
ghost use Rattle.suit_num.specs.Narrow.{IsNarrow};
ghost use Rattle.suit_linear.specs.Pivots.{combined, combining, combining_at, content, is_narrow, share};
ghost use Rattle.suit_linear.specs.Pivots.{cleared, clearing};

use suit_linear_fast::make_primitive;
use suit_num::{gcd, mul, sub};

// A number is past 127 bits and a sign.
#[derive(Clone, Copy, Debug)]
pub(crate) struct TooWide;

// A multiple of the row less a multiple of another row, in place. The error comes where a number is
// too wide, and then nothing is said of the row.
pub(crate) fn combine(
    row: &mut [i128],
    own: i128,
    leaver: &[i128],
    other: i128,
) -> Result<(), TooWide>
    requires narrow { All IsNarrow row.old }
    requires same_length { length row.old ≡ length leaver.now }
    ensures fits { IsOk result ↔ IsTrue (list_all is_narrow (combining own row.old other leaver.now)) }
    ensures value { OnOk result (row.new ≡ combined own row.old other leaver.now) }
    ensures narrow { OnOk result (All IsNarrow row.new) }
{
    for index in 0..row.len() {
        let taken = leaver[index];
        // Most numbers are 0, and most rows keep their own factor.
        if taken == 0 && (own == 1 || row[index] == 0) {
            continue;
        }
        row[index] = combine_numbers(row[index], own, taken, other).ok_or(TooWide)?;
    }
    Ok(())
}

fn combine_numbers(number: i128, own: i128, leaver: i128, other: i128) -> Option<i128>
    ensures { SomeIff result (IsTrue (list_all is_narrow (combining_at own number other leaver)))
        (own *ℤ number -ℤ other *ℤ leaver) }
{
    sub(mul(own, number)?, mul(other, leaver)?)
}

// The numbers with the entry cleared by those of the leaving row, in place. The error comes where
// a number on the way is too wide, and then nothing is said of the numbers.
pub(crate) fn clear(
    numbers: &mut [i128],
    leaver: &[i128],
    pivot: i128,
    entry: i128,
    likely: usize,
) -> Result<(), TooWide>
    requires narrow { All IsNarrow numbers.old }
    requires narrow_pivot { IsNarrow pivot }
    requires narrow_entry { IsNarrow entry }
    requires positive { pos 0 <ℤ pivot }
    requires same_length { length numbers.old ≡ length leaver.now }
    requires within { likely < length numbers.old }
    requires some { 0 < content (combined (share pivot entry) numbers.old (share entry pivot) leaver.now) }
    ensures fits { IsOk result ↔ IsTrue (list_all is_narrow (clearing pivot entry numbers.old leaver.now)) }
    ensures value { OnOk result (numbers.new ≡ cleared pivot entry numbers.old leaver.now) }
    ensures narrow { OnOk result (All IsNarrow numbers.new) }
{
    let (own, other) = shares(pivot, entry);
    combine(numbers, own, leaver, other)?;
    make_primitive(numbers, likely);
    Ok(())
}

// Two numbers divided by their greatest common divisor.
fn shares(pivot: i128, entry: i128) -> (i128, i128)
    requires narrow_pivot { IsNarrow pivot }
    requires narrow_entry { IsNarrow entry }
    requires positive { pos 0 <ℤ pivot }
    ensures pivot { result.0 ≡ share pivot entry }
    ensures entry { result.1 ≡ share entry pivot }
{
    let divisor = gcd(pivot, entry);
    (pivot / divisor, entry / divisor)
}
