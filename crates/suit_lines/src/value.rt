//! The line of the value.
ghost use Rattle.std.specs.Prelude.{◌≡◌, ◌++◌, ◌+◌, ◌*◌, ◌/◌, ◌^◌, ◌<◌, ◌≤◌, codes, OnOk};
ghost use Rattle.suit_plans.specs.declared.plan.TheConstants.{MOST_MASS};
ghost use Rattle.suit_lines.specs.Values.{IsTellable, decimals, hundredths, unit, value_line};

use super::Memory;
use suit_answer::write_number;
use suit_game::Goal;
use suit_num::Frac;

/// The largest value of which a line is written.
pub const MOST_VALUE: u128 = 1_000;

/// The most digits after the point of a value that are told: a percentage shows two of its four behind its own point.
pub const MOST_DECIMALS: u32 = 4;

/// The most hundredths of its unit that the largest value has.
pub const MOST_HUNDREDTHS: u64 = 10_000_000;

/// Writes the line of the value at the end of a text.
pub(crate) fn write_value(text: &mut Vec<u8>, goal: Goal, value: Frac) -> Result<(), Memory>
    requires { IsTellable value }
    ensures { OnOk result (text.new.items ≡ text.old.items ++ value_line goal value) }
{
    text.extend_from_slice(b"Value ")?;
    write_number(text, value.num)?;
    text.extend_from_slice(b"/")?;
    write_number(text, value.den)?;
    text.extend_from_slice(b", ")?;
    write_decimals(text, hundredths(goal, value))?;
    text.extend_from_slice(b" ")?;
    text.extend_from_slice(unit(goal))?;
    text.extend_from_slice(b".\n")?;
    Ok(())
}

/// The unit in which the value of a goal is told.
fn unit(goal: Goal) -> &'static [u8]
    ensures { result.now ≡ unit goal }
{
    match goal {
        Goal::AtLeast(_) => b"percent",
        Goal::Tricks => b"tricks",
    }
}

/// The whole hundredths of its unit that a value has.
fn hundredths(goal: Goal, value: Frac) -> u64
    requires { IsTellable value }
    ensures value { result ≡ hundredths goal value }
    ensures few { result ≤ MOST_HUNDREDTHS }
{
    let digits = match goal {
        Goal::AtLeast(_) => 4,
        Goal::Tricks => 2,
    };
    quotient(value.num.unsigned_abs(), value.den.unsigned_abs(), digits)
}

/// A quotient with so many digits after the point, which is left out. They are found by long division, digit by
/// digit, so that nothing grows to more than ten times the divisor.
fn quotient(num: u128, den: u128, digits: u32) -> u64
    requires some { 0 < den }
    requires fine { den ≤ MOST_MASS }
    requires most { num ≤ MOST_VALUE * den }
    requires few { digits ≤ MOST_DECIMALS }
    ensures value { result ≡ num * 10 ^ digits / den }
    ensures few { result ≤ MOST_HUNDREDTHS }
{
    let mut whole = (num / den) as u64;
    let mut rest = num % den;
    for _digit in 0..digits {
        rest *= 10;
        whole = whole * 10 + (rest / den) as u64;
        rest %= den;
    }
    whole
}

/// Writes a number of hundredths with its two decimals.
fn write_decimals(text: &mut Vec<u8>, count: u64) -> Result<(), Memory>
    ensures { OnOk result (text.new.items ≡ text.old.items ++ decimals count) }
{
    write_number(text, i128::from(count / 100))?;
    text.extend_from_slice(b".")?;
    write_number(text, i128::from(count % 100 / 10))?;
    write_number(text, i128::from(count % 10))?;
    Ok(())
}
