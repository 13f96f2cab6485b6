//! The objective row, by some positive multiple.
ghost use Rattle.std.specs.Prelude.{◌≡◌, ℕ, suc, ◌<◌, ◌≤◌, ℤ, pos, ◌*ℤ◌, ◌-ℤ◌, ◌∷◌, length, All, IsTrue, IfSome};
ghost use Rattle.suit_linear.specs.Points.{number_at};
ghost use Rattle.suit_linear.specs.Multiples.{IsSmall};
ghost use Rattle.suit_linear_fast.specs.Replays.{short_content};
ghost use Rattle.suit_linear_fast.specs.States.{IsCombined, IsShrunk};

use super::lines::{Factors, common_divisor, difference, is_positive, is_same_short};
use suit_linear::MOST_SMALL;

// The objective row is cleared by the numbers of the leaving row. False where a number does not fit,
// and then nothing is said of it.
pub(crate) fn clear_objective(objective: &mut [i64], leaver: &[i64], factors: Factors) -> bool
    requires count { length objective.old ≡ suc (length leaver.now) }
    requires small { All IsSmall objective.old }
    ensures length { length objective.new ≡ length objective.old }
    ensures value { IsTrue result → IsCombined factors.own factors.times objective.old leaver.now objective.new }
{
    for index in 0..objective.len() {
        let taken = behind(leaver, index);
        if is_idle(factors.own, objective[index], taken) {
            continue;
        }
        let Some(number) = small_difference(factors, objective[index], taken) else {
            return false;
        };
        objective[index] = number;
    }
    true
}

// The leaving row has no part in the scale, so that a 0 stands before its numbers.
fn behind(leaver: &[i64], index: usize) -> i64
    requires { index ≤ length leaver.now }
    ensures { result ≡ number_at (pos 0 ∷ leaver.now) index }
{
    if index == 0 { 0 } else { leaver[index - 1] }
}

// Whether a number stays as it is.
fn is_idle(own: i64, number: i64, taken: i64) -> bool
    ensures { IsTrue result → (times : ℤ) → own *ℤ number -ℤ times *ℤ taken ≡ number }
{
    is_same_short(taken, 0) && (is_same_short(own, 1) || is_same_short(number, 0))
}

fn small_difference(factors: Factors, number: i64, leaver: i64) -> Option<i64>
    ensures value { IfSome result (λ difference. difference ≡ factors.own *ℤ number -ℤ factors.times *ℤ leaver) }
    ensures small { IfSome result (λ difference. IsSmall difference) }
{
    let difference = difference(factors, number, leaver)?;
    if is_small(difference) {
        Some(difference)
    } else {
        None
    }
}

pub(crate) fn is_small(number: i64) -> bool
    ensures { IsTrue result → IsSmall number }
{
    number.unsigned_abs() <= MOST_SMALL
}

// The numbers are divided by a divisor that they have in common. False where one is not divided, and
// then nothing is said of them.
pub(crate) fn shrink(numbers: &mut [i64]) -> bool
    ensures length { length numbers.new ≡ length numbers.old }
    ensures value { IsTrue result → IsShrunk numbers.old numbers.new }
{
    let divisor = content(numbers);
    if !is_positive(divisor) {
        return true;
    }
    if is_same_short(divisor, 1) {
        return true;
    }
    for number in numbers.iter_mut() {
        let Some(quotient) = exact(*number, divisor) else {
            return false;
        };
        *number = quotient;
    }
    true
}

fn exact(number: i64, divisor: i64) -> Option<i64>
    ensures { IfSome result (λ quotient. quotient *ℤ divisor ≡ number) }
{
    if divisor <= 0 {
        return None;
    }
    let quotient = number / divisor;
    if is_same_short(quotient.checked_mul(divisor)?, number) {
        Some(quotient)
    } else {
        None
    }
}

// The greatest common divisor, or 1 where it does not fit.
pub(crate) fn content(numbers: &[i64]) -> i64
    ensures { result ≡ short_content numbers.now }
{
    let mut divisor: u64 = 0;
    for number in numbers {
        if *number == 0 {
            continue;
        }
        divisor = common_divisor(divisor, number.unsigned_abs());
        if divisor == 1 {
            return 1;
        }
    }
    match i64::try_from(divisor) {
        Ok(divisor) => divisor,
        Err(_) => 1,
    }
}
