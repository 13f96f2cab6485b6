//! Common divisors and common multiples.
ghost use Rattle.std.specs.Prelude.{◌≡◌, ◌<ℤ◌, ◌*ℤ◌, pos, unsigned_abs, SomeIff, IfSome};
ghost use Rattle.std.specs.Int.{IsGcd, ◌∣◌};
ghost use Rattle.suit_num.specs.Narrow.{IsNarrow};
ghost use Rattle.suit_num.specs.Divisors.{gcd_of, lcm_of, IsLcm};

use crate::halving::{halving_gcd, wide_halving_gcd};
use crate::narrow::mul;

/// The greatest common divisor of two numbers that are not both 0. It is positive, also where a
/// number is negative, and where one number is 0 it is the other's magnitude.
pub fn gcd(a: i128, b: i128) -> i128
    requires some { ¬ ((a ≡ pos 0) × (b ≡ pos 0)) }
    requires narrow_a { IsNarrow a }
    requires narrow_b { IsNarrow b }
    ensures greatest { IsGcd (unsigned_abs a) (unsigned_abs b) (unsigned_abs result) }
    ensures value { result ≡ pos (gcd_of (unsigned_abs a) (unsigned_abs b)) }
    ensures positive { pos 0 <ℤ result }
    ensures narrow { IsNarrow result }
{
    wide_gcd(a.unsigned_abs(), b.unsigned_abs()) as i128
}

// One division comes first, since the two numbers often differ much in size.
fn wide_gcd(a: u128, b: u128) -> u128
    ensures { IsGcd a b result }
{
    if let (Ok(x), Ok(y)) = (u64::try_from(a), u64::try_from(b)) {
        return u128::from(short_gcd(x, y));
    }
    let small = a.min(b);
    let large = a.max(b);
    if small == 0 {
        return large;
    }
    let rest = large % small;
    if rest == 0 {
        return small;
    }
    wide_halving_gcd(small, rest)
}

fn short_gcd(a: u64, b: u64) -> u64
    ensures { IsGcd a b result }
{
    let small = a.min(b);
    let large = a.max(b);
    if small == 0 {
        return large;
    }
    let rest = large % small;
    if rest == 0 {
        return small;
    }
    halving_gcd(small, rest)
}

/// The least common multiple of two positive numbers, or None exactly where it is above 2^127 - 1.
pub fn lcm(a: i128, b: i128) -> Option<i128>
    requires positive_a { pos 0 <ℤ a }
    requires positive_b { pos 0 <ℤ b }
    ensures value { let least = pos (lcm_of (unsigned_abs a) (unsigned_abs b)) in
        SomeIff result (IsNarrow least) least }
    ensures least { IfSome result (λ m. IsLcm (unsigned_abs a) (unsigned_abs b) (unsigned_abs m)) }
{
    mul(exact(a, gcd(a, b)), b)
}

// The quotient of a number by one of its divisors.
pub(crate) fn exact(a: i128, divisor: i128) -> i128
    requires positive { pos 0 <ℤ divisor }
    requires divides { unsigned_abs divisor ∣ unsigned_abs a }
    ensures { result *ℤ divisor ≡ a }
{
    a / divisor
}
