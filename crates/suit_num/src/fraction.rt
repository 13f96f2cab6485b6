//! Fractions in lowest terms.
ghost use Rattle.std.specs.Prelude.{◌≡◌, ◌<ℤ◌, ◌*ℤ◌, pos, unsigned_abs};
ghost use Rattle.suit_num.specs.Narrow.{IsNarrow};
ghost use Rattle.suit_num.specs.Divisors.{IsCoprime};

use crate::divisors::{exact, gcd};

/// A fraction in lowest terms, over a positive denominator. So equal fractions have equal fields.
#[derive(Clone, Copy, PartialEq, Eq, Debug)]
pub struct Frac {
    /// The numerator, which has the fraction's sign.
    pub num: i128,
    /// The denominator.
    pub den: i128,
    pub ghost positive: { pos 0 <ℤ den },
    pub ghost coprime: { IsCoprime (unsigned_abs num) (unsigned_abs den) },
}

impl Frac {
    /// The fraction `num / den` in lowest terms.
    pub fn reduced(num: i128, den: i128) -> Frac
        requires positive { pos 0 <ℤ den }
        requires narrow { IsNarrow num }
        ensures value { result.num *ℤ den ≡ num *ℤ result.den }
        ensures narrow { IsNarrow result.num }
    {
        let divisor = gcd(num, den);
        Frac {
            num: exact(num, divisor),
            den: exact(den, divisor),
        }
    }
}
