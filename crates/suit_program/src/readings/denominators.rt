//! The denominator of the plan.
ghost use Rattle.std.specs.Prelude.{◌≡◌, ◌<ℤ◌, ◌≤ℤ◌, SomeIff, length, pos, unsigned_abs};
ghost use Rattle.suit_num.specs.Divisors.{lcm_of};
ghost use Rattle.suit_plans.specs.declared.plan.TheConstants.{MOST_DEN};
ghost use Rattle.suit_program.specs.Readings.{parts_of};
ghost use Rattle.suit_program.specs.Readings.Sharing.{common_of};

use suit_num::{Frac, lcm};
use suit_plans::MOST_DEN;

/// The least common multiple of the denominators of declarer's columns, or None exactly where it is above `MOST_DEN`.
/// It is told which columns are his. Each multiple on the way divides the last one, so the first that is too wide
/// tells.
pub(crate) fn common_den(parts: &[Frac], passed: &[bool]) -> Option<i128>
    requires { length parts.now ≡ length passed.now }
    ensures { SomeIff result (pos (common_of passed.now (parts_of parts.now)) ≤ℤ MOST_DEN)
        (pos (common_of passed.now (parts_of parts.now))) }
{
    let mut den = 1;
    for index in 0..parts.len() {
        if passed[index] {
            den = lcm_within(den, parts[index].den)?;
        }
    }
    Some(den)
}

// The least common multiple of two positive numbers, or None exactly where it is above `MOST_DEN`.
fn lcm_within(a: i128, b: i128) -> Option<i128>
    requires positive_a { pos 0 <ℤ a }
    requires positive_b { pos 0 <ℤ b }
    ensures { let least = pos (lcm_of (unsigned_abs a) (unsigned_abs b)) in SomeIff result (least ≤ℤ MOST_DEN) least }
{
    let least = lcm(a, b)?;
    if least > MOST_DEN {
        return None;
    }
    Some(least)
}
