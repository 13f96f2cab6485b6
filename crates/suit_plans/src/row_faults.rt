//! What is wrong with the shares of a row.
ghost use Rattle.std.specs.Prelude.{◌≡◌, ◌-ℤ◌, ◌≤ℤ◌, IsTrue, int_le, int_lt, map, pos};
ghost use Rattle.std.specs.List.{list_all};
ghost use Rattle.std.specs.Ordering.{int_eq};
ghost use Rattle.suit_classes.specs.WhatIsAllowed.{is_among};
ghost use Rattle.suit_classes.specs.MoveOrder.{stands_before};
ghost use Rattle.suit_plans.specs.Properness.{are_rising, shares_fault, moves_of, sum_of};

use super::PlanKind;
use suit_classes::{ClassMove, is_among};

/// What is wrong with shares, where the legal moves are given and the mass that is to be shared out.
pub(crate) fn shares_fault(
    legal: &[ClassMove],
    mass: i128,
    shares: &[(ClassMove, i128)],
) -> Option<PlanKind>
    ensures { result ≡ shares_fault legal.now mass shares.now }
{
    if !(are_legal(legal, shares) && are_rising(shares)) {
        Some(PlanKind::Illegal)
    } else if !are_positive(shares) {
        Some(PlanKind::Negative)
    } else if !add_up(shares, mass) {
        Some(PlanKind::Sum)
    } else {
        None
    }
}

// Whether all moves that are named are legal.
fn are_legal(legal: &[ClassMove], shares: &[(ClassMove, i128)]) -> bool
    ensures { result ≡ list_all (is_among legal.now) (moves_of shares.now) }
{
    for count in shares {
        if !is_among(legal, count.0) {
            return false;
        }
    }
    true
}

// Whether the moves rise strictly.
fn are_rising(shares: &[(ClassMove, i128)]) -> bool
    ensures { result ≡ are_rising (moves_of shares.now) }
{
    for index in 1..shares.len() {
        if !stands_before(shares[index - 1].0, shares[index].0) {
            return false;
        }
    }
    true
}

// Whether a move stands before another.
fn stands_before(here: ClassMove, there: ClassMove) -> bool
    ensures { result ≡ stands_before here there }
{
    here < there
}

// Whether no count is below 0.
fn are_positive(shares: &[(ClassMove, i128)]) -> bool
    ensures { result ≡ list_all (λ count. int_le (pos 0) count.1) shares.now }
{
    for count in shares {
        if !is_positive(count.1) {
            return false;
        }
    }
    true
}

// What is left of a number.
fn left_of(number: i128, taken: i128) -> i128
    requires positive { pos 0 ≤ℤ taken }
    requires within { taken ≤ℤ number }
    ensures { result ≡ number -ℤ taken }
{
    number - taken
}

// Whether a number is not below 0.
fn is_positive(number: i128) -> bool
    ensures { result ≡ int_le (pos 0) number }
{
    number >= 0
}

// Whether a number is more than another.
fn is_more(number: i128, other: i128) -> bool
    ensures { result ≡ int_lt other number }
{
    number > other
}

// Whether a number is 0.
fn is_zero(number: i128) -> bool
    ensures { result ≡ int_eq (pos 0) number }
{
    number == 0
}

// Whether shares, none of them below 0, add up to a mass. The sum may have more than 128 bits, so each
// count is taken from what is left of the mass.
fn add_up(shares: &[(ClassMove, i128)], mass: i128) -> bool
    requires { IsTrue (list_all (λ count. int_le (pos 0) count.1) shares.now) }
    ensures { result ≡ int_eq (sum_of (map (λ count. count.1) shares.now)) mass }
{
    let mut rest = mass;
    for count in shares {
        if is_more(count.1, rest) {
            return false;
        }
        rest = left_of(rest, count.1);
    }
    is_zero(rest)
}
