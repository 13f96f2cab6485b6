//! How the mass of a class history is shared out among the moves of a choice.
ghost use Rattle.std.specs.Prelude.{◌≡◌, ◌≤ℤ◌, ◌-ℤ◌, All, IfOk, drop, length, map, not, pos, option_map};
ghost use Rattle.std.specs.Ordering.{int_eq};
ghost use Rattle.suit_program.specs.Readings.{filled, scaled, sum_counts, topped_up};
ghost use Rattle.suit_program.specs.Readings.Sharing.{AreThrough, IsPartOfDen, counted, through, wants_row};
ghost use Rattle.suit_program.specs.Readings.Sharing.{without_nothing};

use std::alloc::{AllocError, Global};
use suit_classes::ClassMove;
use suit_num::Frac;
use suit_plans::Counts;

/// The moves, each with its part of a denominator.
pub(crate) fn scaled_counts(
    alloc: Global,
    den: i128,
    moves: &[ClassMove],
    parts: &[Frac],
) -> Result<Vec<(ClassMove, i128)>, AllocError>
    requires many { length moves.now ≡ length parts.now }
    requires parts { All (IsPartOfDen den) parts.now }
    ensures { IfOk result (λ shares. shares.items
        ≡ counted moves.now (map (λ part. scaled den (part.num, part.den)) parts.now)) }
{
    let mut shares = Vec::with_capacity(alloc, moves.len())?;
    for index in 0..moves.len() {
        shares.push((moves[index], scaled(den, &parts[index])))?;
    }
    Ok(shares)
}

// A fraction as parts of a denominator, of which its own is a divisor.
fn scaled(den: i128, part: &Frac) -> i128
    requires { IsPartOfDen den part.now }
    ensures { result ≡ scaled den (part.now.num, part.now.den) }
{
    den / part.den * part.num
}

/// Adds to the first of some counts what all of them lack of a mass.
pub(crate) fn top_up(mass: i128, shares: &mut Vec<(ClassMove, i128)>)
    requires low { All (λ count. pos 0 ≤ℤ count.1) shares.old.items }
    requires within { sum_counts shares.old.items ≤ℤ mass }
    ensures { shares.new.items ≡ topped_up mass shares.old.items }
{
    if shares.is_empty() {
        return;
    }
    let rest = less_the_others(mass, shares);
    shares[0].1 = shares[0].1.max(rest);
}

// A mass without all counts but the first.
fn less_the_others(mass: i128, shares: &[(ClassMove, i128)]) -> i128
    requires low { All (λ count. pos 0 ≤ℤ count.1) shares.now }
    requires within { sum_counts shares.now ≤ℤ mass }
    ensures { result ≡ mass -ℤ sum_counts (drop 1 shares.now) }
{
    let mut rest = mass;
    for index in 1..shares.len() {
        rest -= shares[index].1;
    }
    rest
}

/// The moves, each with its price as far as the mass goes: it takes what those before it leave.
pub(crate) fn fill(
    alloc: Global,
    mass: i128,
    moves: &[ClassMove],
    prices: &[i128],
) -> Result<Vec<(ClassMove, i128)>, AllocError>
    requires many { length moves.now ≡ length prices.now }
    requires low { All (λ price. pos 0 ≤ℤ price) prices.now }
    requires mass { pos 0 ≤ℤ mass }
    ensures { IfOk result (λ shares. shares.items ≡ filled mass (counted moves.now prices.now)) }
{
    let mut shares = Vec::with_capacity(alloc, moves.len())?;
    let mut left = mass;
    for index in 0..moves.len() {
        let count = prices[index].min(left);
        shares.push((moves[index], count))?;
        left -= count;
    }
    Ok(shares)
}

/// Whether shares of a mass want a row: some of it is not on the first move.
pub(crate) fn wants_row(mass: i128, shares: &Counts) -> bool
    ensures { result ≡ wants_row mass shares.now }
{
    if mass <= 0 {
        return false;
    }
    match shares.items() {
        [first, ..] => first.1 != mass,
        [] => true,
    }
}

/// The shares without counts of 0.
pub(crate) fn without_nothing(alloc: Global, shares: &Counts) -> Result<Counts, AllocError>
    ensures { IfOk result (λ kept. kept ≡ without_nothing shares.now) }
{
    let mut kept = Vec::new(alloc);
    for count in shares.items() {
        if is_some(count.1) {
            kept.push(*count)?;
        }
    }
    Ok(Counts::of(kept))
}

// Whether a count is not 0.
fn is_some(count: i128) -> bool
    ensures { result ≡ not (int_eq count (pos 0)) }
{
    count != 0
}

/// What a move lets through of a mass: its count where there are shares, and else all.
pub(crate) fn through(shares: Option<&Counts>, mass: i128, mv: ClassMove) -> i128
    ensures { result ≡ through (option_map (λ shares. shares.now) shares.entry) mass mv }
{
    match shares {
        Some(shares) => shares.count_of(mv),
        None => mass,
    }
}

/// What a move lets through of each of some masses, as they are shared out.
pub(crate) fn all_through(
    alloc: Global,
    shares: &[Option<Counts>],
    masses: &[i128],
    mv: ClassMove,
) -> Result<Vec<i128>, AllocError>
    requires { length shares.now ≡ length masses.now }
    ensures long { IfOk result (λ passed. length passed.items ≡ length masses.now) }
    ensures each { IfOk result (λ passed. AreThrough shares.now masses.now mv (length masses.now) passed.items) }
{
    let mut passed = Vec::with_capacity(alloc, masses.len())?;
    for index in 0..masses.len() {
        passed.push(through(shares[index].as_ref(), masses[index], mv))?;
    }
    Ok(passed)
}
