//! What is kept of a tableau's rows: of each, by some positive multiple, its entry in its basic
//! column, its bound, and a size that no number of it is above.
ghost use Rattle.std.specs.Prelude.{◌≡◌, ℕ, ◌+◌, ◌*◌, ◌<◌, ◌≤◌, ℤ, pos, ◌*ℤ◌, ◌-ℤ◌, ◌<ℤ◌, unsigned_abs, List};
ghost use Rattle.std.specs.Prelude.{length};
ghost use Rattle.std.specs.Prelude.{fold, None, Some, slice_get, IsTrue, IfSome};
ghost use Rattle.std.specs.Prelude.{int_lt, ◌||◌, ◌&&◌};
ghost use Rattle.std.specs.Ordering.{int_eq};
ghost use Rattle.std.specs.Option.{ForSome};
ghost use Rattle.suit_num.specs.Divisors.{gcd_of};
ghost use Rattle.suit_linear.specs.declared.limits.TheConstants.{MOST_SMALL};
ghost use Rattle.suit_linear.specs.Tableaus.{TableauRow};
ghost use Rattle.suit_linear.specs.Pivots.{kept};
ghost use Rattle.suit_linear_fast.specs.Lines.{is_better_line, AreShown, chosen};

use std::cmp::Ordering;
use suit_linear::MOST_SMALL;

// A row with such a multiple.
#[derive(Clone, Copy)]
pub(crate) struct Line {
    pub(crate) basic: usize,
    pub(crate) own: i64,
    pub(crate) bound: i64,
    pub(crate) size: u64,
}

// The index of the line that leaves, by the entries of the entering column.
pub(crate) fn leaving(lines: &[Line], entries: &[i64]) -> Option<usize>
    requires { length entries.now ≡ length lines.now }
    ensures within { ForSome result (λ index. index < length lines.now) }
    ensures value { (column : ℕ) (rows : List TableauRow) → AreShown column lines.now entries.now rows
        → chosen rows result ≡ fold (kept column) None rows }
{
    let mut best: Option<usize> = None;
    for index in 0..lines.len() {
        best = better(lines, entries, best, index);
    }
    best
}

// The better of the best line so far and one more, by their indices.
fn better(lines: &[Line], entries: &[i64], best: Option<usize>, index: usize) -> Option<usize>
    requires count { length entries.now ≡ length lines.now }
    requires best { ForSome best (λ leader. leader < length lines.now) }
    requires within { index < length lines.now }
    ensures within { ForSome result (λ next. next < length lines.now) }
    ensures value { (column : ℕ) (rows : List TableauRow) (row : TableauRow)
        → AreShown column lines.now entries.now rows → slice_get rows index ≡ Some row
        → chosen rows result ≡ kept column (chosen rows best) row }
{
    if !is_positive(entries[index]) {
        return best;
    }
    let Some(leader) = best else {
        return Some(index);
    };
    if is_better(
        &lines[leader],
        entries[leader],
        &lines[index],
        entries[index],
    ) {
        Some(index)
    } else {
        best
    }
}

fn is_better(best: &Line, best_entry: i64, line: &Line, entry: i64) -> bool
    ensures { result ≡ is_better_line best.now best_entry line.now entry }
{
    let ratio = product(line.bound, best_entry);
    let least = product(best.bound, entry);
    precedes(ratio, least, line.basic < best.basic)
}

fn product(a: i64, b: i64) -> i128
    ensures { result ≡ a *ℤ b }
{
    i128::from(a) * i128::from(b)
}

fn precedes(ratio: i128, least: i128, lower: bool) -> bool
    ensures { result ≡ int_lt ratio least || (int_eq ratio least && lower) }
{
    match ratio.cmp(&least) {
        Ordering::Less => true,
        Ordering::Equal => lower,
        Ordering::Greater => false,
    }
}

fn is_same(a: i128, b: i128) -> bool
    ensures { IsTrue result → a ≡ b }
{
    match a.cmp(&b) {
        Ordering::Equal => true,
        Ordering::Less | Ordering::Greater => false,
    }
}

pub(crate) fn is_same_short(a: i64, b: i64) -> bool
    ensures { IsTrue result → a ≡ b }
{
    match a.cmp(&b) {
        Ordering::Equal => true,
        Ordering::Less | Ordering::Greater => false,
    }
}

pub(crate) fn is_positive(number: i64) -> bool
    ensures { result ≡ int_lt (pos 0) number }
{
    0 < number
}

// The two factors of a change.
#[derive(Clone, Copy)]
pub(crate) struct Factors {
    pub(crate) own: i64,
    pub(crate) times: i64,
}

// The factors by which the leaving row's entry clears another. None where there are none that fit.
pub(crate) fn factors_of(pivot: i64, entry: i64) -> Option<Factors>
    ensures positive { IfSome result (λ factors. pos 0 <ℤ factors.own) }
    ensures balance { IfSome result (λ factors. factors.own *ℤ entry ≡ factors.times *ℤ pivot) }
{
    if pivot == 1 {
        return Some(Factors {
            own: 1,
            times: entry,
        });
    }
    let divisor = common_divisor(pivot.unsigned_abs(), entry.unsigned_abs());
    let Ok(divisor) = i64::try_from(divisor) else {
        return None;
    };
    if divisor <= 0 {
        return None;
    }
    let factors = Factors {
        own: pivot / divisor,
        times: entry / divisor,
    };
    if balances(factors, pivot, entry) {
        Some(factors)
    } else {
        None
    }
}

fn balances(factors: Factors, pivot: i64, entry: i64) -> bool
    ensures positive { IsTrue result → pos 0 <ℤ factors.own }
    ensures balance { IsTrue result → factors.own *ℤ entry ≡ factors.times *ℤ pivot }
{
    is_positive(factors.own) && is_same(product(factors.own, entry), product(factors.times, pivot))
}

pub(crate) fn common_divisor(a: u64, b: u64) -> u64
    ensures { result ≡ gcd_of a b }
{
    let mut x = a;
    let mut y = b;
    while y != 0 {
        let rest = x % y;
        x = y;
        y = rest;
    }
    x
}

// A line that is changed by the leaving one. None where a number does not fit.
pub(crate) fn changed(line: &Line, factors: Factors, leaver: &Line) -> Option<Line>
    ensures basic { IfSome result (λ next. next.basic ≡ line.now.basic) }
    ensures own { IfSome result (λ next. next.own ≡ factors.own *ℤ line.now.own) }
    ensures bound { IfSome result (λ next. next.bound
        ≡ factors.own *ℤ line.now.bound -ℤ factors.times *ℤ leaver.now.bound) }
    ensures size { IfSome result (λ next. unsigned_abs factors.own * line.now.size
        + unsigned_abs factors.times * leaver.now.size ≤ next.size) }
    ensures small { IfSome result (λ next. next.size ≤ MOST_SMALL) }
{
    let own = factors.own.checked_mul(line.own)?;
    let bound = difference(factors, line.bound, leaver.bound)?;
    let size = grown(factors, line.size, leaver.size)?;
    Some(Line {
        basic: line.basic,
        own,
        bound,
        size,
    })
}

pub(crate) fn difference(factors: Factors, number: i64, leaver: i64) -> Option<i64>
    ensures { IfSome result (λ difference. difference ≡ factors.own *ℤ number -ℤ factors.times *ℤ leaver) }
{
    factors
        .own
        .checked_mul(number)?
        .checked_sub(factors.times.checked_mul(leaver)?)
}

fn grown(factors: Factors, size: u64, leaver: u64) -> Option<u64>
    ensures value { IfSome result (λ sum. sum ≡ unsigned_abs factors.own * size + unsigned_abs factors.times * leaver) }
    ensures small { IfSome result (λ sum. sum ≤ MOST_SMALL) }
{
    let kept = factors.own.unsigned_abs().checked_mul(size)?;
    let taken = factors.times.unsigned_abs().checked_mul(leaver)?;
    let sum = kept.checked_add(taken)?;
    if sum <= MOST_SMALL { Some(sum) } else { None }
}
