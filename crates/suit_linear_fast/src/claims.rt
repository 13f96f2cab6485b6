//! Tests of what is guessed against the program.
ghost use Rattle.std.specs.Prelude.{◌≡◌, ℕ, suc, ◌≤◌, ℤ, pos, ◌+ℤ◌, ◌*ℤ◌, ◌<ℤ◌, neg_ℤ, unsigned_abs, length};
ghost use Rattle.std.specs.Prelude.{slice_get, Some};
ghost use Rattle.std.specs.Prelude.{IsTrue, IfSome};
ghost use Rattle.suit_linear.specs.declared.limits.TheConstants.{MOST_SMALL};
ghost use Rattle.suit_linear.specs.declared.program.Program.{Program};
ghost use Rattle.suit_linear.specs.Points.{number_at};
ghost use Rattle.suit_linear.specs.Tableaus.{TableauRow, entry, first_tableau};
ghost use Rattle.suit_linear_fast.specs.Lines.{IsColumn, IsShared, shared};
ghost use Rattle.suit_linear_fast.specs.States.{AreSolved, IsApart};
ghost use Rattle.suit_linear_fast.specs.Sparse.{IsSparse, AddsColumn, AddsRow};

use super::cells::{add_multiple, all_zero, clear};
use super::lines::{Line, common_divisor, is_positive, is_same_short};
use super::sparse::Sparse;
use suit_linear::MOST_SMALL;

// Whether the lines have these entries in a column: with the shares of the basic columns, by a scale,
// they make the column of the program.
pub(crate) fn column_holds(
    sparse: &Sparse,
    lines: &[Line],
    column: usize,
    entries: &[i64],
    shares: &mut [i64],
    sums: &mut [i64],
) -> bool
    ensures shares { length shares.new ≡ length shares.old }
    ensures sums { length sums.new ≡ length sums.old }
    ensures count { IsTrue result → length entries.now ≡ length lines.now }
    ensures value { IsTrue result → (program : Program) → IsSparse program sparse.now
        → IsColumn program lines.now column entries.now }
{
    let Some(scale) = common_scale(lines, entries) else {
        return false;
    };
    if !share_out(lines, entries, scale, shares) {
        return false;
    }
    if !add_columns(sparse, lines, shares, sums) {
        return false;
    }
    if !take_column(sparse, column, scale, sums) {
        return false;
    }
    all_zero(sums)
}

// A guess of the least scale by which all shares are whole.
fn common_scale(lines: &[Line], entries: &[i64]) -> Option<i64> {
    let mut scale: i64 = 1;
    for index in 0..entries.len() {
        if entries[index] != 0 {
            scale = wider(scale, lines.get(index)?.own, entries[index])?;
        }
    }
    Some(scale)
}

fn wider(scale: i64, own: i64, entry: i64) -> Option<i64> {
    if own == 1 || scale.checked_rem(own)? == 0 {
        return Some(scale);
    }
    let part = own.checked_div(divisor_of(own, entry)?)?;
    scale.checked_mul(part.checked_div(divisor_of(part, scale)?)?)
}

fn divisor_of(a: i64, b: i64) -> Option<i64> {
    match i64::try_from(common_divisor(a.unsigned_abs(), b.unsigned_abs())) {
        Ok(divisor) => Some(divisor),
        Err(_) => None,
    }
}

// The share of each basic column: the entry times the scale over the line's own number. False where
// one is not whole, and then nothing is said of them.
fn share_out(lines: &[Line], entries: &[i64], scale: i64, shares: &mut [i64]) -> bool
    ensures length { length shares.new ≡ length shares.old }
    ensures value { IsTrue result → IsShared lines.now entries.now scale shares.new }
{
    if !is_positive(scale) {
        return false;
    }
    if entries.len() != lines.len() || shares.len() != lines.len() {
        return false;
    }
    for index in 0..lines.len() {
        let Some(share) = share(lines[index].own, entries[index], scale) else {
            return false;
        };
        shares[index] = share;
    }
    true
}

fn share(own: i64, entry: i64, scale: i64) -> Option<i64>
    ensures { IfSome result (λ share. share *ℤ own ≡ entry *ℤ scale) }
{
    whole_quotient(entry.checked_mul(scale)?, own)
}

// Most products are 0 and most divisors 1, which a division would take long to find.
fn whole_quotient(product: i64, own: i64) -> Option<i64>
    ensures { IfSome result (λ quotient. quotient *ℤ own ≡ product) }
{
    if is_same_short(product, 0) {
        return Some(0);
    }
    if is_same_short(own, 1) {
        return Some(product);
    }
    let quotient = product.checked_div(own)?;
    if is_same_short(quotient.checked_mul(own)?, product) {
        Some(quotient)
    } else {
        None
    }
}

// The sums of the basic columns by their shares. False where a number does not fit, and then nothing
// is said of them.
fn add_columns(sparse: &Sparse, lines: &[Line], shares: &[i64], sums: &mut [i64]) -> bool
    requires { length shares.now ≡ length lines.now }
    ensures length { length sums.new ≡ length sums.old }
    ensures value { IsTrue result → (program : Program) → IsSparse program sparse.now → (index : ℕ) (row : TableauRow)
        → slice_get (first_tableau program).rows index ≡ Some row
        → number_at sums.new index ≡ shared lines.now shares.now (λ column. entry row column) }
{
    clear(sums);
    for index in 0..shares.len() {
        if is_same_short(shares[index], 0) {
            continue;
        }
        if !add_column(sparse, lines[index].basic, shares[index], sums) {
            return false;
        }
    }
    true
}

fn add_column(sparse: &Sparse, column: usize, share: i64, sums: &mut [i64]) -> bool
    ensures length { length sums.new ≡ length sums.old }
    ensures value { IsTrue result → (program : Program) → IsSparse program sparse.now
        → AddsColumn program column share sums.old sums.new }
{
    match sparse.columns.get(column) {
        Some(cells) => add_multiple(sums, cells, share),
        None => false,
    }
}

fn take_column(sparse: &Sparse, column: usize, scale: i64, sums: &mut [i64]) -> bool
    ensures length { length sums.new ≡ length sums.old }
    ensures value { IsTrue result → (program : Program) → IsSparse program sparse.now
        → AddsColumn program column (neg_ℤ scale) sums.old sums.new }
{
    match scale.checked_neg() {
        Some(share) => add_column(sparse, column, share, sums),
        None => false,
    }
}

// The sum of the first rows by their weights. False where a number does not fit, and then nothing is
// said of it.
pub(crate) fn sum_rows(sparse: &Sparse, weights: &[i64], numbers: &mut [i64]) -> bool
    ensures length { length numbers.new ≡ length numbers.old }
    ensures value { IsTrue result → (program : Program) → IsSparse program sparse.now → AreSolved program numbers.new }
{
    clear(numbers);
    for index in 0..weights.len() {
        if is_same_short(weights[index], 0) {
            continue;
        }
        if !add_row(sparse, index, weights[index], numbers) {
            return false;
        }
    }
    true
}

fn add_row(sparse: &Sparse, index: usize, weight: i64, numbers: &mut [i64]) -> bool
    ensures length { length numbers.new ≡ length numbers.old }
    ensures value { IsTrue result → (program : Program) → IsSparse program sparse.now
        → AddsRow program index weight numbers.old numbers.new }
{
    match sparse.rows.get(index) {
        Some(cells) => add_multiple(numbers, cells, weight),
        None => false,
    }
}

// Whether numbers have the basic columns of the line at an index: positive in its own, and 0 in the
// others'.
pub(crate) fn is_apart(lines: &[Line], leaving: usize, numbers: &[i64]) -> bool
    ensures { IsTrue result → IsApart lines.now leaving numbers.now }
{
    for index in 0..lines.len() {
        let Some(number) = entry_of(numbers, lines[index].basic) else {
            return false;
        };
        if index == leaving {
            if !is_positive(number) {
                return false;
            }
        } else if !is_same_short(number, 0) {
            return false;
        }
    }
    true
}

// The entry of a row in a column.
pub(crate) fn entry_of(numbers: &[i64], column: usize) -> Option<i64>
    ensures { IfSome result (λ entry. entry ≡ number_at numbers.now (suc column)) }
{
    let index = column.checked_add(1)?;
    Some(*numbers.get(index)?)
}

// A size that no number is above, or None where it is too large.
pub(crate) fn size_of(numbers: &[i64]) -> Option<u64>
    ensures within { IfSome result (λ size. (index : ℕ) → unsigned_abs (number_at numbers.now index) ≤ size) }
    ensures small { IfSome result (λ size. size ≤ MOST_SMALL) }
{
    let mut size: u64 = 0;
    for number in numbers {
        size = size.max(number.unsigned_abs());
    }
    if size <= MOST_SMALL { Some(size) } else { None }
}
