//! The pivots so far, from which columns and rows are guessed. Nothing here is trusted: the
//! arithmetic wraps, and what is guessed is tested elsewhere.
ghost use Rattle.std.specs.Prelude.{◌≡◌, ℕ, ◌<◌, ◌+ℤ◌, ◌-ℤ◌, ◌*ℤ◌, neg_ℤ, pos, length, slice_index_or};
ghost use Rattle.suit_linear.specs.Points.{number_at};
ghost use Rattle.suit_linear_fast.specs.Cells.{number_in};
ghost use Rattle.suit_linear_fast.specs.Replays.{wrapped, times_in, factor_in, share_of, AreTaken, AreMultiplied};
ghost use Rattle.suit_linear_fast.specs.Replays.{between, short_count, changes_of, multiples_of, weights_of};
ghost use Rattle.suit_linear_fast.specs.Replays.{taken_at, row_first, IsRow, Knows, IsPivotedAt, IsBegun, IsColumnNow};

use super::cells::Cell;
use super::lines::Factors;
use super::sparse::Sparse;
use std::alloc::{AllocError, Global};

// How many changes of rows are kept at most, so that memory does not grow with the budget. There are no
// more numbers of leaving rows either.
pub(crate) const MOST_CHANGES: usize = 1 << 22;

// A pivot: the row that left, what its numbers were divided by, what they have in its old basic
// column, and where its parts of the lists begin.
#[derive(Clone, Copy)]
struct Leaver {
    row: u32,
    weights: u32,
    changes: u32,
    multiples: u32,
    divisor: i64,
    own: i64,
}

// A change of one row: the pivot, the two factors, and how many changes there were up to and with
// the row's change before, or 0.
#[derive(Clone, Copy)]
struct Change {
    row: u32,
    pivot: u32,
    before: u32,
    own: u32,
    times: i64,
}

#[derive(Drop)]
pub(crate) struct PastPivots {
    leavers: Vec<Leaver>,
    // What the leaving rows take of the first rows.
    weights: Vec<Cell>,
    changes: Vec<Change>,
    // The factors other than 1 of rows that change.
    multiples: Vec<Cell>,
    // How many pivots were made up to and with that at which a row left last, or 0.
    left: Vec<usize>,
    // The same of a column.
    left_at: Vec<usize>,
    // How many changes there were up to and with a row's last one since it left, or 0.
    last: Vec<u32>,
}

pub(crate) fn no_pivots(
    alloc: Global,
    rows: usize,
    columns: usize,
) -> Result<PastPivots, AllocError> {
    Ok(PastPivots {
        leavers: Vec::new(alloc),
        weights: Vec::new(alloc),
        changes: Vec::new(alloc),
        multiples: Vec::new(alloc),
        left: vec![in alloc; 0; rows]?,
        left_at: vec![in alloc; 0; columns]?,
        last: vec![in alloc; 0; rows]?,
    })
}

fn cells_between(cells: &[Cell], from: u32, to: u32) -> &[Cell]
    ensures { result.now ≡ between cells.now from to }
{
    let from = from as usize;
    let to = to as usize;
    if from <= to && to <= cells.len() {
        &cells[from..to]
    } else {
        &[]
    }
}

fn changes_between(changes: &[Change], from: u32, to: u32) -> &[Change]
    ensures { result.now ≡ between changes.now from to }
{
    let from = from as usize;
    let to = to as usize;
    if from <= to && to <= changes.len() {
        &changes[from..to]
    } else {
        &[]
    }
}

// A multiple of sparse numbers is taken from a list.
fn take_multiple(numbers: &mut [i64], cells: &[Cell], times: i64)
    ensures { AreTaken numbers.old times (number_in cells.now) numbers.new }
{
    for cell in cells {
        if cell.index < numbers.len() {
            numbers[cell.index] = less(numbers[cell.index], times, cell.number);
        }
    }
}

// The row's entry, divided, is cleared from the rows that change.
fn take_changes(numbers: &mut [i64], changes: &[Change], entry: i64)
    ensures { AreTaken numbers.old entry (times_in changes.now) numbers.new }
{
    for change in changes {
        let row = change.row as usize;
        if row < numbers.len() {
            numbers[row] = less(numbers[row], entry, change.times);
        }
    }
}

fn less(number: i64, times: i64, taken: i64) -> i64
    ensures { result ≡ wrapped (number -ℤ times *ℤ taken) }
{
    number.wrapping_sub(times.wrapping_mul(taken))
}

// The rows that change are multiplied by their factors.
fn multiply(numbers: &mut [i64], cells: &[Cell])
    ensures { AreMultiplied numbers.old (factor_in cells.now) numbers.new }
{
    for cell in cells {
        if cell.index < numbers.len() {
            numbers[cell.index] = multiplied(numbers[cell.index], cell.number);
        }
    }
}

fn multiplied(number: i64, factor: i64) -> i64
    ensures { result ≡ wrapped (number *ℤ factor) }
{
    number.wrapping_mul(factor)
}

fn more(number: i64, other: i64) -> i64
    ensures { result ≡ wrapped (number +ℤ other) }
{
    number.wrapping_add(other)
}

fn negated(number: i64) -> i64
    ensures { result ≡ wrapped (neg_ℤ number) }
{
    number.wrapping_neg()
}

fn clear_all(numbers: &mut [i64])
    ensures count { length numbers.new ≡ length numbers.old }
    ensures value { (index : ℕ) → number_at numbers.new index ≡ pos 0 }
{
    for number in numbers.iter_mut() {
        *number = 0;
    }
}

fn quotient(number: i64, divisor: i64) -> i64
    ensures { result ≡ share_of number divisor }
{
    if divisor > 1 {
        number / divisor
    } else {
        number
    }
}

impl PastPivots {
    fn changes_of(&self, pivot: usize, leaver: &Leaver) -> &[Change]
        ensures { result.now ≡ changes_of self.now pivot leaver.now }
    {
        let end = match self.leavers.get(pivot.saturating_add(1)) {
            Some(next) => next.changes,
            None => count_of(self.changes.len()),
        };
        changes_between(&self.changes, leaver.changes, end)
    }

    fn multiples_of(&self, pivot: usize, leaver: &Leaver) -> &[Cell]
        ensures { result.now ≡ multiples_of self.now pivot leaver.now }
    {
        let end = match self.leavers.get(pivot.saturating_add(1)) {
            Some(next) => next.multiples,
            None => count_of(self.multiples.len()),
        };
        cells_between(&self.multiples, leaver.multiples, end)
    }

    fn weights_of(&self, pivot: usize, leaver: &Leaver) -> &[Cell]
        ensures { result.now ≡ weights_of self.now pivot leaver.now }
    {
        let end = match self.leavers.get(pivot.saturating_add(1)) {
            Some(next) => next.weights,
            None => count_of(self.weights.len()),
        };
        cells_between(&self.weights, leaver.weights, end)
    }

    // The entries of a column in the rows as they are now.
    pub(crate) fn guess_column(&self, sparse: &Sparse, column: usize, entries: &mut [i64])
        ensures { IsColumnNow sparse.now self.now column entries.new }
    {
        clear_all(entries);
        let begin = self.begin_column(sparse, column, entries);
        for pivot in begin..self.leavers.len() {
            self.step_column(pivot, entries);
        }
    }

    // Where a column left, it began again as that of its row; else it is the program's. The first
    // pivot after that is told.
    fn begin_column(&self, sparse: &Sparse, column: usize, entries: &mut [i64]) -> usize
        ensures { let count = slice_index_or self.now.left_at.items column 0 in
            IsBegun sparse.now self.now column count result entries.old entries.new }
    {
        let count = self.left_count(column);
        if count > 0 {
            if let Some(leaver) = self.leavers.get(count - 1) {
                let row = leaver.row as usize;
                if row < entries.len() {
                    entries[row] = leaver.own;
                }
                take_changes(entries, self.changes_of(count - 1, leaver), leaver.own);
                return count;
            }
        }
        if let Some(cells) = sparse.columns.get(column) {
            take_multiple(entries, cells, -1);
        }
        0
    }

    // How many pivots were made up to and with that at which a column left last, or 0.
    fn left_count(&self, column: usize) -> usize
        ensures { result ≡ slice_index_or self.now.left_at.items column 0 }
    {
        match self.left_at.get(column) {
            Some(count) => *count,
            None => 0,
        }
    }

    fn step_column(&self, pivot: usize, entries: &mut [i64])
        ensures { IsPivotedAt self.now pivot entries.old entries.new }
    {
        let Some(leaver) = self.leavers.get(pivot) else {
            return;
        };
        multiply(entries, self.multiples_of(pivot, leaver));
        let row = leaver.row as usize;
        if row >= entries.len() || entries[row] == 0 {
            return;
        }
        let entry = quotient(entries[row], leaver.divisor);
        entries[row] = entry;
        take_changes(entries, self.changes_of(pivot, leaver), entry);
    }

    // What a row takes of the first rows, from its last change back.
    pub(crate) fn guess_row(&self, row: usize, weights: &mut [i64])
        ensures { Knows self.now row → row < length weights.new → IsRow self.now row weights.new }
    {
        clear_all(weights);
        if row >= self.left.len() || row >= self.last.len() || row >= weights.len() {
            return;
        }
        let mut factor: i64 = 1;
        let mut count = self.last[row] as usize;
        for made in 0..self.changes.len() {
            if count == 0 {
                break;
            }
            let Some(change) = self.changes.get(count - 1) else {
                return;
            };
            let times = multiplied(factor, change.times);
            self.take_leaver(change.pivot as usize, times, weights);
            factor = multiplied(factor, i64::from(change.own));
            count = change.before as usize;
        }
        self.add_first(row, factor, weights);
    }

    // A multiple of what a row takes before it changes: that is itself, until it leaves.
    fn add_first(&self, row: usize, factor: i64, weights: &mut [i64])
        requires known { row < length self.now.left.items }
        requires within { row < length weights.old }
        ensures { AreTaken weights.old (neg_ℤ factor)
            (row_first self.now row (slice_index_or self.now.left.items row 0)) weights.new }
    {
        let left = self.left[row];
        if left == 0 {
            weights[row] = more(weights[row], factor);
        } else {
            self.take_leaver(left - 1, negated(factor), weights);
        }
    }

    fn take_leaver(&self, pivot: usize, times: i64, weights: &mut [i64])
        ensures { AreTaken weights.old times (taken_at self.now pivot) weights.new }
    {
        if let Some(leaver) = self.leavers.get(pivot) {
            take_multiple(weights, self.weights_of(pivot, leaver), times);
        }
    }

    // A pivot at which a row leaves.
    pub(crate) fn begin_pivot(
        &mut self,
        row: usize,
        divisor: i64,
        own: i64,
        weights: &[i64],
    ) -> Result<(), AllocError> {
        let leaver = Leaver {
            row: count_of(row),
            weights: count_of(self.weights.len()),
            changes: count_of(self.changes.len()),
            multiples: count_of(self.multiples.len()),
            divisor,
            own,
        };
        self.leavers.push(leaver)?;
        for index in 0..weights.len() {
            if weights[index] != 0 {
                self.weights.push(Cell {
                    index,
                    number: weights[index],
                })?;
            }
        }
        Ok(())
    }

    fn is_full(&self) -> bool {
        self.changes.len() >= MOST_CHANGES || self.weights.len() >= MOST_CHANGES
    }

    // A row that the pivot changes. False where there is no room for it, or a factor does not fit.
    pub(crate) fn push_change(&mut self, row: usize, factors: Factors) -> Result<bool, AllocError> {
        if row >= self.last.len() || self.is_full() {
            return Ok(false);
        }
        let pivot = self.leavers.len().saturating_sub(1);
        let Some(change) = change_of(row, pivot, self.last[row], factors) else {
            return Ok(false);
        };
        self.changes.push(change)?;
        if factors.own != 1 {
            self.multiples.push(Cell {
                index: row,
                number: factors.own,
            })?;
        }
        self.last[row] = count_of(self.changes.len());
        Ok(true)
    }

    // The pivot is made: a row has left, and so has the column that was basic in it.
    pub(crate) fn end_pivot(&mut self, row: usize, basic: usize) {
        let count = self.leavers.len();
        if row < self.last.len() {
            self.last[row] = 0;
        }
        if row < self.left.len() {
            self.left[row] = count;
        }
        if basic < self.left_at.len() {
            self.left_at[basic] = count;
        }
    }
}

fn change_of(row: usize, pivot: usize, before: u32, factors: Factors) -> Option<Change> {
    let (Ok(row), Ok(pivot)) = (u32::try_from(row), u32::try_from(pivot)) else {
        return None;
    };
    let Ok(own) = u32::try_from(factors.own) else {
        return None;
    };
    Some(Change {
        row,
        pivot,
        before,
        own,
        times: factors.times,
    })
}

fn count_of(count: usize) -> u32
    ensures { result ≡ short_count count }
{
    match u32::try_from(count) {
        Ok(count) => count,
        Err(_) => 0,
    }
}
