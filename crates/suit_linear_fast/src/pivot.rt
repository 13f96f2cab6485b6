//! One pivot.
ghost use Rattle.std.specs.Prelude.{◌≡◌, ℕ, suc, ◌+◌, ◌<◌, ℤ, pos, List, length, drop, position, int_lt, slice_get};
ghost use Rattle.std.specs.Prelude.{Some, None, All};
ghost use Rattle.std.specs.Prelude.{IsTrue, IfOk, IfSome};
ghost use Rattle.suit_linear.specs.declared.program.Program.{Program};
ghost use Rattle.suit_linear.specs.Points.{number_at};
ghost use Rattle.suit_linear.specs.Multiples.{IsSmall};
ghost use Rattle.suit_linear.specs.Tableaus.{Tableau};
ghost use Rattle.suit_linear_fast.specs.Replays.{IsDividedRow};
ghost use Rattle.suit_linear_fast.specs.Sparse.{IsSparse};
ghost use Rattle.suit_linear_fast.specs.States.{IsApart, IsTop, AreChanged, ChangesObjective, IsStateOf, Advances};
ghost use Rattle.suit_linear_fast.specs.Lines.{IsChangedLine};

use super::claims::{column_holds, entry_of, is_apart, size_of, sum_rows};
use super::lines::{Line, changed, factors_of, is_positive, is_same_short, leaving};
use super::objective::{clear_objective, content, shrink};
use super::past_pivots::PastPivots;
use super::sparse::Sparse;
use std::alloc::{AllocError, Global};

// Lists that each pivot writes anew.
#[derive(Drop)]
pub(crate) struct Scratch {
    // The entering column, and the shares of the basic columns in it.
    entries: Vec<i64>,
    shares: Vec<i64>,
    // Sums of columns.
    sums: Vec<i64>,
    // What the leaving row takes of the first rows, and its numbers.
    weights: Vec<i64>,
    numbers: Vec<i64>,
}

pub(crate) fn first_scratch(
    alloc: Global,
    rows: usize,
    width: usize,
) -> Result<Scratch, AllocError> {
    Ok(Scratch {
        entries: vec![in alloc; 0; rows]?,
        shares: vec![in alloc; 0; rows]?,
        sums: vec![in alloc; 0; rows]?,
        weights: vec![in alloc; 0; rows]?,
        numbers: vec![in alloc; 0; width]?,
    })
}

// How far one step takes the run.
pub(crate) enum Progress {
    // No column enters.
    Last,
    Pivoted,
    // A guess failed, or a number is too large: nothing is known from there on.
    Lost,
}

pub(crate) fn entering(objective: &[i64]) -> Option<usize>
    requires { 1 < length objective.now }
    ensures { result ≡ position (λ cost. int_lt cost (pos 0)) (drop 2 objective.now) }
{
    first_negative(&objective[2..])
}

fn first_negative(costs: &[i64]) -> Option<usize>
    ensures { result ≡ position (λ cost. int_lt cost (pos 0)) costs.now }
{
    costs.iter().position(|cost| *cost < 0)
}

// One step of the run. Where guesses fail nothing is said of the lines and of the objective row.
pub(crate) fn advance(
    sparse: &Sparse,
    lines: &mut [Line],
    objective: &mut [i64],
    past: &mut PastPivots,
    scratch: &mut Scratch,
) -> Result<Progress, AllocError>
    requires width { 1 < length objective.old }
    requires small { All IsSmall objective.old }
    ensures lines { length lines.new ≡ length lines.old }
    ensures objective { length objective.new ≡ length objective.old }
    ensures value { IfOk result (λ progress. (program : Program) (tableau : Tableau) → IsSparse program sparse.now
        → IsStateOf program lines.old objective.old tableau
        → Advances program tableau progress lines.new objective.new) }
{
    let Some(column) = entering(objective) else {
        return Ok(Progress::Last);
    };
    past.guess_column(sparse, column, &mut scratch.entries);
    let entries = &scratch.entries;
    if !column_holds(
        sparse,
        lines,
        column,
        entries,
        &mut scratch.shares,
        &mut scratch.sums,
    ) {
        return Ok(Progress::Lost);
    }
    let Some(row) = leaving(lines, entries) else {
        return Ok(Progress::Lost);
    };
    let divisor = guess_leaver(past, row, &mut scratch.weights);
    if !sum_rows(sparse, &scratch.weights, &mut scratch.numbers) {
        return Ok(Progress::Lost);
    }
    let numbers = &scratch.numbers;
    if objective.len() - 1 != numbers.len() {
        return Ok(Progress::Lost);
    }
    let Some(leaver) = leaver_of(lines, row, column, numbers) else {
        return Ok(Progress::Lost);
    };
    let own = own_of(lines, row, numbers);
    past.begin_pivot(row, divisor, own, &scratch.weights)?;
    if !change_lines(lines, row, &leaver, entries, past)? {
        return Ok(Progress::Lost);
    }
    if !change_objective(objective, column, leaver.own, numbers) {
        return Ok(Progress::Lost);
    }
    Ok(Progress::Pivoted)
}

// The row's weights, divided by their greatest common divisor, which is the result.
fn guess_leaver(past: &PastPivots, row: usize, weights: &mut [i64]) -> i64
    ensures { IsDividedRow past.now row result weights.new }
{
    past.guess_row(row, weights);
    let divisor = content(weights);
    if divisor > 1 {
        for weight in weights.iter_mut() {
            *weight = *weight / divisor;
        }
    }
    divisor
}

// What the leaving line has in its old basic column.
fn own_of(lines: &[Line], row: usize, numbers: &[i64]) -> i64 {
    let Some(line) = lines.get(row) else {
        return 0;
    };
    match entry_of(numbers, line.basic) {
        Some(number) => number,
        None => 0,
    }
}

// The leaving line as it is after the pivot. None where the numbers are not those of its row, or are
// too large.
fn leaver_of(lines: &[Line], row: usize, column: usize, numbers: &[i64]) -> Option<Line>
    ensures apart { IfSome result (λ top. IsApart lines.now row numbers.now) }
    ensures top { IfSome result (λ top. IsTop column numbers.now top) }
{
    if !is_apart(lines, row, numbers) {
        return None;
    }
    let own = entry_of(numbers, column)?;
    if !is_positive(own) {
        return None;
    }
    let size = size_of(numbers)?;
    let bound = *numbers.get(0)?;
    Some(Line {
        basic: column,
        own,
        bound,
        size,
    })
}

// The lines after the pivot. False where a number does not fit, and then nothing is said of them.
fn change_lines(
    lines: &mut [Line],
    row: usize,
    leaver: &Line,
    entries: &[i64],
    past: &mut PastPivots,
) -> Result<bool, AllocError>
    requires count { length entries.now ≡ length lines.old }
    requires within { row < length lines.old }
    ensures length { length lines.new ≡ length lines.old }
    ensures value { IfOk result (λ fits. IsTrue fits → AreChanged lines.old entries.now row leaver.now lines.new) }
{
    for index in 0..lines.len() {
        if index == row {
            past.end_pivot(row, lines[index].basic);
            lines[index] = *leaver;
            continue;
        }
        if is_same_short(entries[index], 0) {
            continue;
        }
        let Some(line) = change_line(&lines[index], index, leaver, entries[index], past)? else {
            return Ok(false);
        };
        lines[index] = line;
    }
    Ok(true)
}

// A line after the pivot, which is kept with the past pivots.
fn change_line(
    line: &Line,
    index: usize,
    leaver: &Line,
    entry: i64,
    past: &mut PastPivots,
) -> Result<Option<Line>, AllocError>
    ensures { IfOk result (λ next. IfSome next (IsChangedLine line.now entry leaver.now.own leaver.now)) }
{
    let Some(factors) = factors_of(leaver.own, entry) else {
        return Ok(None);
    };
    let Some(next) = changed(line, factors, leaver) else {
        return Ok(None);
    };
    if past.push_change(index, factors)? {
        Ok(Some(next))
    } else {
        Ok(None)
    }
}

// The objective row after the pivot. False where a number does not fit, and then nothing is said of
// it.
fn change_objective(objective: &mut [i64], column: usize, pivot: i64, numbers: &[i64]) -> bool
    requires count { length objective.old ≡ suc (length numbers.now) }
    requires small { All IsSmall objective.old }
    ensures length { length objective.new ≡ length objective.old }
    ensures value { IsTrue result → ChangesObjective objective.old numbers.now column pivot objective.new }
{
    let Some(cost) = cost_of(objective, column) else {
        return false;
    };
    let Some(factors) = factors_of(pivot, cost) else {
        return false;
    };
    if !clear_objective(objective, numbers, factors) {
        return false;
    }
    if is_same_short(factors.own, 1) {
        return true;
    }
    shrink(objective)
}

// What a column costs, by the objective row.
fn cost_of(objective: &[i64], column: usize) -> Option<i64>
    ensures { IfSome result (λ cost. cost ≡ number_at objective.now (suc (suc column))) }
{
    let index = column.checked_add(2)?;
    Some(*objective.get(index)?)
}
