//! The run from the first tableau to its end.
ghost use Rattle.std.specs.Prelude.{◌≡◌, ℕ, suc, ◌+◌, ◌≤◌, ℤ, pos, neg_ℤ, ◌∷◌, ◌++◌, map, replicate, unsigned_abs};
ghost use Rattle.std.specs.Prelude.{length, All, IfOk, IfSome};
ghost use Rattle.suit_linear.specs.declared.limits.TheConstants.{MOST_SMALL};
ghost use Rattle.suit_linear.specs.Programs.{IsWellFormed};
ghost use Rattle.suit_linear.specs.Runs.{run_end, AtOptimum};
ghost use Rattle.suit_linear.specs.Multiples.{IsSmall};
ghost use Rattle.suit_linear.specs.Points.{number_at};
ghost use Rattle.suit_linear.specs.Sparse.{dense, dense_row, dense_entries};
ghost use Rattle.suit_linear.specs.Tableaus.{Tableau, first_tableau};
ghost use Rattle.suit_linear_fast.specs.Lines.{IsLineOf};
ghost use Rattle.suit_linear_fast.specs.States.{AreFirstLines, IsFirstLine, IsStateOf, AreLinesOf};
ghost use Rattle.suit_linear.specs.Ends.{Tells};

use super::lines::Line;
use super::objective::is_small;
use super::past_pivots::no_pivots;
use super::pivot::{Progress, advance, entering, first_scratch};
use super::reading::read_optimum;
use super::sparse::sparse_of;
use std::alloc::{AllocError, Global};
use suit_linear::{Entry, MOST_SMALL, Optimum, SimplexEnd, SparseProgram, SparseRow};

/// How a run ends, where the numbers of its tableaus stay small; else there is no answer.
pub fn fast(
    alloc: Global,
    program: &SparseProgram,
    pivots: u32,
) -> Result<Option<Result<Optimum, SimplexEnd>>, AllocError>
    requires { IsWellFormed (dense program.now) }
    ensures { IfOk result (λ answer. IfSome answer (Tells (dense program.now) (run_end (dense program.now) pivots))) }
{
    let Some(sparse) = sparse_of(alloc, program)? else {
        return Ok(None);
    };
    let rows = sparse.rows.len();
    let columns = sparse.columns.len();
    let Some(mut lines) = first_lines(alloc, program)? else {
        return Ok(None);
    };
    let Some(mut objective) = first_objective(alloc, program.costs.items(), rows)? else {
        return Ok(None);
    };
    let mut past = no_pivots(alloc, rows, columns)?;
    let mut scratch = first_scratch(alloc, rows, objective.len() - 1)?;
    for made in 0..pivots {
        match advance(&sparse, &mut lines, &mut objective, &mut past, &mut scratch)? {
            Progress::Pivoted => {}
            Progress::Last => return read_end(alloc, program, &lines, &objective),
            Progress::Lost => return Ok(None),
        }
    }
    if entering(&objective).is_some() {
        return Ok(Some(Err(SimplexEnd::Pivots)));
    }
    read_end(alloc, program, &lines, &objective)
}

fn read_end(
    alloc: Global,
    program: &SparseProgram,
    lines: &[Line],
    objective: &[i64],
) -> Result<Option<Result<Optimum, SimplexEnd>>, AllocError>
    requires { All IsSmall objective.now }
    ensures { IfOk result (λ answer. IfSome answer (λ end. (tableau : Tableau)
        → IsStateOf (dense program.now) lines.now objective.now tableau
        → Tells (dense program.now) (AtOptimum tableau) end)) }
{
    match read_optimum(alloc, program, lines, objective)? {
        Some(optimum) => Ok(Some(Ok(optimum))),
        None => Ok(None),
    }
}

fn first_lines(alloc: Global, program: &SparseProgram) -> Result<Option<Vec<Line>>, AllocError>
    ensures { IfOk result (λ found. IfSome found (λ lines. AreFirstLines (dense program.now) lines.items)) }
{
    let columns = program.costs.items().len();
    let rows = program.rows.items();
    let mut lines = Vec::with_capacity(alloc, rows.len())?;
    for index in 0..rows.len() {
        let Some(line) = first_line(columns, index, &rows[index]) else {
            return Ok(None);
        };
        lines.push(line)?;
    }
    Ok(Some(lines))
}

fn first_line(columns: usize, index: usize, row: &SparseRow) -> Option<Line>
    ensures { IfSome result (IsFirstLine columns index (dense_row columns row.now)) }
{
    let size = size_of_entries(row.entries.items())?;
    let bound = small(row.bound)?;
    Some(Line {
        basic: columns.checked_add(index)?,
        own: 1,
        bound,
        size: size.max(bound.unsigned_abs()),
    })
}

// A size that the entries of no column add up to more than, and at least 1.
fn size_of_entries(entries: &[Entry]) -> Option<u64>
    ensures within { IfSome result (λ size. (columns column : ℕ)
        → unsigned_abs (number_at (dense_entries columns entries.now) column) ≤ size) }
    ensures some { IfSome result (λ size. 1 ≤ size) }
    ensures small { IfSome result (λ size. size ≤ MOST_SMALL) }
{
    let mut size: u64 = 1;
    for index in 0..entries.len() {
        let Some(sum) = grown(size, entries[index].number) else {
            return None;
        };
        size = sum;
    }
    Some(size)
}

fn grown(size: u64, number: i64) -> Option<u64>
    ensures value { IfSome result (λ sum. sum ≡ size + unsigned_abs number) }
    ensures small { IfSome result (λ sum. sum ≤ MOST_SMALL) }
{
    let sum = size.checked_add(number.unsigned_abs())?;
    if sum <= MOST_SMALL { Some(sum) } else { None }
}

fn small(number: i128) -> Option<i64>
    ensures value { IfSome result (λ short. short ≡ number) }
    ensures small { IfSome result (λ short. IsSmall short) }
{
    let Ok(number) = i64::try_from(number) else {
        return None;
    };
    if is_small(number) { Some(number) } else { None }
}

fn first_objective(
    alloc: Global,
    costs: &[i128],
    rows: usize,
) -> Result<Option<Vec<i64>>, AllocError>
    ensures value { IfOk result (λ found. IfSome found (λ objective. objective.items
        ≡ pos 1 ∷ pos 0 ∷ map neg_ℤ costs.now ++ replicate rows (pos 0))) }
    ensures small { IfOk result (λ found. IfSome found (λ objective. All IsSmall objective.items)) }
{
    let mut objective = Vec::new(alloc);
    objective.push(1)?;
    objective.push(0)?;
    for cost in costs {
        let Some(number) = small(*cost) else {
            return Ok(None);
        };
        objective.push(negated(number))?;
    }
    for row in 0..rows {
        objective.push(0)?;
    }
    Ok(Some(objective))
}

fn negated(number: i64) -> i64
    requires { IsSmall number }
    ensures { result ≡ neg_ℤ number }
{
    -number
}
