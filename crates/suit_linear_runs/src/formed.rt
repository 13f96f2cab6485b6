//! Whether a program is well formed.
ghost use Rattle.std.specs.Prelude.{◌≡◌, ℕ, ℤ, pos, ◌≤ℤ◌, IsTrue, IfOk, All, length};
ghost use Rattle.suit_num.specs.Narrow.{IsNarrow};
ghost use Rattle.suit_linear.specs.Programs.{IsWellFormed};
ghost use Rattle.suit_linear.specs.Sparse.{dense, dense_row};
ghost use Rattle.suit_linear_runs.specs.Rows.{IsFormedRow};

use std::alloc::{AllocError, Global};
use suit_linear::{SparseProgram, SparseRow, numbers_of};

// Whether no bound is negative, and all numbers fit 127 bits and a sign.
pub(crate) fn is_well_formed(alloc: Global, program: &SparseProgram) -> Result<bool, AllocError>
    ensures { IfOk result (λ formed. IsTrue formed → IsWellFormed (dense program.now)) }
{
    let costs = program.costs.items();
    let rows = program.rows.items();
    if !are_narrow(costs) {
        return Ok(false);
    }
    for index in 0..rows.len() {
        if !is_formed(alloc, &rows[index], costs.len())? {
            return Ok(false);
        }
    }
    Ok(true)
}

fn is_formed(alloc: Global, row: &SparseRow, columns: usize) -> Result<bool, AllocError>
    ensures { IfOk result (λ formed. IsTrue formed → IsFormedRow columns (dense_row columns row.now)) }
{
    if !is_bound(row.bound) {
        return Ok(false);
    }
    let numbers = numbers_of(alloc, row.entries.items(), columns)?;
    Ok(are_narrow(&numbers))
}

fn is_bound(number: i128) -> bool
    ensures positive { IsTrue result → pos 0 ≤ℤ number }
    ensures narrow { IsTrue result → IsNarrow number }
{
    0 <= number
}

fn are_narrow(numbers: &[i128]) -> bool
    ensures { IsTrue result → All IsNarrow numbers.now }
{
    for number in numbers {
        if *number == i128::MIN {
            return false;
        }
    }
    true
}
