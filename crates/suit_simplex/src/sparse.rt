//! A program in sparse form.
ghost use Rattle.std.specs.Prelude.{◌≡◌, ◌==◌, ◌+ℤ◌, pos, ℕ, IfOk, IfSome, IsTrue, if◌then◌else◌, length};
ghost use Rattle.suit_linear.specs.Programs.{IsWellFormed};
ghost use Rattle.suit_linear.specs.Sparse.{dense, dense_row, dense_entries, sum_in};

use super::{Entries, Entry, Numbers, Program, ProgramRow, SparseProgram, SparseRow, SparseRows};
use std::alloc::{AllocError, Global};

// The program without its zeros. None where an entry does not fit 64 bits.
pub(crate) fn sparse_program(
    alloc: Global,
    program: &Program,
) -> Result<Option<SparseProgram>, AllocError>
    requires { IsWellFormed program.now }
    ensures { IfOk result (λ found. IfSome found (λ sparse. dense sparse ≡ program.now)) }
{
    let list = program.rows.items();
    let mut rows = Vec::with_capacity(alloc, list.len())?;
    for index in 0..list.len() {
        let Some(row) = sparse_row(alloc, &list[index])? else {
            return Ok(None);
        };
        rows.push(row)?;
    }
    Ok(Some(SparseProgram {
        costs: Numbers::of(program.costs.items().to_vec(alloc)?),
        rows: SparseRows::of(rows),
    }))
}

fn sparse_row(alloc: Global, row: &ProgramRow) -> Result<Option<SparseRow>, AllocError>
    ensures { IfOk result (λ found. IfSome found (λ sparse. dense_row (length row.now.entries) sparse ≡ row.now)) }
{
    match sparse_entries(alloc, row.entries.items())? {
        Some(entries) => Ok(Some(SparseRow {
            entries: Entries::of(entries),
            bound: row.bound,
        })),
        None => Ok(None),
    }
}

fn sparse_entries(alloc: Global, numbers: &[i128]) -> Result<Option<Vec<Entry>>, AllocError>
    ensures { IfOk result (λ found. IfSome found (λ entries.
        dense_entries (length numbers.now) entries.items ≡ numbers.now)) }
{
    let mut entries = Vec::new(alloc);
    for index in 0..numbers.len() {
        if !push_entry(&mut entries, index, numbers[index])? {
            return Ok(None);
        }
    }
    Ok(Some(entries))
}

// A number behind the entries, where it is not 0. False where it does not fit.
fn push_entry(entries: &mut Vec<Entry>, index: usize, number: i128) -> Result<bool, AllocError>
    ensures { IfOk result (λ pushed. IsTrue pushed → (other : ℕ) → sum_in entries.new.items other
        ≡ sum_in entries.old.items other +ℤ (if other == index then number else pos 0)) }
{
    if is_zero(number) {
        return Ok(true);
    }
    let Some(number) = short(number) else {
        return Ok(false);
    };
    let Some(column) = narrow(index) else {
        return Ok(false);
    };
    entries.push(Entry { column, number })?;
    Ok(true)
}

fn is_zero(number: i128) -> bool
    ensures { IsTrue result → number ≡ pos 0 }
{
    number == 0
}

fn short(number: i128) -> Option<i64>
    ensures { IfSome result (λ short. short ≡ number) }
{
    match i64::try_from(number) {
        Ok(short) => Some(short),
        Err(_) => None,
    }
}

fn narrow(index: usize) -> Option<u32>
    ensures { IfSome result (λ narrow. narrow ≡ index) }
{
    match u32::try_from(index) {
        Ok(narrow) => Some(narrow),
        Err(_) => None,
    }
}
