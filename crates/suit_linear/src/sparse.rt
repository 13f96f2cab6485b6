//! Linear programs whose rows name only the columns that they have a part in.
ghost use Rattle.std.specs.Prelude.{◌≡◌, ◌-◌, ◌*◌, ◌≤◌, ◌^◌, ◌+ℤ◌, unsigned_abs, IfOk};
ghost use Rattle.suit_linear.specs.Sparse.{dense, dense_row, dense_entries};

use super::{Entries, Numbers, Program, ProgramRow, ProgramRows, SparseRows};
use std::alloc::{AllocError, Global};

/// What one unit of a column adds to a row.
#[derive(Clone, Copy, Debug)]
pub struct Entry {
    /// The column, from 0.
    pub column: u32,
    /// What it adds.
    pub number: i64,
}

/// One inequality of a program by the entries that are not 0. Their order says nothing; those that
/// name the same column add up, and one that names no column of the program counts for nothing.
#[derive(Debug, Drop)]
pub struct SparseRow {
    /// What the columns add to the row.
    pub entries: Entries,
    /// What the row comes to at most.
    pub bound: i128,
}

/// A linear program in standard form, as `Program` is, with rows that leave out what is 0.
#[derive(Debug, Drop)]
pub struct SparseProgram {
    /// What one unit of each column adds to the objective. It says how many columns there are.
    pub costs: Numbers,
    /// What limits the columns.
    pub rows: SparseRows,
}

impl SparseProgram {
    /// The program with an entry for each column in each row. Its numbers fit whatever the entries
    /// are. The only error is want of memory.
    pub fn dense(&self, alloc: Global) -> Result<Program, AllocError>
        ensures { IfOk result (λ program. program ≡ dense self.now) }
    {
        let columns = self.costs.items().len();
        let mut rows = Vec::with_capacity(alloc, self.rows.items().len())?;
        for row in self.rows.items() {
            rows.push(row_of(alloc, row, columns)?)?;
        }
        Ok(Program {
            costs: Numbers::of(self.costs.items().to_vec(alloc)?),
            rows: ProgramRows::of(rows),
        })
    }
}

fn row_of(alloc: Global, row: &SparseRow, columns: usize) -> Result<ProgramRow, AllocError>
    ensures { IfOk result (λ found. found ≡ dense_row columns row.now) }
{
    Ok(ProgramRow {
        entries: Numbers::of(numbers_of(alloc, row.entries.items(), columns)?),
        bound: row.bound,
    })
}

/// What each of so many columns adds to the row of some entries. The only error is want of memory.
pub fn numbers_of(alloc: Global, entries: &[Entry], columns: usize) -> Result<Vec<i128>, AllocError>
    ensures { IfOk result (λ numbers. numbers.items ≡ dense_entries columns entries.now) }
{
    let mut numbers = vec![in alloc; 0; columns]?;
    for index in 0..entries.len() {
        let column = entries[index].column as usize;
        if column < columns {
            numbers[column] = added(numbers[column], entries[index].number);
        }
    }
    Ok(numbers)
}

fn added(sum: i128, number: i64) -> i128
    requires { unsigned_abs sum ≤ (2 ^ 64 - 2) * 2 ^ 63 }
    ensures { result ≡ sum +ℤ number }
{
    sum + i128::from(number)
}
