//! A program's first rows and its columns without their zeros.
ghost use Rattle.std.specs.Prelude.{◌≡◌, ℕ, suc, ◌+◌, ℤ, pos, ◌+ℤ◌, ◌∷◌, length, slice_get, Some, All, IfOk, IfSome};
ghost use Rattle.std.specs.Prelude.{IsTrue};
ghost use Rattle.std.specs.Prelude.{◌==◌, if◌then◌else◌, OnOk, ◌<◌, [], ◌++◌, set, slice_index_or, map, replicate};
ghost use Rattle.suit_linear.specs.Points.{number_at};
ghost use Rattle.suit_linear.specs.Programs.{IsWellFormed};
ghost use Rattle.suit_linear.specs.Sparse.{dense, dense_row, dense_entries};
ghost use Rattle.suit_linear_fast.specs.Cells.{number_in};
ghost use Rattle.suit_linear_fast.specs.Lines.{unit};
ghost use Rattle.suit_linear_fast.specs.Sparse.{IsSparse, AreRows, AreColumns, AreProgramColumns, AddsEntries};
ghost use Rattle.suit_linear_fast.specs.Sparse.{cells_of, entry_part};

use super::cells::Cell;
use std::alloc::{AllocError, Global};
use std::cmp::Ordering;
use suit_linear::{Entry, SparseProgram, SparseRow};

#[derive(Drop)]
pub(crate) struct Sparse {
    // The first rows: bound, entries and slack.
    pub(crate) rows: Vec<Vec<Cell>>,
    // The entries of each column in the first rows, also of the slack columns.
    pub(crate) columns: Vec<Vec<Cell>>,
}

// None where a bound does not fit 64 bits.
pub(crate) fn sparse_of(
    alloc: Global,
    program: &SparseProgram,
) -> Result<Option<Sparse>, AllocError>
    requires { IsWellFormed (dense program.now) }
    ensures { IfOk result (λ found. IfSome found (λ sparse. IsSparse (dense program.now) sparse)) }
{
    let Some(rows) = sparse_rows(alloc, program)? else {
        return Ok(None);
    };
    let columns = sparse_columns(alloc, program)?;
    Ok(Some(Sparse { rows, columns }))
}

fn sparse_rows(alloc: Global, program: &SparseProgram) -> Result<Option<Vec<Vec<Cell>>>, AllocError>
    ensures { IfOk result (λ found. IfSome found (λ rows. AreRows (dense program.now) rows.items)) }
{
    let columns = program.costs.items().len();
    let list = program.rows.items();
    let mut rows = Vec::new(alloc);
    for index in 0..list.len() {
        let Some(slack) = slack_index(columns, index) else {
            return Ok(None);
        };
        let Some(cells) = row_cells(alloc, &list[index], columns, slack)? else {
            return Ok(None);
        };
        rows.push(cells)?;
    }
    Ok(Some(rows))
}

fn slack_index(columns: usize, index: usize) -> Option<usize>
    ensures { IfSome result (λ slack. slack ≡ suc (columns + index)) }
{
    columns.checked_add(index)?.checked_add(1)
}

fn row_cells(
    alloc: Global,
    row: &SparseRow,
    columns: usize,
    slack: usize,
) -> Result<Option<Vec<Cell>>, AllocError>
    ensures { IfOk result (λ found. IfSome found (λ cells. (index : ℕ) → number_in cells.items index
        ≡ number_at (row.now.bound ∷ dense_entries columns row.now.entries) index +ℤ unit slack index)) }
{
    let mut cells = Vec::new(alloc);
    if !push_cell(&mut cells, 0, row.bound)? {
        return Ok(None);
    }
    let entries = row.entries.items();
    for index in 0..entries.len() {
        if !push_entry(&mut cells, &entries[index], columns)? {
            return Ok(None);
        }
    }
    if !push_cell(&mut cells, slack, 1)? {
        return Ok(None);
    }
    Ok(Some(cells))
}

// An entry behind the cells of a row, where its column is one of so many. False where it does not fit.
fn push_entry(cells: &mut Vec<Cell>, entry: &Entry, columns: usize) -> Result<bool, AllocError>
    ensures { IfOk result (λ pushed. IsTrue pushed → (place : ℕ) → number_in cells.new.items place
        ≡ number_in cells.old.items place +ℤ entry_part columns entry.now place) }
{
    let column = entry.column as usize;
    if column < columns {
        push_cell(cells, column + 1, i128::from(entry.number))
    } else {
        Ok(true)
    }
}

// A number behind the cells, where it is not 0. False where it does not fit.
fn push_cell(cells: &mut Vec<Cell>, index: usize, number: i128) -> Result<bool, AllocError>
    ensures { IfOk result (λ pushed. IsTrue pushed → (other : ℕ) → number_in cells.new.items other
        ≡ number_in cells.old.items other +ℤ (if other == index then number else pos 0)) }
{
    if is_zero(number) {
        return Ok(true);
    }
    let Some(number) = narrowed(number) else {
        return Ok(false);
    };
    cells.push(Cell { index, number })?;
    Ok(true)
}

fn is_zero(number: i128) -> bool
    ensures { IsTrue result → number ≡ pos 0 }
{
    match number.cmp(&0) {
        Ordering::Equal => true,
        Ordering::Less | Ordering::Greater => false,
    }
}

fn narrowed(number: i128) -> Option<i64>
    ensures { IfSome result (λ narrow. narrow ≡ number) }
{
    match i64::try_from(number) {
        Ok(narrow) => Some(narrow),
        Err(_) => None,
    }
}

fn sparse_columns(alloc: Global, program: &SparseProgram) -> Result<Vec<Vec<Cell>>, AllocError>
    ensures { IfOk result (λ columns. AreColumns (dense program.now) columns.items) }
{
    let rows = program.rows.items();
    let mut columns = program_columns(alloc, rows, program.costs.items().len())?;
    for index in 0..rows.len() {
        columns.push(slack_cells(alloc, index)?)?;
    }
    Ok(columns)
}

// The entries of so many columns in the rows.
fn program_columns(
    alloc: Global,
    rows: &[SparseRow],
    count: usize,
) -> Result<Vec<Vec<Cell>>, AllocError>
    ensures { IfOk result (λ columns. AreProgramColumns (map (dense_row count) rows.now) count columns.items) }
{
    let mut columns = empty_columns(alloc, count)?;
    for index in 0..rows.len() {
        add_entries(&mut columns, index, rows[index].entries.items())?;
    }
    Ok(columns)
}

fn empty_columns(alloc: Global, count: usize) -> Result<Vec<Vec<Cell>>, AllocError>
    ensures { IfOk result (λ columns. cells_of columns.items ≡ replicate count []) }
{
    let mut columns = Vec::with_capacity(alloc, count)?;
    for made in 0..count {
        columns.push(Vec::new(alloc))?;
    }
    Ok(columns)
}

// The entries of the row at an index behind the cells of their columns.
fn add_entries(
    columns: &mut Vec<Vec<Cell>>,
    index: usize,
    entries: &[Entry],
) -> Result<(), AllocError>
    ensures { OnOk result (AddsEntries index entries.now (cells_of columns.old.items) (cells_of columns.new.items)) }
{
    for place in 0..entries.len() {
        let column = entries[place].column as usize;
        if column < columns.len() {
            let cell = Cell {
                index,
                number: entries[place].number,
            };
            push_at(columns, column, cell)?;
        }
    }
    Ok(())
}

fn push_at(columns: &mut Vec<Vec<Cell>>, column: usize, cell: Cell) -> Result<(), AllocError>
    requires { column < length columns.old.items }
    ensures { OnOk result (cells_of columns.new.items ≡ set (cells_of columns.old.items) column
        (slice_index_or (cells_of columns.old.items) column [] ++ cell ∷ [])) }
{
    columns[column].push(cell)?;
    Ok(())
}

fn slack_cells(alloc: Global, index: usize) -> Result<Vec<Cell>, AllocError>
    ensures { IfOk result (λ cells. (other : ℕ) → number_in cells.items other ≡ unit index other) }
{
    let mut cells = Vec::new(alloc);
    cells.push(Cell { index, number: 1 })?;
    Ok(cells)
}
