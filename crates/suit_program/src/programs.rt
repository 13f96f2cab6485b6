//! The program of a support.
ghost use Rattle.std.specs.Prelude.{◌≡◌, ◌<◌, ℕ, [], Contains, IfOk, Vec, length, get_or, map, neg_ℤ};
ghost use Rattle.std.specs.Global.{Global};
ghost use Rattle.suit_num.specs.Narrow.{IsNarrow};
ghost use Rattle.suit_linear.specs.Sparse.{dense, sum_in};
ghost use Rattle.suit_linear.specs.declared.sparse.Entry.{Entry};
ghost use Rattle.suit_program.specs.Walks.LedgerOf.{sparse_row};
ghost use Rattle.suit_program.specs.Walks.Ledgers.{entries_of};
ghost use Rattle.suit_program.specs.Supports.Marks.{support_seen};
ghost use Rattle.suit_program.specs.Programs.{program_of};
ghost use Rattle.suit_program.specs.Programs.Sized.{IsSized};
ghost use Rattle.suit_program.specs.declared.walks.ledger.Posting.{Posting};

use crate::walks::ledger::Posting;
use crate::walks::ledger_of::{ONE, ledger_of};
use crate::{Memory, Support};
use std::alloc::{AllocError, Global};
use suit_linear::{
    Entries, Entry, Numbers, Program, SparseProgram, SparseRow, SparseRows, numbers_of,
};
use suit_tree::Tree;

pub(crate) mod sizes;

/// The program of a support, whose rows name only the columns that they have a part in. Its greatest objective, with
/// what rests on no column, is what the game of the support is worth. The support's size is at most `MOST_SUPPORT`.
///
/// # Errors
///
/// Want of memory.
pub fn sparse_program(
    alloc: Global,
    tree: &Tree,
    support: &Support,
) -> Result<SparseProgram, Memory>
    requires { IsSized tree.now support.now }
    ensures { IfOk result (λ program. (case : IsSized tree.now support.now)
        → dense program ≡ program_of case.question (support_seen case.question support.now)) }
{
    let ledger = ledger_of(alloc, tree, support)?;
    let mut lists = entries_by_row(alloc, &ledger.postings, ledger.rows as usize)?;
    let objective = lists.remove(0);
    let costs = numbers_of(alloc, &objective, ledger.columns as usize)?;
    let rows = rows_of(alloc, lists)?;
    Ok(SparseProgram {
        costs: Numbers::of(costs),
        rows: SparseRows::of(rows),
    })
}

/// The program of a support with all entries. The support's size is at most `MOST_SUPPORT`.
///
/// # Errors
///
/// Want of memory.
pub fn program(alloc: Global, tree: &Tree, support: &Support) -> Result<Program, Memory>
    requires { IsSized tree.now support.now }
    ensures { IfOk result (λ program. (case : IsSized tree.now support.now)
        → program ≡ program_of case.question (support_seen case.question support.now)) }
{
    sparse_program(alloc, tree, support)?.dense(alloc)
}

// The entries of each row.
fn entries_by_row(
    alloc: Global,
    postings: &[Posting],
    rows: usize,
) -> Result<Vec<Vec<Entry>>, AllocError>
    requires rows { (posting : Posting) → Contains postings.now posting → posting.row < rows }
    ensures length { IfOk result (λ lists. length lists.items ≡ rows) }
    ensures each { IfOk result (λ lists. (row : ℕ) (other : Vec Entry Global) → row < rows
        → (get_or lists.items row other).items ≡ entries_of postings.now row) }
{
    let mut lists = empty_lists(alloc, rows)?;
    for index in 0..postings.len() {
        let posting = postings[index];
        lists[posting.row as usize].push(posting.entry)?;
    }
    Ok(lists)
}

// So many lists of no entries.
fn empty_lists(alloc: Global, count: usize) -> Result<Vec<Vec<Entry>>, AllocError>
    ensures length { IfOk result (λ lists. length lists.items ≡ count) }
    ensures each { IfOk result (λ lists. (row : ℕ) (other : Vec Entry Global) → row < count
        → (get_or lists.items row other).items ≡ []) }
{
    let mut lists = Vec::with_capacity(alloc, count)?;
    for index in 0..count {
        lists.push(Vec::new(alloc))?;
    }
    Ok(lists)
}

// The rows of a program by their entries.
fn rows_of(alloc: Global, lists: Vec<Vec<Entry>>) -> Result<Vec<SparseRow>, AllocError>
    ensures { IfOk result (λ rows. rows.items
        ≡ map (λ (entries : Vec Entry Global). sparse_row entries.items) lists.items) }
{
    let mut rows = Vec::with_capacity(alloc, lists.len())?;
    for entries in lists {
        rows.push(row_of(entries))?;
    }
    Ok(rows)
}

// A row of a program by its entries, of which those of the number 1 stand on the other side.
fn row_of(entries: Vec<Entry>) -> SparseRow
    ensures { result ≡ sparse_row entries.items }
{
    let bound = -sum_of(&entries, ONE);
    SparseRow {
        entries: Entries::of(entries),
        bound,
    }
}

// What a column adds to a row.
fn sum_of(entries: &[Entry], column: u32) -> i128
    ensures is { result ≡ sum_in entries.now column }
    ensures small { IsNarrow result }
{
    let mut sum = 0;
    for index in 0..entries.len() {
        if entries[index].column == column {
            sum += i128::from(entries[index].number);
        }
    }
    sum
}
