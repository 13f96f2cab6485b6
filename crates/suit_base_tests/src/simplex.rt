//! Optima of small programs, which were worked out by hand, and the ends of runs that have none.
ghost use Rattle.std.specs.Prelude.{◌≡◌, [], ◌∷◌, IfOk};
ghost use Rattle.suit_simplex.specs.Examples.{two_columns, one_wide_row, two_wide_rows, nothing_gained, tied};
ghost use Rattle.suit_base_tests.specs.SparsePrograms.{scattered_columns, one_wide_bound};

use std::alloc::{AllocError, Global};
use std::test::Fail;
use suit_linear::{
    Entries, Entry, Numbers, Optimum, Program, ProgramRow, ProgramRows, SimplexEnd, SparseProgram,
    SparseRow, SparseRows,
};
use suit_linear_fast::fast;
use suit_simplex::{optimum, sparse_optimum};

fn row(alloc: Global, entries: &[i128], bound: i128) -> Result<ProgramRow, AllocError>
    ensures { IfOk result (λ row. row ≡ record { entries = entries.now; bound = bound }) }
{
    Ok(ProgramRow {
        entries: Numbers::of(entries.to_vec(alloc)?),
        bound,
    })
}

fn one_row(alloc: Global, costs: &[i128], row: ProgramRow) -> Result<Program, AllocError>
    ensures { IfOk result (λ program. program ≡ record { costs = costs.now; rows = row ∷ [] }) }
{
    let mut rows = Vec::new(alloc);
    rows.push(row)?;
    Ok(Program {
        costs: Numbers::of(costs.to_vec(alloc)?),
        rows: ProgramRows::of(rows),
    })
}

fn two_rows(
    alloc: Global,
    costs: &[i128],
    first: ProgramRow,
    second: ProgramRow,
) -> Result<Program, AllocError>
    ensures { IfOk result (λ program. program ≡ record { costs = costs.now; rows = first ∷ second ∷ [] }) }
{
    let mut rows = Vec::new(alloc);
    rows.push(first)?;
    rows.push(second)?;
    Ok(Program {
        costs: Numbers::of(costs.to_vec(alloc)?),
        rows: ProgramRows::of(rows),
    })
}

fn two_columns(alloc: Global) -> Result<Program, AllocError>
    ensures { IfOk result (λ program. program ≡ two_columns) }
{
    let first = row(alloc, &[1, 1], 4)?;
    let second = row(alloc, &[3, 1], 6)?;
    two_rows(alloc, &[3, 2], first, second)
}

fn one_wide_row(alloc: Global) -> Result<Program, AllocError>
    ensures { IfOk result (λ program. program ≡ one_wide_row) }
{
    let only = row(alloc, &[1 << 100], 1 << 100)?;
    one_row(alloc, &[1], only)
}

fn two_wide_rows(alloc: Global) -> Result<Program, AllocError>
    ensures { IfOk result (λ program. program ≡ two_wide_rows) }
{
    let first = row(alloc, &[1 << 100], 1 << 100)?;
    let second = row(alloc, &[1 << 100], (1 << 100) + 1)?;
    two_rows(alloc, &[1], first, second)
}

fn nothing_gained(alloc: Global) -> Result<Program, AllocError>
    ensures { IfOk result (λ program. program ≡ nothing_gained) }
{
    let only = row(alloc, &[1, 1], 1)?;
    one_row(alloc, &[0, -1], only)
}

fn tied(alloc: Global) -> Result<Program, AllocError>
    ensures { IfOk result (λ program. program ≡ tied) }
{
    let first = row(alloc, &[0, 1], 0)?;
    let second = row(alloc, &[2, 1], 0)?;
    two_rows(alloc, &[1, 1], first, second)
}

fn sparse_row(alloc: Global, entries: &[Entry], bound: i128) -> Result<SparseRow, AllocError>
    ensures { IfOk result (λ row. row ≡ record { entries = entries.now; bound = bound }) }
{
    Ok(SparseRow {
        entries: Entries::of(entries.to_vec(alloc)?),
        bound,
    })
}

fn part(column: u32, number: i64) -> Entry
    ensures { result ≡ record { column = column; number = number } }
{
    Entry { column, number }
}

fn scattered(alloc: Global) -> Result<SparseProgram, AllocError>
    ensures { IfOk result (λ program. program ≡ scattered_columns) }
{
    let mut rows = Vec::new(alloc);
    rows.push(sparse_row(alloc, &[part(1, 1), part(2, 9), part(0, 1)], 4)?)?;
    rows.push(sparse_row(alloc, &[part(0, 5), part(1, 1), part(0, -2)], 6)?)?;
    Ok(SparseProgram {
        costs: Numbers::of([3, 2].as_slice().to_vec(alloc)?),
        rows: SparseRows::of(rows),
    })
}

fn wide_bound(alloc: Global) -> Result<SparseProgram, AllocError>
    ensures { IfOk result (λ program. program ≡ one_wide_bound) }
{
    let mut rows = Vec::new(alloc);
    rows.push(sparse_row(alloc, &[part(0, 1)], 1 << 100)?)?;
    Ok(SparseProgram {
        costs: Numbers::of([1].as_slice().to_vec(alloc)?),
        rows: SparseRows::of(rows),
    })
}

/// Whether an optimum has these whole numbers in its columns, these prices, and this scale and value.
fn is_told(found: &Optimum, point: &[i128], duals: &[i128], worth: (i128, i128)) -> bool {
    let columns = found.point.items();
    if columns.len() != point.len() || found.duals.items() != duals {
        return false;
    }
    for index in 0..point.len() {
        if columns[index].num != point[index] || columns[index].den != 1 {
            return false;
        }
    }
    (found.scale, found.value) == worth
}

#[test]
fn programs_with_every_entry(rt: HostRuntime) -> Result<(), Fail> {
    let alloc = rt.alloc();
    let small = two_columns(alloc)?;
    assert!(rt; is_told(&optimum(alloc, &small, 2)?, &[1, 3], &[3, 1], (2, 18)));
    assert_eq!(rt; optimum(alloc, &small, 1).err(), Some(SimplexEnd::Pivots));
    let idle = nothing_gained(alloc)?;
    assert!(rt; is_told(&optimum(alloc, &idle, 0)?, &[0, 0], &[0], (1, 0)));
    let even = tied(alloc)?;
    assert!(rt; is_told(&optimum(alloc, &even, 2)?, &[0, 0], &[0, 1], (1, 0)));
    Ok(())
}

#[test]
fn programs_of_wide_numbers(rt: HostRuntime) -> Result<(), Fail> {
    let alloc = rt.alloc();
    let fits = one_wide_row(alloc)?;
    assert!(rt; is_told(&optimum(alloc, &fits, 1)?, &[1], &[1], (1 << 100, 1 << 100)));
    let wide = two_wide_rows(alloc)?;
    assert_eq!(rt;
        optimum(alloc, &wide, 1).err(),
        Some(SimplexEnd::Wide { pivot: 1 })
    );
    assert_eq!(rt; optimum(alloc, &wide, 0).err(), Some(SimplexEnd::Pivots));
    Ok(())
}

#[test]
fn programs_without_their_zeros(rt: HostRuntime) -> Result<(), Fail> {
    let alloc = rt.alloc();
    let small = scattered(alloc)?;
    assert!(rt; fast(alloc, &small, 2)?.is_some());
    assert!(rt;
        is_told(
            &sparse_optimum(alloc, &small, 2)?,
            &[1, 3],
            &[3, 1],
            (2, 18)
        )
    );
    assert_eq!(rt;
        sparse_optimum(alloc, &small, 1).err(),
        Some(SimplexEnd::Pivots)
    );
    let wide = wide_bound(alloc)?;
    assert!(rt; fast(alloc, &wide, 1)?.is_none());
    assert!(rt;
        is_told(
            &sparse_optimum(alloc, &wide, 1)?,
            &[1 << 100],
            &[1],
            (1, 1 << 100)
        )
    );
    Ok(())
}
