//! The first tableau of a program.
ghost use Rattle.std.specs.Prelude.{◌≡◌, ◌≢◌, ℕ, suc, ◌+◌, ◌*◌, ◌<◌, ◌^◌, ℤ, pos, neg_ℤ, List, [], ◌∷◌, ◌++◌, length};
ghost use Rattle.std.specs.Prelude.{map, replicate, IfOk, IfSome, OnOk, All, ◌==◌, if◌then◌else◌};
ghost use Rattle.suit_num.specs.Narrow.{IsNarrow};
ghost use Rattle.suit_linear.specs.Programs.{IsWellFormed};
ghost use Rattle.suit_linear.specs.Tableaus.{first_row, first_tableau, unit_numbers};
ghost use Rattle.suit_simplex.specs.Dense.{seen, IsKept};

use super::dense::Dense;
use super::{Program, ProgramRow};
use std::alloc::{AllocError, Global};

// 1 at an index and 0 elsewhere, behind the numbers.
fn push_unit(numbers: &mut Vec<i128>, count: usize, index: usize) -> Result<(), AllocError>
    requires { All IsNarrow numbers.old.items }
    ensures items { OnOk result (numbers.new.items ≡ numbers.old.items ++ unit_numbers count index) }
    ensures narrow { OnOk result (All IsNarrow numbers.new.items) }
{
    for other in 0..count {
        numbers.push(unit(other, index))?;
    }
    Ok(())
}

fn unit(other: usize, index: usize) -> i128
    ensures { result ≡ (if other == index then pos 1 else pos 0) }
{
    if other == index { 1 } else { 0 }
}

// The numbers of the first row at an index, of so many, behind the numbers.
fn push_row(
    numbers: &mut Vec<i128>,
    row: &ProgramRow,
    rows: usize,
    index: usize,
) -> Result<(), AllocError>
    requires narrow { All IsNarrow numbers.old.items }
    requires bound { IsNarrow row.now.bound }
    requires entries { All IsNarrow row.now.entries }
    ensures items { OnOk result (numbers.new.items ≡ numbers.old.items ++ (first_row 0 rows (index, row.now)).numbers) }
    ensures narrow { OnOk result (All IsNarrow numbers.new.items) }
{
    numbers.push(row.bound)?;
    numbers.extend_from_slice(row.entries.items())?;
    push_unit(numbers, rows, index)
}

// The numbers of the first objective row behind the numbers.
fn push_objective(numbers: &mut Vec<i128>, costs: &[i128], rows: usize) -> Result<(), AllocError>
    requires narrow { All IsNarrow numbers.old.items }
    requires costs { All IsNarrow costs.now }
    ensures items { OnOk result (numbers.new.items ≡ numbers.old.items ++ pos 1 ∷ pos 0 ∷ map neg_ℤ costs.now
        ++ replicate rows (pos 0)) }
    ensures narrow { OnOk result (All IsNarrow numbers.new.items) }
{
    numbers.push(1)?;
    numbers.push(0)?;
    push_negated(numbers, costs)?;
    push_zeros(numbers, rows)
}

fn push_negated(numbers: &mut Vec<i128>, costs: &[i128]) -> Result<(), AllocError>
    requires narrow { All IsNarrow numbers.old.items }
    requires costs { All IsNarrow costs.now }
    ensures items { OnOk result (numbers.new.items ≡ numbers.old.items ++ map neg_ℤ costs.now) }
    ensures narrow { OnOk result (All IsNarrow numbers.new.items) }
{
    for cost in costs {
        numbers.push(negated(*cost))?;
    }
    Ok(())
}

fn negated(cost: i128) -> i128
    requires { IsNarrow cost }
    ensures { result ≡ neg_ℤ cost }
{
    -cost
}

fn push_zeros(numbers: &mut Vec<i128>, count: usize) -> Result<(), AllocError>
    requires { All IsNarrow numbers.old.items }
    ensures items { OnOk result (numbers.new.items ≡ numbers.old.items ++ replicate count (pos 0)) }
    ensures narrow { OnOk result (All IsNarrow numbers.new.items) }
{
    for made in 0..count {
        numbers.push(0)?;
    }
    Ok(())
}

// How many numbers a row has, and how many the tableau, where memory could hold them.
fn sizes(columns: usize, rows: usize) -> Option<(usize, usize)>
    ensures { IfSome result (λ sizes. (sizes.0 ≡ suc (columns + rows)) × (sizes.1 ≡ rows * sizes.0 + suc sizes.0)) }
{
    let width = columns.checked_add(rows)?.checked_add(1)?;
    let size = rows.checked_mul(width)?.checked_add(width)?.checked_add(1)?;
    Some((width, size))
}

/// The first tableau: no pivot is made.
pub(crate) fn first_dense(alloc: Global, program: &Program) -> Result<Dense, AllocError>
    requires { IsWellFormed program.now }
    ensures seen { IfOk result (λ dense. seen dense ≡ first_tableau program.now) }
    ensures kept { IfOk result (λ dense. IsKept dense) }
    ensures width { IfOk result (λ dense. dense.width ≡ suc (length program.now.costs + length program.now.rows)) }
{
    let columns = program.costs.items();
    let rows = program.rows.items();
    let Some((width, size)) = sizes(columns.len(), rows.len()) else {
        return Err(AllocError);
    };
    let mut numbers = Vec::with_capacity(alloc, size)?;
    let mut basics = Vec::with_capacity(alloc, rows.len())?;
    for (index, row) in rows.iter().enumerate() {
        push_row(&mut numbers, row, rows.len(), index)?;
        basics.push(columns.len() + index)?;
    }
    push_objective(&mut numbers, columns, rows.len())?;
    let leaver = vec![in alloc; 0; width + 1]?;
    Ok(Dense {
        width,
        numbers,
        basics,
        leaver,
    })
}
