//! What is read from the last tableau.
ghost use Rattle.std.specs.Prelude.{◌≡◌, ℕ, ◌<◌, ◌≤◌, ℤ, pos, ◌*ℤ◌, drop, length, All, slice_get, Some, IfOk, IfSome};
ghost use Rattle.std.specs.Prelude.{OnOk};
ghost use Rattle.suit_num.specs.declared.fraction.Frac.{Frac};
ghost use Rattle.suit_linear.specs.Points.{number_at};
ghost use Rattle.suit_linear.specs.Sparse.{dense};
ghost use Rattle.suit_linear.specs.Multiples.{IsSmall};
ghost use Rattle.suit_linear.specs.Pivots.{primitive};
ghost use Rattle.suit_linear.specs.Tableaus.{Tableau};
ghost use Rattle.suit_linear.specs.Ends.{IsOptimumOf};
ghost use Rattle.suit_linear_fast.specs.States.{IsStateOf};
ghost use Rattle.suit_linear_fast.specs.Lines.{IsLineValue};

use super::lines::{Line, is_positive};
use super::primitive::make_primitive;
use std::alloc::{AllocError, Global};
use suit_linear::{Fracs, Numbers, Optimum, SparseProgram};
use suit_num::Frac;

// The optimum of the last tableau.
pub(crate) fn read_optimum(
    alloc: Global,
    program: &SparseProgram,
    lines: &[Line],
    objective: &[i64],
) -> Result<Option<Optimum>, AllocError>
    requires { All IsSmall objective.now }
    ensures { IfOk result (λ found. IfSome found (λ optimum. (tableau : Tableau)
        → IsStateOf (dense program.now) lines.now objective.now tableau
        → IsOptimumOf (dense program.now) tableau optimum)) }
{
    let columns = program.costs.items().len();
    let Some(point) = read_point(alloc, lines, columns)? else {
        return Ok(None);
    };
    let Some(whole) = primitive_row(alloc, objective)? else {
        return Ok(None);
    };
    let Some(start) = columns.checked_add(2) else {
        return Ok(None);
    };
    if whole.len() < start {
        return Ok(None);
    }
    let duals = behind(alloc, &whole, start)?;
    Ok(Some(Optimum {
        point: Fracs::of(point),
        duals: Numbers::of(duals),
        scale: number(&whole, 0),
        value: number(&whole, 1),
    }))
}

// The numbers from an index on.
fn behind(alloc: Global, numbers: &[i128], start: usize) -> Result<Vec<i128>, AllocError>
    requires { start ≤ length numbers.now }
    ensures { IfOk result (λ rest. rest.items ≡ drop start numbers.now) }
{
    numbers[start..].to_vec(alloc)
}

fn number(numbers: &[i128], index: usize) -> i128
    requires { index < length numbers.now }
    ensures { result ≡ number_at numbers.now index }
{
    numbers[index]
}

// The objective row without a common divisor. None where its scale is not positive.
fn primitive_row(alloc: Global, objective: &[i64]) -> Result<Option<Vec<i128>>, AllocError>
    requires { All IsSmall objective.now }
    ensures { IfOk result (λ found. IfSome found (λ whole. whole.items ≡ primitive objective.now)) }
{
    if objective.len() == 0 || !is_positive(objective[0]) {
        return Ok(None);
    }
    let mut whole = widened(alloc, objective)?;
    make_primitive(&mut whole, 0);
    Ok(Some(whole))
}

fn widened(alloc: Global, numbers: &[i64]) -> Result<Vec<i128>, AllocError>
    ensures { IfOk result (λ wide. wide.items ≡ numbers.now) }
{
    let mut wide = Vec::with_capacity(alloc, numbers.len())?;
    for number in numbers {
        wide.push(i128::from(*number))?;
    }
    Ok(wide)
}

fn read_point(
    alloc: Global,
    lines: &[Line],
    columns: usize,
) -> Result<Option<Vec<Frac>>, AllocError>
    ensures count { IfOk result (λ found. IfSome found (λ point. length point.items ≡ columns)) }
    ensures values { IfOk result (λ found. IfSome found (λ point. (column : ℕ) (part : Frac)
        → slice_get point.items column ≡ Some part → IsLineValue lines.now column part)) }
{
    let mut point = Vec::with_capacity(alloc, columns)?;
    for column in 0..columns {
        let Some(part) = column_value(lines, column) else {
            return Ok(None);
        };
        point.push(part)?;
    }
    Ok(Some(point))
}

fn column_value(lines: &[Line], column: usize) -> Option<Frac>
    ensures { IfSome result (IsLineValue lines.now column) }
{
    for index in 0..lines.len() {
        if lines[index].basic == column {
            return line_value(lines[index].own, lines[index].bound);
        }
    }
    Some(Frac::reduced(0, 1))
}

fn line_value(own: i64, bound: i64) -> Option<Frac>
    ensures { IfSome result (λ part. part.num *ℤ own ≡ bound *ℤ part.den) }
{
    if !is_positive(own) {
        return None;
    }
    Some(Frac::reduced(i128::from(bound), i128::from(own)))
}
