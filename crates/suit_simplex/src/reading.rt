//! The optimum that a last tableau holds.
ghost use Rattle.std.specs.Prelude.{◌≡◌, ℕ, suc, ◌+◌, ◌<◌, ◌==◌, ℤ, pos, ◌<ℤ◌, length, drop, find, position, IfOk, All};
ghost use Rattle.std.specs.Prelude.{Some, slice_get};
ghost use Rattle.suit_num.specs.declared.fraction.Frac.{Frac};
ghost use Rattle.suit_linear.specs.Tableaus.{TableauRow, entry, scale, value};
ghost use Rattle.suit_linear.specs.Ends.{IsBasicValue, IsOptimumOf};
ghost use Rattle.suit_simplex.specs.Dense.{seen, row_at, IsKept};

use super::dense::Dense;
use super::{Fracs, Numbers, Optimum, Program};
use std::alloc::{AllocError, Global};
use suit_num::Frac;

/// The optimum that the tableau holds, where no column enters.
pub(crate) fn read_optimum(
    alloc: Global,
    program: &Program,
    dense: &Dense,
) -> Result<Optimum, AllocError>
    requires kept { IsKept dense.now }
    requires width { dense.now.width ≡ suc (length program.now.costs + length program.now.rows) }
    requires pivotal { All (λ row. pos 0 <ℤ entry row row.basic) (seen dense.now).rows }
    ensures { IfOk result (λ optimum. IsOptimumOf program.now (seen dense.now) optimum) }
{
    let columns = program.costs.items().len();
    let point = read_point(alloc, dense, columns)?;
    let objective = dense.objective();
    let duals = objective[2 + columns..].to_vec(alloc)?;
    Ok(Optimum {
        point: Fracs::of(point),
        duals: Numbers::of(duals),
        scale: objective[0],
        value: objective[1],
    })
}

fn read_point(alloc: Global, dense: &Dense, columns: usize) -> Result<Vec<Frac>, AllocError>
    requires kept { IsKept dense.now }
    requires columns { columns < dense.now.width }
    requires pivotal { All (λ row. pos 0 <ℤ entry row row.basic) (seen dense.now).rows }
    ensures columns { IfOk result (λ point. length point.items ≡ columns) }
    ensures values { IfOk result (λ point. (column : ℕ) (part : Frac) → slice_get point.items column ≡ Some part
        → IsBasicValue column (find (λ row. row.basic == column) (seen dense.now).rows) part) }
{
    let mut point = Vec::with_capacity(alloc, columns)?;
    for column in 0..columns {
        point.push(column_value(dense, column))?;
    }
    Ok(point)
}

fn column_value(dense: &Dense, column: usize) -> Frac
    requires kept { IsKept dense.now }
    requires column { suc column < dense.now.width }
    requires pivotal { All (λ row. pos 0 <ℤ entry row row.basic) (seen dense.now).rows }
    ensures { IsBasicValue column (find (λ row. row.basic == column) (seen dense.now).rows) result }
{
    match index_of(&dense.basics, column) {
        Some(index) => Frac::reduced(dense.bound(index), dense.entry(index, column)),
        None => Frac::reduced(0, 1),
    }
}

fn index_of(basics: &[usize], column: usize) -> Option<usize>
    ensures { result ≡ position (λ basic. basic == column) basics.now }
{
    basics.iter().position(|basic| *basic == column)
}
