//! The run of the simplex.
ghost use Rattle.std.specs.Prelude.{◌≡◌, ℕ, suc, ◌+◌, ℤ, pos, ◌<ℤ◌, length, All, IfOk, IfSome, MatchResult};
ghost use Rattle.suit_linear.specs.declared.ends.SimplexEnd.TheVariants as ends;
ghost use Rattle.suit_linear.specs.Programs.{IsWellFormed, IsBounded};
ghost use Rattle.suit_linear.specs.Sparse.{dense};
ghost use Rattle.suit_linear.specs.Tableaus.{entry};
ghost use Rattle.suit_linear.specs.Runs.{run_end};
ghost use Rattle.suit_linear.specs.Ends.{IsOptimumOf, Tells};
ghost use Rattle.suit_linear.specs.Optima.{IsPrimalOptimum, IsDualOptimum};
ghost use Rattle.suit_simplex.specs.Dense.{seen, IsKept, CanAdvance, Advances};

use super::dense::Dense;
use super::first::first_dense;
use super::reading::read_optimum;
use super::row::TooWide;
use super::sparse::sparse_program;
use super::{Optimum, Program, SimplexEnd, SparseProgram};
use std::alloc::{AllocError, Global};
use suit_linear_fast::fast;

// How far one step takes the run.
pub(crate) enum Progress {
    // No column enters.
    Last,
    Pivoted,
}

// One step of the run. The error comes where a number of the pivot is too wide, and then nothing is
// said of the tableau.
fn advance(dense: &mut Dense) -> Result<Progress, TooWide>
    requires kept { IsKept dense.old }
    requires can { CanAdvance dense.old }
    ensures { Advances result dense.old dense.new }
{
    let Some(column) = dense.entering() else {
        return Ok(Progress::Last);
    };
    let Some(index) = dense.leaving(column)? else {
        unreachable!();
    };
    dense.pivot(column, index)?;
    Ok(Progress::Pivoted)
}

/// The optimum of a bounded program, by the simplex with Bland's rule (R. G. Bland, "New finite
/// pivoting rules for the simplex method", 1977): the lowest-numbered column that improves the
/// objective enters, and among the rows of least ratio that of the lowest-numbered basic column
/// leaves. All numbers are whole, exact, and of at most 127 bits and a sign.
///
/// Where numbers stay small the run is made without a tableau; else it is made again from the first
/// one, with every number.
///
/// The error `Pivots` comes exactly where a column would still enter after `pivots` pivots, and
/// `Wide` exactly at the first pivot that makes a number past 127 bits and a sign. `Memory` may come
/// in place of any answer.
pub fn optimum(alloc: Global, program: &Program, pivots: u32) -> Result<Optimum, SimplexEnd>
    requires formed { IsWellFormed program.now }
    requires bounded { IsBounded program.now }
    ensures run { Tells program.now (run_end program.now pivots) result }
    ensures primal { IfOk result (IsPrimalOptimum program.now) }
    ensures dual { IfOk result (IsDualOptimum program.now) }
{
    if let Some(end) = quick(alloc, program, pivots)? {
        return end;
    }
    plain(alloc, program, pivots)
}

// The end of the run where numbers stay small.
fn quick(
    alloc: Global,
    program: &Program,
    pivots: u32,
) -> Result<Option<Result<Optimum, SimplexEnd>>, AllocError>
    requires { IsWellFormed program.now }
    ensures { IfOk result (λ answer. IfSome answer (Tells program.now (run_end program.now pivots))) }
{
    let Some(sparse) = sparse_program(alloc, program)? else {
        return Ok(None);
    };
    fast(alloc, &sparse, pivots)
}

// The run with every number.
fn plain(alloc: Global, program: &Program, pivots: u32) -> Result<Optimum, SimplexEnd>
    requires formed { IsWellFormed program.now }
    requires bounded { IsBounded program.now }
    ensures run { Tells program.now (run_end program.now pivots) result }
    ensures primal { IfOk result (IsPrimalOptimum program.now) }
    ensures dual { IfOk result (IsDualOptimum program.now) }
{
    let mut tableau = first_dense(alloc, program)?;
    for made in 0..pivots {
        match advance(&mut tableau) {
            Ok(Progress::Pivoted) => {}
            Ok(Progress::Last) => return Ok(read_optimum(alloc, program, &tableau)?),
            Err(TooWide) => return Err(SimplexEnd::Wide { pivot: made + 1 }),
        }
    }
    if tableau.entering().is_some() {
        return Err(SimplexEnd::Pivots);
    }
    Ok(read_optimum(alloc, program, &tableau)?)
}

/// The optimum of the program that a sparse one means, as `optimum` finds it.
pub fn sparse_optimum(
    alloc: Global,
    program: &SparseProgram,
    pivots: u32,
) -> Result<Optimum, SimplexEnd>
    requires formed { IsWellFormed (dense program.now) }
    requires bounded { IsBounded (dense program.now) }
    ensures run { Tells (dense program.now) (run_end (dense program.now) pivots) result }
    ensures primal { IfOk result (IsPrimalOptimum (dense program.now)) }
    ensures dual { IfOk result (IsDualOptimum (dense program.now)) }
{
    if let Some(end) = fast(alloc, program, pivots)? {
        return end;
    }
    let whole = program.dense(alloc)?;
    plain(alloc, &whole, pivots)
}
