//! The plan and the defence that are read from the optimum of a support's program.
ghost use Rattle.std.specs.Prelude.{◌≡◌, IfErr, IfOk};
ghost use Rattle.suit_program.specs.Readings.ReadingOfAnOptimum.{AreRead, IsEndOf, IsOptimumFor};
ghost use Rattle.suit_program.specs.Supports.Marks.{support_seen};

use crate::readings::plan_den::plan_den;
use crate::readings::plan_of_optimum::optimum_plan;
use crate::walks::defence_walk::read_defence;
use crate::{PlanEnd, Support};
use std::alloc::Global;
use suit_linear::Optimum;
use suit_plans::{Defence, Plan};
use suit_tree::Tree;

pub(crate) mod denominators;
pub mod examples;
pub(crate) mod plan_den;
pub(crate) mod plan_end;
pub(crate) mod plan_of_optimum;
pub(crate) mod sharing;

/// The plan and the defence that are read from the optimum of a support's program. The plan's denominator is the least
/// common multiple of the denominators of declarer's columns; where his counts add up to less than their mass, the rest
/// is on the first move. The defence's denominator is the scale, and its counts are the prices of its rows; where they
/// add up to more than their mass, the excess is cut from the last move upwards. A class history has a row only where
/// some mass comes to it that is not all on the first move, and no count in a row is 0.
///
/// # Errors
///
/// `Wide` exactly where one of the denominators is above `MOST_DEN`, but for want of memory, which is `Memory`.
pub fn plans_of(
    alloc: Global,
    tree: &Tree,
    support: &Support,
    optimum: &Optimum,
) -> Result<(Plan, Defence), PlanEnd>
    requires { IsOptimumFor tree.now support.now optimum.now }
    ensures read { IfOk result (λ read. (case : IsOptimumFor tree.now support.now optimum.now)
        → AreRead case.question (support_seen case.question support.now) optimum.now read.0 read.1) }
    ensures end { IfErr result (λ end. (case : IsOptimumFor tree.now support.now optimum.now)
        → IsEndOf case.question (support_seen case.question support.now) optimum.now end) }
{
    let den = plan_den(alloc, tree, support, optimum)?;
    let plan = optimum_plan(alloc, tree, support, optimum, den)?;
    let defence = read_defence(alloc, tree, support, optimum.duals.items(), optimum.scale)?;
    Ok((plan, defence))
}
