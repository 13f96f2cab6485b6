//! The denominator of the plan that is read from the optimum of a support's program.
ghost use Rattle.std.specs.Prelude.{◌≡◌, IfErr, IfOk};
ghost use Rattle.suit_program.specs.Supports.Marks.{support_seen};
ghost use Rattle.suit_program.specs.Readings.ReadingOfAnOptimum.{IsEndOf, IsOptimumFor, IsPlanDen};

use crate::readings::denominators::common_den;
use crate::walks::columns::passed_columns;
use crate::{PlanEnd, Support};
use std::alloc::Global;
use suit_linear::Optimum;
use suit_plans::MOST_DEN;
use suit_tree::Tree;

/// The denominator of the plan that is read from an optimum, where neither it nor the defence's is too wide.
///
/// # Errors
///
/// `Wide` exactly where one of them is above `MOST_DEN`, but for want of memory, which is `Memory`.
pub(crate) fn plan_den(
    alloc: Global,
    tree: &Tree,
    support: &Support,
    optimum: &Optimum,
) -> Result<i128, PlanEnd>
    requires { IsOptimumFor tree.now support.now optimum.now }
    ensures den { IfOk result (λ den. (case : IsOptimumFor tree.now support.now optimum.now)
        → IsPlanDen case.question (support_seen case.question support.now) optimum.now den) }
    ensures end { IfErr result (λ end. (case : IsOptimumFor tree.now support.now optimum.now)
        → IsEndOf case.question (support_seen case.question support.now) optimum.now end) }
{
    if optimum.scale > MOST_DEN {
        return Err(PlanEnd::Wide);
    }
    let passed = passed_columns(alloc, tree, support)?;
    match common_den(optimum.point.items(), &passed) {
        Some(den) => Ok(den),
        None => Err(PlanEnd::Wide),
    }
}
