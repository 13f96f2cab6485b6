//! The plan that is read from the optimum of a support's program.
ghost use Rattle.std.specs.Prelude.{◌≡◌, IfErr, IfOk};
ghost use Rattle.suit_program.specs.declared.readings.plan_end.PlanEnd.TheVariants.{Memory};
ghost use Rattle.suit_program.specs.Supports.Marks.{support_seen};
ghost use Rattle.suit_program.specs.Readings.ReadingOfAnOptimum.{IsPlanCase};
ghost use Rattle.suit_program.specs.Readings.ReadingLaws.{plan_read};

use crate::walks::plan_reader::PlanReader;
use crate::walks::reach::Reach;
use crate::{PlanEnd, Support};
use std::alloc::Global;
use suit_linear::Optimum;
use suit_plans::{Plan, Row, Rows};
use suit_tree::Tree;

/// The plan that is read from an optimum, where its denominator is given, or want of memory.
pub(crate) fn optimum_plan(
    alloc: Global,
    tree: &Tree,
    support: &Support,
    optimum: &Optimum,
    den: i128,
) -> Result<Plan, PlanEnd>
    requires { IsPlanCase tree.now support.now optimum.now den }
    ensures read { IfOk result (λ plan. (case : IsPlanCase tree.now support.now optimum.now den)
        → plan ≡ plan_read case.question (support_seen case.question support.now) optimum.now) }
    ensures end { IfErr result (λ end. end ≡ Memory) }
{
    let parts = optimum.point.items();
    let reader = PlanReader { alloc, den, parts };
    let start = Reach::start(tree, support);
    let mut history = Vec::new(alloc);
    let mut rows = Vec::new(alloc);
    reader.below(&start, &mut history, 0, den, &mut rows)?;
    let rows = listed(rows)?;
    Ok(Plan { den, rows })
}

// The rows as a plan lists them. So many that they cannot be listed do not fit into memory.
fn listed(rows: Vec<Row>) -> Result<Rows, PlanEnd>
    ensures rows { IfOk result (λ listed. listed ≡ rows.items) }
    ensures end { IfErr result (λ end. end ≡ Memory) }
{
    if rows.len() > u32::MAX as usize {
        return Err(PlanEnd::Memory);
    }
    Ok(Rows::of(rows))
}
