//! What is found of an answer.
use suit_num::Frac;
use suit_plans::PlanFault;

/// The verdict over an answer: that it is valid, or what is wrong with it first.
#[derive(Clone, Copy, Debug, PartialEq, Eq)]
pub enum Verdict {
    /// Plan and defence are realisation plans, and what the plan earns at least and what the defence gives up at most
    /// are both the value.
    Valid,
    /// The plan is no realisation plan.
    Plan(PlanFault),
    /// The defence is none.
    Defence(PlanFault),
    /// The plan does not earn just the value at least.
    Least {
        /// What it earns at least.
        found: Frac,
    },
    /// The defence does not give up just the value at most.
    Most {
        /// What it gives up at most.
        found: Frac,
    },
}
