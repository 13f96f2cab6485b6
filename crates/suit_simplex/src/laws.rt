//! Laws of the definitions. Each function does nothing: its contract is the law.
ghost use Rattle.suit_simplex.specs.Laws.{BoundedRunsMeetNoRay, FractionsHaveACommonDenominator};
ghost use Rattle.suit_simplex.specs.Laws.{LastTableausHaveOneOptimum, RunsEndInOneWay};

/// Where the objective has a limit, an entering column always has a row to leave.
pub fn bounded_runs_meet_no_ray()
    ensures { BoundedRunsMeetNoRay }
{}

/// The columns of a point have a denominator in common, so that what holds over each of them holds
/// of the point.
pub fn fractions_have_a_common_denominator()
    ensures { FractionsHaveACommonDenominator }
{}

/// The last tableau of a run holds one optimum only.
pub fn last_tableaus_have_one_optimum()
    ensures { LastTableausHaveOneOptimum }
{}

/// So the answer is a function of the program and the budget, but for want of memory.
pub fn runs_end_in_one_way()
    ensures { RunsEndInOneWay }
{}
