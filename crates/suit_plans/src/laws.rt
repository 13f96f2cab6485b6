//! Laws of the masses and of best replies: each is the contract of an empty function.
ghost use Rattle.suit_plans.specs.PlanLaws.{DefencesAreRealised, PlansAreRealised};
ghost use Rattle.suit_plans.specs.ReplyLaws.{DefencesArePaid, DefencesAtDecided, DefencesAtDeclarers};
ghost use Rattle.suit_plans.specs.ReplyLaws.{DefencesAtDefences, DefenceChoicesRise, LeastRepliesAreChoices};
ghost use Rattle.suit_plans.specs.ReplyLaws.{LeastRepliesAreFollowed, LeastRepliesAreReached, LeastRepliesRise};
ghost use Rattle.suit_plans.specs.ReplyLaws.{LeastsAreBounded, MostRepliesAreChoices, MostRepliesAreFollowed};
ghost use Rattle.suit_plans.specs.ReplyLaws.{MostRepliesAreReached, MostRepliesRise, MostsAreBounded};
ghost use Rattle.suit_plans.specs.ReplyLaws.{NoMassesAreWorthNothing, NoMassIsWorthNothing, PlanChoicesRise};
ghost use Rattle.suit_plans.specs.ReplyLaws.{PlansArePaid, PlansAtDecided, PlansAtDeclarers, PlansAtDefences};
ghost use Rattle.suit_plans.specs.ReplyLaws.{WorthsUnfold};

/// The masses of a proper plan are a realisation plan.
pub fn plans_are_realised()
    ensures { PlansAreRealised }
{}

/// The masses of a proper defence are a realisation plan in each class layout of positive weight.
pub fn defences_are_realised()
    ensures { DefencesAreRealised }
{}

/// What a class history of fewer than `MOST_MOVES` is worth to a reply is what its moves make of it.
pub fn worths_unfold()
    ensures { WorthsUnfold }
{}

/// Against a plan a decided class history is worth its payoff for the mass that came to it.
pub fn plans_at_decided()
    ensures { PlansAtDecided }
{}

/// At a turn of declarer's it is worth the sum over his class moves.
pub fn plans_at_declarers()
    ensures { PlansAtDeclarers }
{}

/// At a turn of a defender's it is worth the least of his class moves.
pub fn plans_at_defences()
    ensures { PlansAtDefences }
{}

/// Against a proper plan it is worth between nothing and thirteen tricks of the mass that came to it.
pub fn plans_are_paid()
    ensures { PlansArePaid }
{}

/// So it is worth nothing where no mass came to it.
pub fn no_mass_is_worth_nothing()
    ensures { NoMassIsWorthNothing }
{}

/// Against a defence a decided class history is worth its payoff for the masses that came to it.
pub fn defences_at_decided()
    ensures { DefencesAtDecided }
{}

/// At a turn of declarer's it is worth the most of the moves.
pub fn defences_at_declarers()
    ensures { DefencesAtDeclarers }
{}

/// At a turn of a defender's it is worth the sum over the moves.
pub fn defences_at_defences()
    ensures { DefencesAtDefences }
{}

/// Against a proper defence it is worth between nothing and thirteen tricks of the masses that came to it.
pub fn defences_are_paid()
    ensures { DefencesArePaid }
{}

/// So it is worth nothing where no mass came to it in any class layout.
pub fn no_masses_are_worth_nothing()
    ensures { NoMassesAreWorthNothing }
{}

/// What a proper plan earns at least is not negative, and below `WORTH_BOUND`.
pub fn leasts_are_bounded()
    ensures { LeastsAreBounded }
{}

/// What a proper defence lets declarer earn at most is not negative, and below `WORTH_BOUND`.
pub fn mosts_are_bounded()
    ensures { MostsAreBounded }
{}

/// Each entry of the best reply to a plan is a legal move of the defence's at a class history where it has a choice and
/// some mass comes.
pub fn least_replies_are_choices()
    ensures { LeastRepliesAreChoices }
{}

/// Each entry of the best reply to a defence is a legal move of declarer's at a class history where he has a choice and
/// some mass comes.
pub fn most_replies_are_choices()
    ensures { MostRepliesAreChoices }
{}

/// Some mass of a proper plan comes to each beginning of a class history where an entry of its best reply stands.
pub fn least_replies_are_reached()
    ensures { LeastRepliesAreReached }
{}

/// The defence's moves within that class history are the reply's: it names them, or there is no other move.
pub fn least_replies_are_followed()
    ensures { LeastRepliesAreFollowed }
{}

/// Some mass of a proper defence comes, in some class layout, to each beginning of a class history where an entry of
/// its
/// best reply stands.
pub fn most_replies_are_reached()
    ensures { MostRepliesAreReached }
{}

/// Declarer's moves within that class history are the reply's: it names them, or there is no other move.
pub fn most_replies_are_followed()
    ensures { MostRepliesAreFollowed }
{}

/// The choices against a plan in a class layout stand in the order of their class histories.
pub fn plan_choices_rise()
    ensures { PlanChoicesRise }
{}

/// The choices against a defence stand in the order of their class histories.
pub fn defence_choices_rise()
    ensures { DefenceChoicesRise }
{}

/// The entries of the best reply to a plan stand in order: by class layouts, and then by class histories.
pub fn least_replies_rise()
    ensures { LeastRepliesRise }
{}

/// The entries of the best reply to a defence stand in the order of their class histories.
pub fn most_replies_rise()
    ensures { MostRepliesRise }
{}
