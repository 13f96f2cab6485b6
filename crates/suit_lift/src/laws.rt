//! Laws of the lifts: each is the contract of an empty function.
ghost use Rattle.suit_lift.specs.Certified.{MetIsCertified, OneCertifiedValue, OneValue};
ghost use Rattle.suit_lift.specs.FullLists.{DefencesAreLists, PlansAreLists};
ghost use Rattle.suit_lift.specs.Naming.{LayoutShare, LayoutsNamed, NamingLaw};
ghost use Rattle.suit_lift.specs.LiftLaws.{DefenceWeightsAreShares, DefencesHold, PlanWeightsAreShares, PlansEarn};
ghost use Rattle.suit_lift.specs.LiftLaws.{PlansPay};

/// The weight of a move in the lift of a plan stands to the common multiple as its count to the cards among which it is
/// divided.
pub fn plan_weights_are_shares()
    ensures { PlanWeightsAreShares }
{}

/// And so it does in the lift of a defence, at a turn of the defence.
pub fn defence_weights_are_shares()
    ensures { DefenceWeightsAreShares }
{}

/// After each legal history the lift of a plan pays at least what its class history is worth against the best reply.
pub fn plans_pay()
    ensures { PlansPay }
{}

/// A plan earns at least its least, also against defenders who tell touching cards apart.
pub fn plans_earn()
    ensures { PlansEarn }
{}

/// The layouts of a class layout that allow a history, counted by held and unplayed numbers.
pub fn layouts_named()
    ensures { LayoutsNamed }
{}

/// What the lift of a defence names one layout with by its play.
pub fn layout_share()
    ensures { LayoutShare }
{}

/// The layouts of a class layout that allow a history are named together by the mass that came to its class history.
pub fn naming_law()
    ensures { NamingLaw }
{}

/// A defence holds declarer to at most its most, also where he tells touching cards apart.
pub fn defences_hold()
    ensures { DefencesHold }
{}

/// A value that is both the least of a plan and the most of a defence is certified by them.
pub fn met_is_certified()
    ensures { MetIsCertified }
{}

/// Any two pairs of ways of single cards that settle a question settle it at one value.
pub fn one_value()
    ensures { OneValue }
{}

/// No question has two certified values.
pub fn one_certified_value()
    ensures { OneCertifiedValue }
{}

/// The lift of each plan has the pays of a full list of rows.
pub fn plans_are_lists()
    ensures { PlansAreLists }
{}

/// The lift of each defence has the pays of a full list of rows.
pub fn defences_are_lists()
    ensures { DefencesAreLists }
{}
