//! What the lifts give on examples that were worked out by hand.
ghost use Rattle.suit_lift.specs.Examples.{AllCountsZero, KingFirst, LeadsFromBoth, PastDecided, QueenOrJack};
ghost use Rattle.suit_lift.specs.Examples.{ShowingOut, TwoClassesOfTwo};

/// With no rows North plays the lower of his first class, the ace and the king.
pub fn king_first()
    ensures { KingFirst }
{}

/// With no rows East plays the queen and the jack alike.
pub fn queen_or_jack()
    ensures { QueenOrJack }
{}

/// A row divides the counts of two classes of two cards each.
pub fn two_classes_of_two()
    ensures { TwoClassesOfTwo }
{}

/// Where all counts of a row are 0, the first class counts 1.
pub fn all_counts_zero()
    ensures { AllCountsZero }
{}

/// Showing out is alone.
pub fn showing_out()
    ensures { ShowingOut }
{}

/// At a lead a plan names classes of one hand apart from those of the other.
pub fn leads_from_both()
    ensures { LeadsFromBoth }
{}

/// Past a decided position the first class of the legal moves counts 1.
pub fn past_decided()
    ensures { PastDecided }
{}
