//! What the definitions of the class game come to on examples that were worked out apart from them.
ghost use Rattle.suit_classes.specs.Examples.{ClassesOfTenCards, CountsInATenace, DecidedInATenace};
ghost use Rattle.suit_classes.specs.Examples.{DefenceOfElevenCards, MergedHistory, MovesOnce};

/// All but the king and the two, facing the three: five classes.
pub fn classes_of_ten_cards()
    ensures { ClassesOfTenCards }
{}

/// The king and the queen are the defenders' only class.
pub fn defence_of_eleven_cards()
    ensures { DefenceOfElevenCards }
{}

/// West's counts in the defenders' classes.
pub fn counts_in_a_tenace()
    ensures { CountsInATenace }
{}

/// A trick of single cards, and what it merges to.
pub fn merged_history()
    ensures { MergedHistory }
{}

/// The merges of legal moves, each once.
pub fn moves_once()
    ensures { MovesOnce }
{}

/// A goal that is met, out of reach, or open.
pub fn decided_in_a_tenace()
    ensures { DecidedInATenace }
{}
