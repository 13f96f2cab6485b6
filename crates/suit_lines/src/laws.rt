//! Laws of the lines of play: each is the contract of an empty function.
ghost use Rattle.suit_lines.specs.LineLaws.{ToldExactly, ToldInOrder};

/// A plan is told of exactly the class histories where declarer has a choice and some mass of the plan comes.
pub fn told_exactly()
    ensures { ToldExactly }
{}

/// They stand in the order of class histories.
pub fn told_in_order()
    ensures { ToldInOrder }
{}
