//! Laws of the weights: each is the contract of an empty function.
ghost use Rattle.suit_game.specs.Weights.{ChoicesCounted, ChoicesSummed, ChoicesFilled, TotalOfAll, TotalAtMost};

/// As many choices of a list of cards have so many cards as the binomial says.
pub fn choices_counted()
    ensures { ChoicesCounted }
{}

/// What depends on the number of cards alone is summed over all choices by their numbers of cards.
pub fn choices_summed()
    ensures { ChoicesSummed }
{}

/// To choose some of the cards and then the rest among other things is to choose among all.
pub fn choices_filled()
    ensures { ChoicesFilled }
{}

/// Where West's range leaves no length out, the total is the number of ways to choose West's
/// vacant places among all.
pub fn total_of_all()
    ensures { TotalOfAll }
{}

/// No valid question's total is above 10400600.
pub fn total_at_most()
    ensures { TotalAtMost }
{}
