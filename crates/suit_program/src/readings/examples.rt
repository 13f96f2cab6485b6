//! What the definitions come to on an example that was worked out apart from them: the ten cards facing the three.
ghost use Rattle.suit_program.specs.Readings.Examples.{FirstColumns, FirstProgram, FirstSize, SecondDefence};
ghost use Rattle.suit_program.specs.Readings.Examples.{SecondPlan};
ghost use Rattle.suit_program.specs.Readings.Examples.{SecondProgram, SecondSize, SecondWorth, TwosAreNew};

/// The columns of the first moves.
pub fn first_columns()
    ensures { FirstColumns }
{}

/// Their program.
pub fn first_program()
    ensures { FirstProgram }
{}

/// It has five rows and five columns.
pub fn first_size()
    ensures { FirstSize }
{}

/// The two twos of the defence are new once.
pub fn twos_are_new()
    ensures { TwosAreNew }
{}

/// The program with the twos.
pub fn second_program()
    ensures { SecondProgram }
{}

/// It has seven rows and five columns.
pub fn second_size()
    ensures { SecondSize }
{}

/// The plan that is read from its optimum.
pub fn second_plan()
    ensures { SecondPlan }
{}

/// The defence that is read from its prices.
pub fn second_defence()
    ensures { SecondDefence }
{}

/// What the game with the twos is worth.
pub fn second_worth()
    ensures { SecondWorth }
{}
