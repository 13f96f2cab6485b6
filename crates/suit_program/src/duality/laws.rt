//! Laws of plans, defences and programs: each is the contract of an empty function.
ghost use Rattle.suit_program.specs.Duality.{MeetingsLieBetween, WeakDuality};
ghost use Rattle.suit_program.specs.Programs.ProgramLaws.{ColumnsAreGiven, ColumnsComeOnce, CostsTell};
ghost use Rattle.suit_program.specs.Programs.ProgramLaws.{ProgramsAreBounded};
ghost use Rattle.suit_program.specs.Programs.ProgramLaws.{PricesAreNamed, ProgramsAreWellFormed, RowsComeOnce};
ghost use Rattle.suit_program.specs.Programs.ProgramLaws.{RowsTell};
ghost use Rattle.suit_program.specs.Readings.ReadingLaws.{MassesAreRead, ReadDefencesAreProper};
ghost use Rattle.suit_program.specs.Readings.ReadingLaws.{ReadDefencesHoldTheWorth};
ghost use Rattle.suit_program.specs.Readings.ReadingLaws.{ReadPlansAreProper, ReadPlansKeepTheWorth};
ghost use Rattle.suit_program.specs.Readings.ReadingLaws.{SupportedRepliesMeet};
ghost use Rattle.suit_program.specs.Readings.ReadingLaws.{SupportsGrow, WholeSupportsMeet};

/// What a proper plan and a proper defence earn when they meet lies between what each promises.
pub fn meetings_lie_between()
    ensures { MeetingsLieBetween }
{}

/// A proper plan promises no more than a proper defence allows.
pub fn weak_duality()
    ensures { WeakDuality }
{}

/// A row of a support's program says how the play of the support keeps within it.
pub fn rows_tell()
    ensures { RowsTell }
{}

/// The objective says what the play is worth.
pub fn costs_tell()
    ensures { CostsTell }
{}

/// Every support's program is well formed.
pub fn programs_are_well_formed()
    ensures { ProgramsAreWellFormed }
{}

/// And bounded.
pub fn programs_are_bounded()
    ensures { ProgramsAreBounded }
{}

/// No column of a program comes twice.
pub fn columns_come_once()
    ensures { ColumnsComeOnce }
{}

/// Nor does a row.
pub fn rows_come_once()
    ensures { RowsComeOnce }
{}

/// A point gives each column the number that stands in its place.
pub fn columns_are_given()
    ensures { ColumnsAreGiven }
{}

/// And the price of a row of the defence is the one in its place.
pub fn prices_are_named()
    ensures { PricesAreNamed }
{}

/// The plan that is read from a point lets through at least what the point does.
pub fn masses_are_read()
    ensures { MassesAreRead }
{}

/// The plan that is read from an optimum is proper.
pub fn read_plans_are_proper()
    ensures { ReadPlansAreProper }
{}

/// Where a support has all moves of the best reply to it, it earns at least what the game of the support is worth.
pub fn read_plans_keep_the_worth()
    ensures { ReadPlansKeepTheWorth }
{}

/// The defence that is read from an optimum is proper.
pub fn read_defences_are_proper()
    ensures { ReadDefencesAreProper }
{}

/// Where a support has all moves of the best reply to it, it lets declarer earn no more than what the game of the
/// support is worth.
pub fn read_defences_hold_the_worth()
    ensures { ReadDefencesHoldTheWorth }
{}

/// Where a support has all moves of both replies, both numbers are what the game of the support is worth.
pub fn supported_replies_meet()
    ensures { SupportedRepliesMeet }
{}

/// So it is with the support of all moves.
pub fn whole_supports_meet()
    ensures { WholeSupportsMeet }
{}

/// Where the numbers differ, one of the replies has a move that the support has not.
pub fn supports_grow()
    ensures { SupportsGrow }
{}
