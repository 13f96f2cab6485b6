//! Runs that were worked out apart from the definitions.
ghost use Rattle.suit_simplex.specs.Examples.{TwoColumnsBegin, TwoColumnsOnce, TwoColumnsTwice, TwoColumnsShort};
ghost use Rattle.suit_simplex.specs.Examples.{OneWideRow, TwoWideRows, NothingGained, TieBroken, Unlimited};

/// The first tableau of two columns and two rows.
pub fn two_columns_begin()
    ensures { TwoColumnsBegin }
{}

/// The tableau after its first pivot.
pub fn two_columns_once()
    ensures { TwoColumnsOnce }
{}

/// Two pivots are enough for it.
pub fn two_columns_twice()
    ensures { TwoColumnsTwice }
{}

/// One pivot is not.
pub fn two_columns_short()
    ensures { TwoColumnsShort }
{}

/// Wide numbers that are not multiplied stay in range.
pub fn one_wide_row()
    ensures { OneWideRow }
{}

/// Two wide rows are compared by products that are too wide.
pub fn two_wide_rows()
    ensures { TwoWideRows }
{}

/// Without a positive cost no pivot is made.
pub fn nothing_gained()
    ensures { NothingGained }
{}

/// A tie is broken by the lower basic column.
pub fn tie_broken()
    ensures { TieBroken }
{}

/// A program without a limit ends in a ray.
pub fn unlimited()
    ensures { Unlimited }
{}
