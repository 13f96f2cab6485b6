//! Laws of the definitions. Each function does nothing: its contract is the law.
ghost use Rattle.suit_linear.specs.Laws.{MultiplesLeaveAlike, MultiplesDivideBack, SmallPivotsAreMade};
ghost use Rattle.suit_linear.specs.Laws.{SumsAreExchanged, PricesOutweighPoints};

/// Where the rows of two tableaus are multiples of each other, one by one, the ratio test takes a
/// multiple of the same row.
pub fn multiples_leave_alike()
    ensures { MultiplesLeaveAlike }
{}

/// A multiple of numbers with no common divisor is divided back to them by its own.
pub fn multiples_divide_back()
    ensures { MultiplesDivideBack }
{}

/// Where all numbers of a tableau are small, its pivot makes none past 127 bits and a sign.
pub fn small_pivots_are_made()
    ensures { SmallPivotsAreMade }
{}

/// What the rows come to at a point is worth, at any prices, as much as what its columns take from
/// them: two sums are exchanged.
pub fn sums_are_exchanged()
    ensures { SumsAreExchanged }
{}

/// At feasible prices the objective of a point with no negative column is at most what its rows are
/// worth.
pub fn prices_outweigh_points()
    ensures { PricesOutweighPoints }
{}
