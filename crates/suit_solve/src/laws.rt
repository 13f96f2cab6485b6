//! Laws of fates: each is the contract of an empty function.
ghost use Rattle.suit_solve.specs.FateLaws.{AnswersAreShown, AnswersAreWritable, RoundsEnd, WholeSupportsFit};

/// The answer of a question shows its value: its plan earns that at least, and its defence lets declarer earn no more.
pub fn answers_are_shown()
    ensures { AnswersAreShown }
{}

/// The rounds end: each question has an answer, or one of four reasons why it has none.
pub fn rounds_end()
    ensures { RoundsEnd }
{}

/// An answer can be written.
pub fn answers_are_writable()
    ensures { AnswersAreWritable }
{}

/// No question is refused for the size of a program where that of all moves is not too large.
pub fn whole_supports_fit()
    ensures { WholeSupportsFit }
{}
