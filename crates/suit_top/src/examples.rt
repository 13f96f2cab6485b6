//! What some runs owe, by the definitions, on texts that were read apart from them; and the limits, as numbers.
ghost use Rattle.suit_top.specs.Examples.{Limits, Refused, Weighed};

/// A text of `weigh`.
pub fn weighed()
    ensures { Weighed }
{}

/// Statuses without the text that the command is for.
pub fn refused()
    ensures { Refused }
{}

/// The limits of the program, as numbers.
pub fn limits()
    ensures { Limits }
{}
