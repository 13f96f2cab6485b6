//! What a verdict says: each law is the contract of an empty function.
ghost use Rattle.suit_check.specs.VerdictLaws.{FoundAreExact, ValidIsMet};

/// A verdict is Valid exactly where plan and defence are realisation plans and both numbers come to the value.
pub fn valid_is_met()
    ensures { ValidIsMet }
{}

/// The fraction that a verdict tells is in lowest terms, and it is the number of the plan or of the defence over the
/// denominator and the total weight.
pub fn found_are_exact()
    ensures { FoundAreExact }
{}
