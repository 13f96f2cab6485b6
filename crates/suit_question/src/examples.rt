//! What the definitions of the question text come to on texts that were read apart from them.
ghost use Rattle.suit_question.specs.Examples.{EachKind, LineFaults, WholeFaults, Ends};

/// A text with each of the twelve kinds of fault.
pub fn each_kind()
    ensures { EachKind }
{}

/// Texts whose first fault is that of a line.
pub fn line_faults()
    ensures { LineFaults }
{}

/// Texts whose first fault is of the whole.
pub fn whole_faults()
    ensures { WholeFaults }
{}

/// Texts and where they end.
pub fn ends()
    ensures { Ends }
{}
