//! What the definitions of class layouts come to on examples that were worked out apart from them.
ghost use Rattle.suit_layouts.specs.Examples.{TwoApart, TwoTouching, NoneMissing, KingAndEight};

/// Two cards apart lie in four ways.
pub fn two_apart()
    ensures { TwoApart }
{}

/// Two touching cards make three class layouts.
pub fn two_touching()
    ensures { TwoTouching }
{}

/// No missing card makes one class layout.
pub fn none_missing()
    ensures { NoneMissing }
{}

/// A card apart from eight makes eighteen class layouts.
pub fn king_and_eight()
    ensures { KingAndEight }
{}
