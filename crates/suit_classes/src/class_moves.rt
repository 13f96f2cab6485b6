//! The moves of the class game.
ghost use Rattle.std.specs.Prelude.{◌≡◌};
ghost use Rattle.suit_classes.specs.WhatIsAllowed.{is_among};
ghost use Rattle.suit_classes.specs.ClassMoves.{same_class_move};

use suit_cards::Seat;

/// A move told by the class of its card alone. They are ordered: the leads of North, the leads of
/// South, the follows, each with class numbers rising, and last showing out.
#[derive(Clone, Copy, Debug, PartialEq, Eq, PartialOrd, Ord)]
pub enum ClassMove {
    /// Declarer leads a card of a class from North's or South's hand.
    Lead {
        /// The hand that leads.
        seat: Seat,
        /// The class of the card led.
        class: u8,
    },
    /// The hand on turn follows with a card of a class.
    Follow {
        /// The class of the card played.
        class: u8,
    },
    /// The hand on turn has no card of the suit.
    ShowOut,
}

impl Default for ClassMove {
    ghost use Rattle.std.specs.Prelude.{◌≡◌};
    ghost use Rattle.suit_classes.specs.declared.class_moves.ClassMove.TheVariants.{ShowOut};

    ghost is_default = { λ mv. mv ≡ ShowOut };

    /// Showing out, for lists of fixed length that want some value.
    fn default() -> ClassMove {
        ClassMove::ShowOut
    }
}

impl ClassMove {
    /// Whether both are the same move.
    pub fn is_same(self, other: ClassMove) -> bool
        ensures { result ≡ same_class_move self other }
    {
        self == other
    }
}

/// Whether a move is among some.
pub fn is_among(moves: &[ClassMove], mv: ClassMove) -> bool
    ensures { result ≡ is_among moves.now mv }
{
    moves.contains(&mv)
}
