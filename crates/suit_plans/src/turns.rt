//! Whose turn it is, and which move is the first.
ghost use Rattle.std.specs.Prelude.{◌≡◌};
ghost use Rattle.suit_plans.specs.Masses.{is_declarers, is_defences, is_first};

use suit_classes::{ClassMove, ClassTurn};

/// Whether declarer is on turn.
pub fn is_declarers(turn: ClassTurn) -> bool
    ensures { result ≡ is_declarers turn }
{
    match turn {
        ClassTurn::Lead | ClassTurn::Declarer(_) => true,
        ClassTurn::Defence(_) | ClassTurn::Decided => false,
    }
}

/// Whether a defender is.
pub fn is_defences(turn: ClassTurn) -> bool
    ensures { result ≡ is_defences turn }
{
    match turn {
        ClassTurn::Defence(_) => true,
        ClassTurn::Lead | ClassTurn::Declarer(_) | ClassTurn::Decided => false,
    }
}

/// Whether a move is the first of some.
pub fn is_first(moves: &[ClassMove], mv: ClassMove) -> bool
    ensures { result ≡ is_first moves.now mv }
{
    match moves {
        [first, ..] => first.is_same(mv),
        [] => false,
    }
}
