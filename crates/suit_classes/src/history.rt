//! Histories of the class game.
ghost use Rattle.std.specs.Prelude.{◌≡◌};

use super::ClassMove;
use std::marker::Model;

/// A history of class moves, the first move first. Contracts see it as the list of its moves.
#[derive(Debug, Drop)]
pub struct History {
    moves: Vec<ClassMove>,
}

impl Model for History {
    ghost use Rattle.std.specs.Prelude.{List};
    ghost use Rattle.suit_classes.specs.declared.class_moves.ClassMove.{ClassMove};

    ghost Value = { List ClassMove };

    ghost view = { λ history. history.moves.items };
}

impl History {
    /// The history of these moves.
    pub fn of(items: Vec<ClassMove>) -> History
        ensures { result ≡ items.items }
    {
        History { moves: items }
    }

    /// The moves, the first one first.
    pub fn items(&self) -> &[ClassMove]
        ensures { result.now ≡ self.now }
    {
        self.moves.as_slice()
    }
}
