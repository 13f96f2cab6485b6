//! Plans of the defence.
ghost use Rattle.std.specs.Prelude.{◌≡◌, ◌≤◌, vec_len, length};

use super::Counts;
use std::marker::Model;
use suit_classes::History;
use suit_layouts::ClassLayout;

/// How the defence goes on from one class history in one class layout.
#[derive(Debug, Drop)]
pub struct DefenceRow {
    /// The class layout.
    pub west: ClassLayout,
    /// The class history.
    pub history: History,
    /// How much of its mass each move gets.
    pub counts: Counts,
}

/// The rows of a defence, of which there are at most 4,294,967,295. Contracts see them as a list.
#[derive(Debug, Drop)]
pub struct DefenceRows {
    items: Vec<DefenceRow>,
}

impl Model for DefenceRows {
    ghost use Rattle.std.specs.Prelude.{List, ◌≤◌, vec_len};
    ghost use Rattle.suit_plans.specs.declared.defence.DefenceRow.{DefenceRow};

    ghost Value = { List DefenceRow };

    ghost view = { λ rows. rows.items.items };

    ghost invariant = { λ rows. vec_len rows.items ≤ 4294967295 };
}

impl DefenceRows {
    /// The list of these rows.
    pub fn of(items: Vec<DefenceRow>) -> DefenceRows
        requires { vec_len items ≤ 4294967295 }
        ensures { result ≡ items.items }
    {
        DefenceRows { items }
    }

    /// The rows, in order.
    pub fn items(&self) -> &[DefenceRow]
        ensures value { result.now ≡ self.now }
        ensures few { length result.now ≤ 4294967295 }
    {
        &self.items
    }
}

/// A plan of the defence, which sees the layout. In each class layout it starts with a mass of `den` for
/// each unit of the layout's weight. A row shares out the mass that came to its class history in its
/// class layout among the defender's moves there; where there is no row the first move gets all of it.
#[derive(Debug, Drop)]
pub struct Defence {
    /// The denominator of the defence, of which the masses are parts.
    pub den: i128,
    /// The rows. Those of a proper defence stand in the order of their class layouts, and for each in
    /// that of their histories.
    pub rows: DefenceRows,
}
