//! Plans of declarer.
ghost use Rattle.std.specs.Prelude.{◌≡◌, ◌≤◌, vec_len, length};

use super::Counts;
use std::marker::Model;
use suit_classes::History;

/// The largest denominator of a plan or a defence: 2^90.
pub const MOST_DEN: i128 = 1 << 90;

/// What the masses of a defence in all class layouts come to at most: 2^114, which is above the most deals times the
/// largest denominator.
pub const MOST_MASS: u128 = 1 << 114;

/// What the least of a proper plan and the most of a proper defence stay below: 2^118, which is above thirteen times
/// the most deals times the largest denominator.
pub const WORTH_BOUND: i128 = 1 << 118;

/// How declarer goes on from one class history.
#[derive(Debug, Drop)]
pub struct Row {
    /// The class history.
    pub history: History,
    /// How much of its mass each move gets.
    pub counts: Counts,
}

/// The rows of a plan, of which there are at most 4,294,967,295. Contracts see them as a list.
#[derive(Debug, Drop)]
pub struct Rows {
    items: Vec<Row>,
}

impl Model for Rows {
    ghost use Rattle.std.specs.Prelude.{List, ◌≤◌, vec_len};
    ghost use Rattle.suit_plans.specs.declared.plan.Row.{Row};

    ghost Value = { List Row };

    ghost view = { λ rows. rows.items.items };

    ghost invariant = { λ rows. vec_len rows.items ≤ 4294967295 };
}

impl Rows {
    /// The list of these rows.
    pub fn of(items: Vec<Row>) -> Rows
        requires { vec_len items ≤ 4294967295 }
        ensures { result ≡ items.items }
    {
        Rows { items }
    }

    /// The rows, in order.
    pub fn items(&self) -> &[Row]
        ensures value { result.now ≡ self.now }
        ensures few { length result.now ≤ 4294967295 }
    {
        &self.items
    }
}

/// A plan of declarer. It starts with a mass of `den`. A row shares out the mass that came to its class
/// history among declarer's moves there; where there is no row the first move gets all of it.
#[derive(Debug, Drop)]
pub struct Plan {
    /// The denominator of the plan, of which the masses are parts.
    pub den: i128,
    /// The rows. Those of a proper plan stand in the order of their histories.
    pub rows: Rows,
}
