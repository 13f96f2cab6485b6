//! One side of the play with its rows, and the mass that they let through.
ghost use Rattle.std.specs.Prelude.{◌≡◌, ◌≤◌, ◌≤ℤ◌, ◌^◌, length, option_map, pos};
ghost use Rattle.suit_classes.specs.ClassPlaces.{class_after};
ghost use Rattle.suit_game.specs.declared.question.Question.{Question};
ghost use Rattle.suit_plans.specs.declared.plan.TheConstants.{MOST_DEN};
ghost use Rattle.suit_plans.specs.Masses.{declarer, defenders, mass_of, let_through, weight_of};
ghost use Rattle.suit_plans.specs.Orders.{InOrder, defence_row_before, plan_row_before};
ghost use Rattle.suit_plans.specs.Players.{AreOrdered, side_of};
ghost use Rattle.suit_game.specs.declared.limits.TheConstants.{MOST_MOVES, MOST_TOTAL};

use super::turns::{is_declarers, is_defences, is_first};
use super::{Counts, DefenceRow, Row, defence_shares_at, plan_shares_at, share};
use suit_classes::{ClassMove, ClassPlace, ClassTurn, Classes};
use suit_game::Question;

/// The rows by which a side plays.
#[derive(Clone, Copy)]
pub(crate) enum PlayerRows<'a> {
    Declarer(&'a [Row]),
    Defence(&'a [DefenceRow]),
}

/// One side with its rows.
#[derive(Clone, Copy)]
pub(crate) struct Player<'a> {
    pub(crate) rows: PlayerRows<'a>,
    // West's counts, which declarer does not see.
    pub(crate) counts: &'a [u8],
    // The mass of the empty history.
    pub(crate) whole: i128,
}

impl<'a> Player<'a> {
    /// Declarer with the rows of a plan.
    pub(crate) fn declarer(den: i128, rows: &'a [Row]) -> Player<'a>
        requires { InOrder plan_row_before rows.now }
        ensures side { side_of result ≡ declarer den rows.now }
        ensures order { AreOrdered result.rows }
    {
        Player {
            rows: PlayerRows::Declarer(rows),
            counts: &[],
            whole: den,
        }
    }

    /// The defence with the rows of a defence, in one class layout, of which the weight is given.
    pub(crate) fn defence(
        weight: u64,
        den: i128,
        rows: &'a [DefenceRow],
        counts: &'a [u8],
    ) -> Player<'a>
        requires weight { weight ≤ MOST_TOTAL }
        requires den { (pos 1 ≤ℤ den) × (den ≤ℤ MOST_DEN) }
        requires order { InOrder defence_row_before rows.now }
        ensures side { (question : Question) → weight ≡ weight_of question counts.now
            → side_of result ≡ defenders question den rows.now counts.now }
        ensures order { AreOrdered result.rows }
    {
        Player {
            rows: PlayerRows::Defence(rows),
            counts,
            whole: weight as i128 * den,
        }
    }

    /// Whether it is on turn.
    pub(crate) fn plays(&self, turn: ClassTurn) -> bool
        ensures { result ≡ (side_of self.now).plays turn }
    {
        match self.rows {
            PlayerRows::Declarer(_) => is_declarers(turn),
            PlayerRows::Defence(_) => is_defences(turn),
        }
    }

    // The shares of its row at a class history, if it has one there.
    fn shares_at(&self, history: &[ClassMove]) -> Option<&'a Counts>
        requires { AreOrdered self.now.rows }
        ensures { option_map (λ shares. shares.now) result ≡ (side_of self.now).shares_at history.now }
    {
        match self.rows {
            PlayerRows::Declarer(rows) => plan_shares_at(rows, history),
            PlayerRows::Defence(rows) => defence_shares_at(rows, self.counts, history),
        }
    }

    // The mass that goes on with a move from the class history of a place.
    fn let_through(
        &self,
        place: &ClassPlace,
        history: &[ClassMove],
        mass: i128,
        mv: ClassMove,
    ) -> i128
        requires { AreOrdered self.now.rows }
        ensures { (question : Question) → place.now ≡ class_after question history.now
            → result ≡ let_through question (side_of self.now) history.now mass mv }
    {
        if !self.plays(place.turn()) {
            return mass;
        }
        share(
            self.shares_at(history),
            is_first(&place.moves(self.counts), mv),
            mass,
            mv,
        )
    }

    /// The mass of a class history, which has at most `MOST_MOVES`.
    pub(crate) fn mass(&self, question: &Question, history: &[ClassMove]) -> i128
        requires ordered { AreOrdered self.now.rows }
        requires short { length history.now ≤ MOST_MOVES }
        ensures { result ≡ mass_of question.now (side_of self.now) history.now }
    {
        let mut place = ClassPlace::start(question, &Classes::of(question));
        let mut mass = self.whole;
        for index in 0..history.len() {
            mass = self.let_through(&place, &history[..index], mass, history[index]);
            place = place.step(history[index]);
        }
        mass
    }
}
