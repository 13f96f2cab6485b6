//! The test that a plan or a defence is a realisation plan.
ghost use Rattle.std.specs.Prelude.{◌≡◌, ◌&&◌, ◌≤◌, ◌≤ℤ◌, ◌^◌, int_le, length, pos, true};
ghost use Rattle.suit_game.specs.Validity.{IsValid};
ghost use Rattle.suit_plans.specs.declared.plan.TheConstants.{MOST_DEN};
ghost use Rattle.suit_plans.specs.Masses.{weight_of};
ghost use Rattle.suit_plans.specs.Orders.{InOrder, defence_row_before, plan_row_before};
ghost use Rattle.suit_plans.specs.Players.{AreOrdered, side_of};
ghost use Rattle.suit_plans.specs.Properness.{defence_row_fault, defence_verdict, last_passes, plan_row_fault};
ghost use Rattle.suit_plans.specs.Properness.{plan_verdict, row_fault};
ghost use Rattle.suit_game.specs.declared.limits.TheConstants.{MOST_MOVES, MOST_TOTAL};

use super::allowed::{allows, some_allows, undecided_place};
use super::lookup::is_row_before;
use super::order::history_is_before;
use super::player::Player;
use super::row_faults::shares_fault;
use super::{Counts, Defence, DefenceRow, MOST_DEN, Plan, PlanFault, PlanKind, Row};
use suit_classes::{ClassMove, Classes};
use suit_game::Question;
use suit_layouts::class_weight;

/// Whether a plan is a realisation plan of declarer's: the masses of class histories are not negative,
/// and at each of declarer's turns the moves share out exactly the mass that came to it. (The sequence
/// form of a game: von Stengel 1996.) It takes no memory.
///
/// # Errors
///
/// The first fault. The denominator is looked at before the rows, and these in order. The mass that a
/// row has to share out is what the rows before it let through, and the sum of its counts is that of
/// whole numbers of any size.
pub fn proper_plan(question: &Question, plan: &Plan) -> Result<(), PlanFault>
    requires { IsValid question.now }
    ensures { result ≡ plan_verdict question.now plan.now }
{
    if !is_den(plan.den) {
        return Err(PlanFault {
            kind: PlanKind::Den,
            row: 0,
        });
    }
    let rows = plan.rows.items();
    for index in 0..rows.len() {
        let fault = plan_row_fault(question, plan.den, &rows[..index], &rows[index]);
        if let Some(kind) = fault {
            return Err(PlanFault {
                kind,
                row: index as u32 + 1,
            });
        }
    }
    Ok(())
}

/// Whether a defence is a realisation plan in each class layout of positive weight: the masses of class
/// histories are not negative, and at each turn of a defender's the moves share out exactly the mass
/// that came to it. It takes no memory.
///
/// # Errors
///
/// The first fault, as for a plan; of a row it is asked first whether its class layout has a weight.
pub fn proper_defence(question: &Question, defence: &Defence) -> Result<(), PlanFault>
    requires { IsValid question.now }
    ensures { result ≡ defence_verdict question.now defence.now }
{
    if !is_den(defence.den) {
        return Err(PlanFault {
            kind: PlanKind::Den,
            row: 0,
        });
    }
    let rows = defence.rows.items();
    for index in 0..rows.len() {
        let fault = defence_row_fault(question, defence.den, &rows[..index], &rows[index]);
        if let Some(kind) = fault {
            return Err(PlanFault {
                kind,
                row: index as u32 + 1,
            });
        }
    }
    Ok(())
}

// Whether a number is from 1 to the largest denominator.
fn is_den(den: i128) -> bool
    ensures { result ≡ (int_le (pos 1) den && int_le den (MOST_DEN)) }
{
    1 <= den && den <= MOST_DEN
}

// What is wrong with a row of a plan after the rows before it.
fn plan_row_fault(question: &Question, den: i128, before: &[Row], row: &Row) -> Option<PlanKind>
    requires valid { IsValid question.now }
    requires order { InOrder plan_row_before before.now }
    ensures { result ≡ plan_row_fault question.now den before.now row.now }
{
    let history = row.history.items();
    if !some_allows(question, history) {
        return Some(PlanKind::History);
    }
    let player = Player::declarer(den, before);
    row_fault(
        question,
        &player,
        history,
        &row.counts,
        stands_after(before, row),
    )
}

// Whether a row of a plan stands after the last row before it.
fn stands_after(before: &[Row], row: &Row) -> bool
    ensures { result ≡ last_passes (λ last. plan_row_before last row.now) before.now }
{
    match before {
        [.., last] => history_is_before(last.history.items(), row.history.items()),
        [] => true,
    }
}

// What is wrong with a row of a defence after the rows before it.
fn defence_row_fault(
    question: &Question,
    den: i128,
    before: &[DefenceRow],
    row: &DefenceRow,
) -> Option<PlanKind>
    requires valid { IsValid question.now }
    requires den { (pos 1 ≤ℤ den) × (den ≤ℤ MOST_DEN) }
    requires order { InOrder defence_row_before before.now }
    ensures { result ≡ defence_row_fault question.now den before.now row.now }
{
    let counts = row.west.counts();
    let history = row.history.items();
    let weight = weight_of(question, counts);
    if weight == 0 {
        return Some(PlanKind::Layout);
    }
    if !allows(question, counts, history) {
        return Some(PlanKind::History);
    }
    let player = Player::defence(weight, den, before, counts);
    row_fault(
        question,
        &player,
        history,
        &row.counts,
        defence_stands_after(before, row),
    )
}

// Whether a row of a defence stands after the last row before it.
fn defence_stands_after(before: &[DefenceRow], row: &DefenceRow) -> bool
    ensures { result ≡ last_passes (λ last. defence_row_before last row.now) before.now }
{
    match before {
        [.., last] => is_row_before(last, row.west.counts(), row.history.items()),
        [] => true,
    }
}

// The weight of a class layout.
fn weight_of(question: &Question, counts: &[u8]) -> u64
    requires { IsValid question.now }
    ensures value { result ≡ weight_of question.now counts.now }
    ensures few { result ≤ MOST_TOTAL }
{
    class_weight(question, Classes::of(question).sizes().as_slice(), counts)
}

// What is wrong with a row of a side at a class history that is allowed, where it is told whether the
// row stands after the one before.
fn row_fault(
    question: &Question,
    player: &Player,
    history: &[ClassMove],
    shares: &Counts,
    ordered: bool,
) -> Option<PlanKind>
    requires order { AreOrdered player.now.rows }
    requires short { length history.now ≤ MOST_MOVES }
    ensures { result ≡ row_fault question.now (side_of player.now) history.now shares.now true ordered }
{
    let Some(place) = undecided_place(question, history) else {
        return Some(PlanKind::History);
    };
    if !player.plays(place.turn()) {
        return Some(PlanKind::History);
    }
    if !ordered {
        return Some(PlanKind::Order);
    }
    let legal = place.moves(player.counts);
    shares_fault(&legal, player.mass(question, history), shares.items())
}
