//! How plans and defences over classes play single cards.
ghost use Rattle.std.specs.Prelude.{◌≡◌, ◌<◌, ◌≤◌, [], false, length, map, option_map, true};
ghost use Rattle.suit_cards.specs.Cards.{Cards};
ghost use Rattle.suit_game.specs.declared.question.Question.{Question};
ghost use Rattle.suit_game.specs.Gains.{is_declarer_turn};
ghost use Rattle.suit_game.specs.Histories.{History};
ghost use Rattle.suit_game.specs.Layouts.{weight};
ghost use Rattle.suit_game.specs.PlaceViews.{IsAt, IsPlay};
ghost use Rattle.suit_game.specs.Positions.{legal};
ghost use Rattle.suit_plans.specs.Properness.{IsProperDefence, IsProperPlan};
ghost use Rattle.suit_lift.specs.Lifts.{defence_share, even_share, lowest_share, plan_share};
ghost use Rattle.suit_game.specs.declared.limits.TheConstants.{HAND_SIZE};

use super::CardShare;
use super::class_shares::class_share;
use super::merges::{counts_of, how_often, is_lowest, merge, merged};
use arrayvec::ArrayVec;
use suit_cards::Holding;
use suit_classes::Classes;
use suit_game::{Move, Place, Question, Turn};
use suit_plans::{Counts, Defence, Plan, defence_shares_at, plan_shares_at};

/// What a plan gives to each legal move of declarer's, in their order: the lowest card of each class
/// in each hand has the class's count, and every other card 0. Where the plan has no row at the
/// merged history, or all its counts are 0, the first class move counts 1.
pub fn card_weights(
    question: &Question,
    plan: &Plan,
    history: &[Move],
    place: &Place,
) -> ArrayVec<CardShare, 13>
    requires proper { IsProperPlan question.now plan.now }
    requires play { (west : Cards) × IsPlay question.now west history.now }
    requires at { IsAt question.now history.now place.now }
    requires turn { is_declarer_turn place.now.trick ≡ true }
    ensures { result.items ≡ map (plan_share question.now plan.now history.now) (legal question.now [] history.now) }
{
    let classes = Classes::of(question);
    let line = merged(&classes, history);
    let row = plan_shares_at(plan.rows.items(), line.as_slice());
    let moves = declarers_moves(place);
    lowest_shares(&classes, row, moves.as_slice())
}

/// What a defence gives to each legal move of the defender on turn where West was dealt the cards
/// `west`, in their order: each card held has the count of its class, among as many as the held cards
/// of that class. Where the defence has no row for the layout at the merged history, or all its counts
/// are 0, the first class move counts 1.
pub fn defence_weights(
    question: &Question,
    defence: &Defence,
    west: Holding,
    history: &[Move],
    place: &Place,
) -> ArrayVec<CardShare, 13>
    requires proper { IsProperDefence question.now defence.now }
    requires weighs { 0 < weight question.now (length west) }
    requires play { IsPlay question.now west history.now }
    requires at { IsAt question.now history.now place.now }
    requires turn { is_declarer_turn place.now.trick ≡ false }
    ensures { result.items
        ≡ map (defence_share question.now defence.now west history.now) (legal question.now west history.now) }
{
    let classes = Classes::of(question);
    let line = merged(&classes, history);
    let counts = counts_of(&classes, west);
    let row = defence_shares_at(defence.rows.items(), counts.as_slice(), line.as_slice());
    let moves = defenders_moves(place, west);
    even_shares(&classes, row, moves.as_slice())
}

// What a row of declarer's gives to the legal moves.
fn lowest_shares(classes: &Classes, row: Option<&Counts>, moves: &[Move]) -> ArrayVec<CardShare, 13>
    requires { length moves.now ≤ HAND_SIZE }
    ensures { result.items
        ≡ map (lowest_share classes.now (option_map (λ shares. shares.now) row.entry) moves.now) moves.now }
{
    let mut shares = ArrayVec::new();
    for mv in moves {
        shares.push(lowest_share(classes, row, moves, mv));
    }
    shares
}

// What a row of declarer's gives to one of the legal moves.
fn lowest_share(classes: &Classes, row: Option<&Counts>, moves: &[Move], mv: &Move) -> CardShare
    requires { length moves.now ≤ HAND_SIZE }
    ensures { result ≡ lowest_share classes.now (option_map (λ shares. shares.now) row.entry) moves.now mv.now }
{
    let merges = merged(classes, moves);
    let count = if is_lowest(classes, moves, mv) {
        class_share(row, merges.as_slice(), merge(classes, *mv))
    } else {
        0
    };
    CardShare {
        mv: *mv,
        count,
        among: 1,
    }
}

// What a row of the defenders gives to the legal moves.
fn even_shares(classes: &Classes, row: Option<&Counts>, moves: &[Move]) -> ArrayVec<CardShare, 13>
    requires { length moves.now ≤ HAND_SIZE }
    ensures { result.items
        ≡ map (even_share classes.now (option_map (λ shares. shares.now) row.entry) moves.now) moves.now }
{
    let mut shares = ArrayVec::new();
    for mv in moves {
        shares.push(even_share(classes, row, moves, mv));
    }
    shares
}

// What a row of the defenders gives to one of the legal moves.
fn even_share(classes: &Classes, row: Option<&Counts>, moves: &[Move], mv: &Move) -> CardShare
    requires { length moves.now ≤ HAND_SIZE }
    ensures { result ≡ even_share classes.now (option_map (λ shares. shares.now) row.entry) moves.now mv.now }
{
    let merges = merged(classes, moves);
    let class = merge(classes, *mv);
    CardShare {
        mv: *mv,
        count: class_share(row, merges.as_slice(), class),
        among: how_often(classes, moves, class),
    }
}

// The legal moves at a turn of declarer's, which are the same under all layouts.
fn declarers_moves(place: &Place) -> ArrayVec<Move, 13>
    requires { is_declarer_turn place.now.trick ≡ true }
    ensures { (question : Question) (history : History) → IsAt question history place.now
        → result.items ≡ legal question [] history }
{
    match place.turn() {
        Turn::Declarer(seat) => place.follows(place.hand(seat)),
        Turn::Lead | Turn::Over | Turn::Defence(_) => place.leads(),
    }
}

// The legal moves at a turn of a defender's where West was dealt these cards.
fn defenders_moves(place: &Place, west: Holding) -> ArrayVec<Move, 13>
    requires { is_declarer_turn place.now.trick ≡ false }
    ensures { (question : Question) (history : History) → IsPlay question west history
        → IsAt question history place.now → result.items ≡ legal question west history }
{
    match place.turn() {
        Turn::Defence(seat) => place.follows(place.holds(west, seat)),
        Turn::Lead | Turn::Over | Turn::Declarer(_) => unreachable!(),
    }
}
