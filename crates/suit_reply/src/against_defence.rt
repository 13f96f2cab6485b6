//! Declarer's best reply to a defence.
ghost use Rattle.std.specs.Prelude.{◌≡◌, ◌*ℤ◌, ◌-◌, ◌<◌, ◌≤◌, ◌≤ℤ◌, ◌++◌, ◌∷◌, []};
ghost use Rattle.std.specs.Prelude.{All, IfOk, OnOk, filter, get_or, length, map, pos};
ghost use Rattle.std.specs.List.{range_with_len};
ghost use Rattle.suit_plans.specs.BestReplies.{most, most_reply};
ghost use Rattle.suit_plans.specs.Orders.{InOrder, defence_row_before};
ghost use Rattle.suit_plans.specs.Properness.{sum_of};
ghost use Rattle.suit_tree.specs.Nodes.{children_of, holds_index, move_of, turn_at};
ghost use Rattle.suit_reply.specs.AgainstDefence.{IsDefenceFor, MostNode, is_live, layout_share, most_gathers};
ghost use Rattle.suit_reply.specs.AgainstDefence.{node_most, shared_masses};
ghost use Rattle.suit_game.specs.declared.limits.TheConstants.{MOST_MOVES, MOST_TOTAL, HAND_SIZE};
ghost use Rattle.suit_layouts.specs.declared.class_list.TheConstants.{MOST_CLASS_LAYOUTS};
ghost use Rattle.suit_plans.specs.declared.plan.TheConstants.{MOST_DEN, MOST_MASS};

use super::chosen_move::ChosenMove;
use super::node_moves::is_first_for;
use super::node_reply::NodeReply;
use super::turn_rule::TurnRule;
use super::turn_so_far::TurnSoFar;
use super::{DeclarerReply, Memory};
use std::alloc::{AllocError, Global};
use suit_classes::{ClassMove, ClassTurn};
use suit_layouts::ClassLayout;
use suit_plans::{DeclarerMove, DeclarerMoves, Defence, DefenceRow, defence_shares_at, share};
use suit_tree::{Node, Tree};

/// The most that a defence lets declarer earn, and declarer's best reply, which earns it. The number is
/// still to be divided by the defence's denominator and the question's total. A decided class history is
/// worth its payoff times the masses that the defence lets through in all class layouts, a defender's turn
/// the sum of its moves, and a turn of declarer's the most of them.
///
/// The reply lists declarer's choices, by class histories: where the mass in some class layout is above
/// 0, all moves of declarer's before are the reply's, and there are two moves or more. It makes the first
/// of the moves that are worth the most.
///
/// # Errors
///
/// Want of memory.
pub fn most(alloc: Global, tree: &Tree, defence: &Defence) -> Result<(i128, DeclarerReply), Memory>
    requires { IsDefenceFor tree.now defence.now }
    ensures number { IfOk result
        (λ answer. (case : IsDefenceFor tree.now defence.now) → answer.0 ≡ most case.question defence.now) }
    ensures reply { IfOk result
        (λ answer. (case : IsDefenceFor tree.now defence.now) → answer.1 ≡ most_reply case.question defence.now) }
{
    let replying = AgainstDefence {
        alloc,
        layouts: tree.layouts(),
        rows: defence.rows.items(),
    };
    let masses = replying.whole_masses(defence.den)?;
    let reply = replying.below(tree.root(), &mut Vec::new(alloc), &masses)?;
    Ok((reply.worth, moves_of(alloc, reply.choices)?))
}

// The choices as moves of declarer's.
fn moves_of(alloc: Global, choices: Vec<ChosenMove>) -> Result<DeclarerMoves, AllocError>
    ensures { IfOk result
        (λ moves. moves ≡ map (λ choice. record { history = choice.history; mv = choice.mv }) choices.items) }
{
    let mut moves = Vec::new(alloc);
    for choice in choices {
        moves.push(DeclarerMove {
            history: choice.history,
            mv: choice.mv,
        })?;
    }
    Ok(DeclarerMoves::of(moves))
}

/// Declarer, who replies to the rows of a defence.
#[derive(Drop)]
pub(crate) struct AgainstDefence<'a> {
    pub(crate) alloc: Global,
    pub(crate) layouts: &'a [(ClassLayout, u64)],
    pub(crate) rows: &'a [DefenceRow],
}

impl AgainstDefence<'_> {
    // The masses of the empty history, by the indices of the class layouts.
    fn whole_masses(&self, den: i128) -> Result<Vec<(u8, i128)>, AllocError>
        requires few { length self.now.layouts.now ≤ MOST_CLASS_LAYOUTS }
        requires weights { All (λ layout. layout.1 ≤ MOST_TOTAL) self.now.layouts.now }
        requires den { (pos 1 ≤ℤ den) × (den ≤ℤ MOST_DEN) }
        ensures { IfOk result (λ masses. masses.items
            ≡ map (λ index. (index, pos (get_or self.now.layouts.now index ([], 0)).1 *ℤ den))
            (range_with_len 0 (length self.now.layouts.now))) }
    {
        let mut masses = Vec::new(self.alloc);
        for index in 0..self.layouts.len() {
            masses.push((index as u8, weighed(self.layouts[index].1, den)))?;
        }
        Ok(masses)
    }

    /// The best reply from a node on, where the masses that the defence lets through are given, by the
    /// indices of class layouts and without those that are 0. The history is that of the node, and is
    /// given back as it was.
    pub(crate) fn below(
        &self,
        node: &Node,
        history: &mut Vec<ClassMove>,
        masses: &[(u8, i128)],
    ) -> Result<NodeReply, AllocError>
        requires { MostNode self.now.layouts.now self.now.rows.now history.old.items masses.now node.now }
        ensures reply { IfOk result (λ reply. reply
            ≡ node_most (MOST_MOVES - length history.old.items) self.now.layouts.now self.now.rows.now history.old.items
            masses.now node.now) }
        ensures kept { OnOk result (history.new.items ≡ history.old.items) }
    {
        if masses.is_empty() {
            return Ok(NodeReply::of(self.alloc, 0));
        }
        let Some(rule) = gathers(node.turn()) else {
            return Ok(NodeReply::of(self.alloc, earned(node.payoff(), masses)));
        };
        let mut so_far = TurnSoFar::none(self.alloc);
        for child in node.children() {
            let mv = child.mv();
            let passed = self.passed(node, history, masses, child)?;
            history.push(mv)?;
            let reply = self.below(child, history, &passed)?;
            history.pop();
            so_far = so_far.join(rule, mv, reply)?;
        }
        so_far.finish(rule, self.alloc, history)
    }

    // What the masses at a node become at a child.
    fn passed(
        &self,
        node: &Node,
        history: &[ClassMove],
        masses: &[(u8, i128)],
        child: &Node,
    ) -> Result<Vec<(u8, i128)>, AllocError>
        requires order { InOrder defence_row_before self.now.rows.now }
        requires indices { All (λ held. held.0 < length self.now.layouts.now) masses.now }
        ensures { IfOk result (λ passed. passed.items
            ≡ shared_masses (turn_at node.now) self.now.layouts.now self.now.rows.now (children_of node.now)
            history.now masses.now child.now) }
    {
        match node.turn() {
            ClassTurn::Defence(_) => self.shared(node, history, masses, child),
            ClassTurn::Lead | ClassTurn::Declarer(_) | ClassTurn::Decided => {
                Vec::from_slice(self.alloc, masses)
            }
        }
    }

    // What they become by a defender's move, without those that are 0.
    fn shared(
        &self,
        node: &Node,
        history: &[ClassMove],
        masses: &[(u8, i128)],
        child: &Node,
    ) -> Result<Vec<(u8, i128)>, AllocError>
        requires order { InOrder defence_row_before self.now.rows.now }
        requires indices { All (λ held. held.0 < length self.now.layouts.now) masses.now }
        ensures { IfOk result (λ passed. passed.items
            ≡ filter is_live
            (map
            (layout_share self.now.layouts.now self.now.rows.now (children_of node.now) history.now
            (move_of child.now))
            (filter (λ held. holds_index held.0 child.now) masses.now))) }
    {
        let mut passed = Vec::new(self.alloc);
        for held in masses {
            if child.holds(held.0) {
                let mass = self.share(node, history, held.0, held.1, child.mv());
                add_live(&mut passed, held.0, mass)?;
            }
        }
        Ok(passed)
    }

    // What a mass becomes with a defender's move, in the class layout with an index.
    fn share(
        &self,
        node: &Node,
        history: &[ClassMove],
        index: u8,
        mass: i128,
        mv: ClassMove,
    ) -> i128
        requires order { InOrder defence_row_before self.now.rows.now }
        requires index { index < length self.now.layouts.now }
        ensures { (index, result)
            ≡ layout_share self.now.layouts.now self.now.rows.now (children_of node.now) history.now mv (index, mass) }
    {
        let counts = self.layouts[index as usize].0.counts();
        let shares = defence_shares_at(self.rows, counts, history);
        share(shares, is_first_for(node.children(), index, mv), mass, mv)
    }
}

// How a turn gathers what is found below its moves, where the class history is not decided.
fn gathers(turn: ClassTurn) -> Option<TurnRule>
    ensures { result ≡ most_gathers turn }
{
    match turn {
        ClassTurn::Lead | ClassTurn::Declarer(_) => Some(TurnRule::Most),
        ClassTurn::Defence(_) => Some(TurnRule::Sum),
        ClassTurn::Decided => None,
    }
}

// Adds the mass in a class layout, unless it is 0.
fn add_live(masses: &mut Vec<(u8, i128)>, index: u8, mass: i128) -> Result<(), AllocError>
    ensures { OnOk result (masses.new.items ≡ masses.old.items ++ filter is_live ((index, mass) ∷ [])) }
{
    if mass > 0 {
        masses.push((index, mass))?;
    }
    Ok(())
}

// The mass of the empty history in a class layout with this weight.
fn weighed(weight: u64, den: i128) -> i128
    requires weight { weight ≤ MOST_TOTAL }
    requires den { (pos 1 ≤ℤ den) × (den ≤ℤ MOST_DEN) }
    ensures { result ≡ pos weight *ℤ den }
{
    weight as i128 * den
}

// What a decided class history is worth.
fn earned(payoff: u64, masses: &[(u8, i128)]) -> i128
    requires payoff { payoff ≤ HAND_SIZE }
    requires positive { All (λ held. pos 0 ≤ℤ held.1) masses.now }
    requires within { sum_of (map (λ held. held.1) masses.now) ≤ℤ pos MOST_MASS }
    ensures { result ≡ sum_of (map (λ held. pos payoff *ℤ held.1) masses.now) }
{
    let mut worth = 0;
    for held in masses {
        worth += paid(payoff, held.1);
    }
    worth
}

// What a payoff is worth for a mass.
fn paid(payoff: u64, mass: i128) -> i128
    requires payoff { payoff ≤ HAND_SIZE }
    requires mass { (pos 0 ≤ℤ mass) × (mass ≤ℤ pos MOST_MASS) }
    ensures { result ≡ pos payoff *ℤ mass }
{
    payoff as i128 * mass
}
