//! The defence's best reply to a plan.
ghost use Rattle.std.specs.Prelude.{◌≡◌, ◌+◌, ◌-◌, ◌≤◌, ◌++◌, IfOk, OnOk, length, map};
ghost use Rattle.suit_plans.specs.BestReplies.{least, least_reply};
ghost use Rattle.suit_plans.specs.Orders.{InOrder, plan_row_before};
ghost use Rattle.suit_tree.specs.Nodes.{children_of, turn_at};
ghost use Rattle.suit_reply.specs.AgainstPlan.{IsPlanFor, LeastNode, goes_to, node_least, plan_share};
ghost use Rattle.suit_reply.specs.LayoutsReplies.{IsReplyIn};
ghost use Rattle.suit_game.specs.declared.limits.TheConstants.{MOST_MOVES};

use super::chosen_move::ChosenMove;
use super::layouts_reply::LayoutsReply;
use super::node_moves::is_first_of;
use super::node_reply::NodeReply;
use super::turn_rule::TurnRule;
use super::turn_so_far::TurnSoFar;
use super::{DefenceReply, Memory};
use std::alloc::{AllocError, Global};
use suit_classes::{ClassMove, ClassTurn};
use suit_plans::{DefenceMove, DefenceMoves, Plan, Row, plan_shares_at, share};
use suit_tree::{Node, Tree};

/// The least that a plan earns, and the defence's best reply, by which it earns no more. The number is
/// still to be divided by the plan's denominator and the question's total. In each class layout a decided
/// class history is worth its payoff times the mass that the plan lets through, a turn of declarer's the
/// sum of its moves, and a defender's turn the least of them; these are added up by the layouts' weights.
///
/// The reply lists the defenders' choices, by class layouts and then by class histories: where the plan's
/// mass is above 0, all defenders' moves before are the reply's, and there are two moves or more. It makes
/// the first of the moves that are worth the least.
///
/// # Errors
///
/// Want of memory.
pub fn least(alloc: Global, tree: &Tree, plan: &Plan) -> Result<(i128, DefenceReply), Memory>
    requires { IsPlanFor tree.now plan.now }
    ensures number { IfOk result
        (λ answer. (case : IsPlanFor tree.now plan.now) → answer.0 ≡ least case.question plan.now) }
    ensures reply { IfOk result
        (λ answer. (case : IsPlanFor tree.now plan.now) → answer.1 ≡ least_reply case.question plan.now) }
{
    let reply = least_from(alloc, tree, plan, 0, tree.layouts().len())?;
    Ok((reply.number, DefenceMoves::of(reply.moves)))
}

/// The best reply to a plan in so many class layouts from an index on.
pub(crate) fn least_from(
    alloc: Global,
    tree: &Tree,
    plan: &Plan,
    start: usize,
    count: usize,
) -> Result<LayoutsReply, AllocError>
    requires asked { IsPlanFor tree.now plan.now }
    requires within { start + count ≤ length tree.now.layouts.items }
    ensures { IfOk result (λ reply. (case : IsPlanFor tree.now plan.now)
        → IsReplyIn case.question plan.now start count reply.number reply.moves.items) }
{
    let replying = AgainstPlan {
        alloc,
        rows: plan.rows.items(),
    };
    let layouts = tree.layouts();
    let mut number = 0;
    let mut moves = Vec::new(alloc);
    for index in start..start + count {
        let reply = replying.below(tree.root(), index as u8, &mut Vec::new(alloc), plan.den)?;
        number += layouts[index].1 as i128 * reply.worth;
        add_choices(&mut moves, index as u8, reply.choices)?;
    }
    Ok(LayoutsReply { number, moves })
}

// Adds the choices in a class layout to those in the layouts before it.
fn add_choices(
    moves: &mut Vec<DefenceMove>,
    index: u8,
    choices: Vec<ChosenMove>,
) -> Result<(), AllocError>
    ensures { OnOk result (moves.new.items
        ≡ moves.old.items
        ++ map (λ choice. record { layout = index; history = choice.history; mv = choice.mv }) choices.items) }
{
    for choice in choices {
        moves.push(DefenceMove {
            layout: index,
            history: choice.history,
            mv: choice.mv,
        })?;
    }
    Ok(())
}

/// The defence that replies to the rows of a plan.
#[derive(Drop)]
pub(crate) struct AgainstPlan<'a> {
    pub(crate) alloc: Global,
    pub(crate) rows: &'a [Row],
}

impl AgainstPlan<'_> {
    /// The best reply from a node on in the class layout with an index, where the plan's mass is given.
    /// The history is that of the node, and is given back as it was.
    pub(crate) fn below(
        &self,
        node: &Node,
        index: u8,
        history: &mut Vec<ClassMove>,
        mass: i128,
    ) -> Result<NodeReply, AllocError>
        requires { LeastNode self.now.rows.now index history.old.items mass node.now }
        ensures reply { IfOk result (λ reply. reply
            ≡ node_least (MOST_MOVES - length history.old.items) self.now.rows.now index history.old.items mass node.now) }
        ensures kept { OnOk result (history.new.items ≡ history.old.items) }
    {
        if mass == 0 {
            return Ok(NodeReply::of(self.alloc, 0));
        }
        let rule = match node.turn() {
            ClassTurn::Lead | ClassTurn::Declarer(_) => TurnRule::Sum,
            ClassTurn::Defence(_) => TurnRule::Least,
            ClassTurn::Decided => {
                return Ok(NodeReply::of(self.alloc, node.payoff() as i128 * mass));
            }
        };
        let mut so_far = TurnSoFar::none(self.alloc);
        for child in node.children() {
            if goes_to(node.turn(), index, child) {
                let mv = child.mv();
                let share = self.share(node, history, mass, mv);
                history.push(mv)?;
                let reply = self.below(child, index, history, share)?;
                history.pop();
                so_far = so_far.join(rule, mv, reply)?;
            }
        }
        so_far.finish(rule, self.alloc, history)
    }

    // What the plan's mass at a node becomes with a move.
    fn share(&self, node: &Node, history: &[ClassMove], mass: i128, mv: ClassMove) -> i128
        requires { InOrder plan_row_before self.now.rows.now }
        ensures { result ≡ plan_share (turn_at node.now) self.now.rows.now (children_of node.now) history.now mass mv }
    {
        match node.turn() {
            ClassTurn::Lead | ClassTurn::Declarer(_) => {
                let shares = plan_shares_at(self.rows, history);
                share(shares, is_first_of(node.children(), mv), mass, mv)
            }
            ClassTurn::Defence(_) | ClassTurn::Decided => mass,
        }
    }
}

// Whether play goes on to a child, in the class layout with an index.
fn goes_to(turn: ClassTurn, index: u8, child: &Node) -> bool
    ensures { result ≡ goes_to turn index child.now }
{
    match turn {
        ClassTurn::Defence(_) => child.holds(index),
        ClassTurn::Lead | ClassTurn::Declarer(_) | ClassTurn::Decided => true,
    }
}
