//! The check of an answer.
ghost use Rattle.std.specs.Prelude.{◌≡◌, ◌≤◌, IfErr, IfOk, OnOk};
ghost use Rattle.suit_game.specs.Validity.{IsValid};
ghost use Rattle.suit_tree.specs.WhatIsCounted.{node_count};
ghost use Rattle.suit_check.specs.Ends.{IsEnd};
ghost use Rattle.suit_check.specs.Verdicts.{seen, verdict_of};

use super::{CheckEnd, Verdict};
use bumpalo::Bump;
use std::alloc::Global;
use std::thread::Threads;
use suit_answer::{Answer, value_over};
use suit_game::{Gate, Question};
use suit_plans::{proper_defence, proper_plan};
use suit_reply::{least_on, most};
use suit_tree::grow;

/// Whether an answer is right: the plan and the defence are realisation plans, and their best replies leave both of
/// them just the value. The best reply to the plan is found on several threads, each of which enters the gate.
///
/// The verdict is what is wrong first: of the plan, of the defence, of what the plan earns, of what the defence gives
/// up. It takes an arena of its own for the class tree.
///
/// # Errors
///
/// `Nodes` exactly where the question has more pairs of a class history and a class layout than its budget, whatever
/// the answer, but for want of memory, which is `Memory`.
pub fn check<R: Threads + Sync, G: Gate + Sync>(
    rt: &R,
    gate: &G,
    alloc: Global,
    question: &Question,
    answer: &Answer,
) -> Result<Verdict, CheckEnd>
    requires { IsValid question.now }
    ensures verdict { IfOk result (λ verdict. seen verdict ≡ verdict_of question.now answer.now) }
    ensures within { OnOk result (node_count question.now ≤ question.now.nodes) }
    ensures end { IfErr result (λ end. IsEnd question.now end) }
{
    let arena = Bump::new(alloc);
    let tree = grow(alloc, &arena, question)?;
    if let Err(fault) = proper_plan(question, &answer.plan) {
        return Ok(Verdict::Plan(fault));
    }
    if let Err(fault) = proper_defence(question, &answer.defence) {
        return Ok(Verdict::Defence(fault));
    }
    let (earned, _) = least_on(rt, gate, alloc, &tree, &answer.plan)?;
    let found = value_over(question, earned, answer.plan.den);
    if found != answer.value {
        return Ok(Verdict::Least { found });
    }
    let (given_up, _) = most(alloc, &tree, &answer.defence)?;
    let found = value_over(question, given_up, answer.defence.den);
    if found != answer.value {
        return Ok(Verdict::Most { found });
    }
    Ok(Verdict::Valid)
}
