//! `check`: whether the answer that follows a question shows its value.
ghost use Rattle.std.specs.Prelude.{◌≡◌, IfOk, map};
ghost use Rattle.suit_game.specs.Validity.{IsValid};
ghost use Rattle.suit_check.specs.Verdicts.{seen, verdict_of};
ghost use Rattle.suit_top.specs.Commands.Check.{Checks, due_checking, due_found, is_check, valid_text};
ghost use Rattle.suit_top.specs.Texts.{text_bytes};

use super::is_only;
use crate::refusal::{Refusal, other_least, other_most, past_nodes, wrong_defence, wrong_plan};
use crate::reply::Reply;
use crate::status::Status;
use std::alloc::{AllocError, Global};
use std::thread::Threads;
use suit_answer::Answer;
use suit_check::{CheckEnd, Verdict, check};
use suit_game::{Gate, Question};

/// Whether the words are those of the command.
pub fn are_words(words: &[&str]) -> bool
    ensures { result ≡ is_check (map (λ word. word.now) words.now) }
{
    is_only("check", words)
}

/// The reply to a question and an answer.
pub fn reply<R: Threads + Sync, G: Gate + Sync>(
    rt: &R,
    gate: &G,
    alloc: Global,
    question: &Question,
    answer: &Answer,
) -> Result<Reply, AllocError>
    requires { IsValid question.now }
    ensures status { IfOk result (λ reply. reply.status ≡ (due_checking question.now answer.now).status) }
    ensures text { IfOk result (λ reply. text_bytes reply.text ≡ (due_checking question.now answer.now).text) }
    ensures says { IfOk result (λ reply. reply.status ≡ Status.Done
        → Checks question.now answer.now (text_bytes reply.text)) }
{
    match check(rt, gate, alloc, question, answer) {
        Ok(verdict) => Ok(told(&verdict)),
        Err(CheckEnd::Nodes { budget }) => Ok(Reply::told(Status::Nodes, past_nodes(budget))),
        Err(CheckEnd::Memory) => Err(AllocError),
    }
}

/// A verdict as it is told.
fn told(verdict: &Verdict) -> Reply
    ensures status { result.status ≡ (due_found (seen verdict.now)).status }
    ensures text { text_bytes result.text ≡ (due_found (seen verdict.now)).text }
{
    match verdict {
        Verdict::Valid => Reply::told(Status::Done, valid()),
        Verdict::Plan(fault) => Reply::told(Status::NotValid, wrong_plan(*fault)),
        Verdict::Defence(fault) => Reply::told(Status::NotValid, wrong_defence(*fault)),
        Verdict::Least { found } => Reply::told(Status::NotValid, other_least(*found)),
        Verdict::Most { found } => Reply::told(Status::NotValid, other_most(*found)),
    }
}

/// The line of a valid answer.
fn valid() -> Refusal
    ensures { result.bytes ≡ valid_text }
{
    let mut text = Refusal::new();
    text.push_str("valid\n");
    text
}
