//! `lines`: the plan of the answer that follows a question, told in sentences.
ghost use Rattle.std.specs.Prelude.{◌≡◌, IfOk, map};
ghost use Rattle.suit_game.specs.Validity.{IsValid};
ghost use Rattle.suit_top.specs.Commands.Lines.{Tells, due_telling, is_lines};
ghost use Rattle.suit_top.specs.Texts.{text_bytes};

use super::{check, is_only};
use crate::reply::Reply;
use crate::status::Status;
use std::alloc::{AllocError, Global};
use std::thread::Threads;
use suit_answer::Answer;
use suit_game::{Gate, Question};
use suit_lines::lines_text;

/// Whether the words are those of the command.
pub fn are_words(words: &[&str]) -> bool
    ensures { result ≡ is_lines (map (λ word. word.now) words.now) }
{
    is_only("lines", words)
}

/// The reply to a question and an answer: what `check` replies, but of a valid answer its lines of play.
pub fn reply<R: Threads + Sync, G: Gate + Sync>(
    rt: &R,
    gate: &G,
    alloc: Global,
    question: &Question,
    answer: &Answer,
) -> Result<Reply, AllocError>
    requires { IsValid question.now }
    ensures status { IfOk result (λ reply. reply.status ≡ (due_telling question.now answer.now).status) }
    ensures text { IfOk result (λ reply. text_bytes reply.text ≡ (due_telling question.now answer.now).text) }
    ensures says { IfOk result (λ reply. reply.status ≡ Status.Done
        → Tells question.now answer.now (text_bytes reply.text)) }
{
    let checked = check::reply(rt, gate, alloc, question, answer)?;
    match checked.status {
        Status::Done => Ok(Reply::written(lines_text(alloc, question, answer)?)),
        _ => Ok(checked),
    }
}
