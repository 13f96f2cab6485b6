//! `solve`: the value of a question, with a plan and a defence that show it.
ghost use Rattle.std.specs.Prelude.{◌≡◌, ◌≢◌, map, IfOk, Err};
ghost use Rattle.suit_game.specs.Validity.{IsValid};
ghost use Rattle.suit_top.specs.Commands.Solve.{Answers, due_of_fate, due_solving, is_solve};
ghost use Rattle.suit_top.specs.Texts.{text_bytes};

use super::is_only;
use crate::refusal::{past_nodes, past_pivots, past_size, past_width};
use crate::reply::Reply;
use crate::status::Status;
use std::alloc::{AllocError, Global};
use suit_answer::answer_text;
use suit_game::Question;
use suit_solve::{SolveEnd, solve};

/// Whether the words are those of the command.
pub fn are_words(words: &[&str]) -> bool
    ensures { result ≡ is_solve (map (λ word. word.now) words.now) }
{
    is_only("solve", words)
}

/// The reply to a question.
pub fn reply(alloc: Global, question: &Question) -> Result<Reply, AllocError>
    requires { IsValid question.now }
    ensures status { IfOk result (λ reply. reply.status ≡ (due_solving question.now).status) }
    ensures text { IfOk result (λ reply. text_bytes reply.text ≡ (due_solving question.now).text) }
    ensures says { IfOk result (λ reply. reply.status ≡ Status.Done → Answers question.now (text_bytes reply.text)) }
{
    match solve(alloc, question) {
        Ok(answer) => Ok(Reply::written(answer_text(alloc, question, &answer)?)),
        Err(end) => refused(question, end),
    }
}

/// The reply to a question that has no answer, but for want of memory, which makes none.
fn refused(question: &Question, end: SolveEnd) -> Result<Reply, AllocError>
    ensures status { IfOk result (λ reply. reply.status ≡ (due_of_fate question.now (Err end)).status) }
    ensures text { IfOk result (λ reply. text_bytes reply.text ≡ (due_of_fate question.now (Err end)).text) }
    ensures told { IfOk result (λ _. end ≢ SolveEnd.Memory) }
{
    match end {
        SolveEnd::Nodes { budget } => Ok(Reply::told(Status::Nodes, past_nodes(budget))),
        SolveEnd::Support { round } => Ok(Reply::told(Status::Support, past_size(round))),
        SolveEnd::Pivots { round } => {
            let line = past_pivots(question.pivots, round);
            Ok(Reply::told(Status::Pivots, line))
        }
        SolveEnd::Wide { round } => Ok(Reply::told(Status::Wide, past_width(round))),
        SolveEnd::Memory => Err(AllocError),
    }
}
