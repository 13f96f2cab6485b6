//! The commands that read a question and an answer to it.
ghost use Rattle.std.specs.Prelude.{◌≡◌, ◌≤◌, IfOk, length, map};
ghost use Rattle.suit_game.specs.Validity.{IsValid};
ghost use Rattle.suit_top.specs.Asking.{SaysOfAnswer};
ghost use Rattle.suit_top.specs.Commands.OnAnswer.{answer_command_of, due_answered, due_on_answer, due_with_answer};
ghost use Rattle.suit_top.specs.Commands.OnAnswer.{SaysAnswered, SaysOnAnswer};
ghost use Rattle.suit_top.specs.Texts.{text_bytes};
ghost use Rattle.suit_top.specs.declared.commands.TheConstants.{MOST_INPUT};

use super::{check, lines};
use crate::refusal::wrong_answer;
use crate::reply::Reply;
use crate::status::Status;
use std::alloc::{AllocError, Global};
use std::thread::Threads;
use suit_answer::{Answer, AnswerFault, read_answer};
use suit_game::{Gate, Question};
use suit_question::{question_end, read_question};

/// What can be said about an answer to a question.
#[derive(Clone, Copy, Debug, PartialEq, Eq)]
pub enum AnswerCommand {
    /// Whether it shows its value.
    Check,
    /// Its plan in sentences.
    Lines,
}

impl AnswerCommand {
    /// The command that the words after the program's name form.
    pub fn of(words: &[&str]) -> Option<AnswerCommand>
        ensures { result ≡ answer_command_of (map (λ word. word.now) words.now) }
    {
        if check::are_words(words) {
            return Some(AnswerCommand::Check);
        }
        if lines::are_words(words) {
            return Some(AnswerCommand::Lines);
        }
        None
    }

    /// The reply to an input that is not too long: about the answer behind the question that it asks, or about the
    /// first fault of its text.
    pub fn reply<R: Threads + Sync, G: Gate + Sync>(
        self,
        rt: &R,
        gate: &G,
        alloc: Global,
        input: &[u8],
    ) -> Result<Reply, AllocError>
        requires { length input.now ≤ MOST_INPUT }
        ensures status { IfOk result (λ reply. reply.status ≡ (due_on_answer self input.now).status) }
        ensures text { IfOk result (λ reply. text_bytes reply.text ≡ (due_on_answer self input.now).text) }
        ensures says { IfOk result (λ reply. reply.status ≡ Status.Done
            → SaysOnAnswer self input.now (text_bytes reply.text)) }
    {
        let (asking, rest) = input.split_at(question_end(input));
        match read_question(asking) {
            Ok(question) => self.with_answer(rt, gate, alloc, &question, rest),
            Err(fault) => Ok(Reply::malformed(fault)),
        }
    }

    /// The reply about a question and the text that follows it: about the answer that this tells, or about its first
    /// fault.
    fn with_answer<R: Threads + Sync, G: Gate + Sync>(
        self,
        rt: &R,
        gate: &G,
        alloc: Global,
        question: &Question,
        rest: &[u8],
    ) -> Result<Reply, AllocError>
        requires valid { IsValid question.now }
        requires short { length rest.now ≤ MOST_INPUT }
        ensures status { IfOk result (λ reply. reply.status ≡ (due_with_answer self rest.now question.now).status) }
        ensures text { IfOk result (λ reply. text_bytes reply.text
            ≡ (due_with_answer self rest.now question.now).text) }
        ensures says { IfOk result (λ reply. reply.status ≡ Status.Done
            → SaysOfAnswer (SaysAnswered self question.now) question.now rest.now (text_bytes reply.text)) }
    {
        match read_answer(alloc, question, rest) {
            Ok(answer) => self.reply_about(rt, gate, alloc, question, &answer),
            Err(AnswerFault::Memory) => Err(AllocError),
            Err(fault) => Ok(Reply::told(Status::NotValid, wrong_answer(fault))),
        }
    }

    /// The reply about an answer.
    fn reply_about<R: Threads + Sync, G: Gate + Sync>(
        self,
        rt: &R,
        gate: &G,
        alloc: Global,
        question: &Question,
        answer: &Answer,
    ) -> Result<Reply, AllocError>
        requires { IsValid question.now }
        ensures status { IfOk result (λ reply. reply.status ≡ (due_answered self question.now answer.now).status) }
        ensures text { IfOk result (λ reply. text_bytes reply.text ≡ (due_answered self question.now answer.now).text) }
        ensures says { IfOk result (λ reply. reply.status ≡ Status.Done
            → SaysAnswered self question.now answer.now (text_bytes reply.text)) }
    {
        match self {
            AnswerCommand::Check => check::reply(rt, gate, alloc, question, answer),
            AnswerCommand::Lines => lines::reply(rt, gate, alloc, question, answer),
        }
    }
}
