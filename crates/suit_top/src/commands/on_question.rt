//! The commands that read a question.
ghost use Rattle.std.specs.Prelude.{◌≡◌, ◌≤◌, IfOk, length, map};
ghost use Rattle.suit_game.specs.Validity.{IsValid};
ghost use Rattle.suit_top.specs.Commands.OnQuestion.{due_about, due_on_question, question_command_of};
ghost use Rattle.suit_top.specs.Commands.OnQuestion.{SaysAbout, SaysOnQuestion};
ghost use Rattle.suit_top.specs.Texts.{text_bytes};
ghost use Rattle.suit_top.specs.declared.commands.TheConstants.{MOST_INPUT};

use super::{solve, weigh};
use crate::reply::Reply;
use crate::status::Status;
use std::alloc::{AllocError, Global};
use suit_game::Question;
use suit_question::read_question;

/// What can be said about a question.
#[derive(Clone, Copy, Debug, PartialEq, Eq)]
pub enum QuestionCommand {
    /// Its value, with a plan and a defence that show it.
    Solve,
    /// The weights of its class layouts.
    Weigh,
}

impl QuestionCommand {
    /// The command that the words after the program's name form.
    pub fn of(words: &[&str]) -> Option<QuestionCommand>
        ensures { result ≡ question_command_of (map (λ word. word.now) words.now) }
    {
        if solve::are_words(words) {
            return Some(QuestionCommand::Solve);
        }
        if weigh::are_words(words) {
            return Some(QuestionCommand::Weigh);
        }
        None
    }

    /// The reply to an input that is not too long: about the question that it asks, or about the first fault of its
    /// text.
    pub fn reply(self, alloc: Global, input: &[u8]) -> Result<Reply, AllocError>
        requires { length input.now ≤ MOST_INPUT }
        ensures status { IfOk result (λ reply. reply.status ≡ (due_on_question self input.now).status) }
        ensures text { IfOk result (λ reply. text_bytes reply.text ≡ (due_on_question self input.now).text) }
        ensures says { IfOk result (λ reply. reply.status ≡ Status.Done
            → SaysOnQuestion self input.now (text_bytes reply.text)) }
    {
        match read_question(input) {
            Ok(question) => self.reply_about(alloc, &question),
            Err(fault) => Ok(Reply::malformed(fault)),
        }
    }

    /// The reply about a question.
    fn reply_about(self, alloc: Global, question: &Question) -> Result<Reply, AllocError>
        requires { IsValid question.now }
        ensures status { IfOk result (λ reply. reply.status ≡ (due_about self question.now).status) }
        ensures text { IfOk result (λ reply. text_bytes reply.text ≡ (due_about self question.now).text) }
        ensures says { IfOk result (λ reply. reply.status ≡ Status.Done
            → SaysAbout self question.now (text_bytes reply.text)) }
    {
        match self {
            QuestionCommand::Solve => solve::reply(alloc, question),
            QuestionCommand::Weigh => weigh::reply(alloc, question),
        }
    }
}
