//! The commands, by what they read: a room for each, which lists the commands that read alike. Each command has a file
//! of its own, here and in the definitions.
ghost use Rattle.std.specs.Prelude.{◌≡◌, ◌≤◌, Some, IfOk, IfSome, length, map};
ghost use Rattle.suit_top.specs.Commands.{command_of, IsCommand, limit_of, reads_input, due_within, IsOwedWithin, Says};
ghost use Rattle.suit_top.specs.Texts.{text_bytes};
ghost use Rattle.suit_top.specs.Words.{is_only};

use crate::reply::Reply;
use crate::status::Status;
use std::alloc::{AllocError, Global};
use std::thread::Threads;
use suit_game::Gate;
use suit_table::MOST_TABLE;

mod check;
mod lines;
mod made;
mod make;
mod on_answer;
mod on_nothing;
mod on_question;
mod on_table;
mod solve;
mod table;
mod trial;
mod weigh;

pub use made::MadeTable;
pub use on_answer::AnswerCommand;
pub use on_nothing::BareCommand;
pub use on_question::QuestionCommand;
pub use on_table::TableCommand;

/// The most bytes of input of a command that reads a question, and of what follows it.
pub const MOST_INPUT: usize = 2_097_152;

/// What the program can be asked to do, by what it reads.
#[derive(Clone, Copy, Debug, PartialEq, Eq)]
pub enum Command {
    /// It reads a question.
    OnQuestion(QuestionCommand),
    /// It reads a question and an answer to it.
    OnAnswer(AnswerCommand),
    /// It reads a table.
    OnTable(TableCommand),
    /// It reads nothing.
    OnNothing(BareCommand),
}

impl Command {
    /// The command that the words after the program's name form.
    pub fn of(words: &[&str]) -> Option<Command>
        ensures command { result ≡ command_of (map (λ word. word.now) words.now) }
        ensures within { IfSome result IsCommand }
    {
        if let Some(command) = QuestionCommand::of(words) {
            return Some(Command::OnQuestion(command));
        }
        if let Some(command) = AnswerCommand::of(words) {
            return Some(Command::OnAnswer(command));
        }
        if let Some(command) = TableCommand::of(words) {
            return Some(Command::OnTable(command));
        }
        if let Some(command) = BareCommand::of(words) {
            return Some(Command::OnNothing(command));
        }
        None
    }

    /// Whether the command reads its input.
    pub fn reads_input(self) -> bool
        ensures { result ≡ reads_input self }
    {
        match self {
            Command::OnQuestion(_) | Command::OnAnswer(_) | Command::OnTable(_) => true,
            Command::OnNothing(_) => false,
        }
    }

    /// The most bytes of input that the command takes.
    pub fn limit(self) -> usize
        ensures { result ≡ limit_of self }
    {
        match self {
            Command::OnQuestion(_) | Command::OnAnswer(_) => MOST_INPUT,
            Command::OnTable(_) => MOST_TABLE,
            Command::OnNothing(_) => 0,
        }
    }

    /// The reply to an input that is not too long.
    pub fn reply<R: Threads + Sync, G: Gate + Sync>(
        self,
        rt: &R,
        gate: &G,
        alloc: Global,
        input: &[u8],
    ) -> Result<Reply, AllocError>
        requires command { IsCommand self }
        requires short { length input.now ≤ limit_of self }
        ensures status { IfOk result (λ reply. reply.status ≡ (due_within self input.now).status) }
        ensures text { IfOk result (λ reply. IsOwedWithin self input.now (text_bytes reply.text)) }
        ensures says { IfOk result (λ reply. reply.status ≡ Status.Done
            → Says (Some self) input.now (text_bytes reply.text)) }
    {
        match self {
            Command::OnQuestion(command) => command.reply(alloc, input),
            Command::OnAnswer(command) => command.reply(rt, gate, alloc, input),
            Command::OnTable(command) => command.reply(rt, gate, alloc, input),
            Command::OnNothing(command) => command.reply(rt, gate, alloc),
        }
    }
}

/// Whether the words are one word, which is this one.
fn is_only(word: &str, words: &[&str]) -> bool
    ensures { result ≡ is_only word.now (map (λ word. word.now) words.now) }
{
    match words {
        [only] => *only == word,
        _ => false,
    }
}
