//! The commands that read nothing: their words say all.
ghost use Rattle.std.specs.Prelude.{◌≡◌, IfOk, IfSome, map};
ghost use Rattle.suit_top.specs.Commands.OnNothing.{bare_command_of, bare_text, IsBareCommand};
ghost use Rattle.suit_top.specs.Texts.{text_bytes};

use super::{MadeTable, make, trial};
use crate::reply::Reply;
use crate::status::Status;
use std::alloc::{AllocError, Global};
use std::thread::Threads;
use suit_game::Gate;

/// What can be done without an input.
#[derive(Clone, Copy, Debug, PartialEq, Eq)]
pub enum BareCommand {
    /// Make a table.
    Make(MadeTable),
    /// Judge the questions of a made table, and tell how many come to which outcome.
    Trial(MadeTable),
}

impl BareCommand {
    /// The command that the words after the program's name form.
    pub fn of(words: &[&str]) -> Option<BareCommand>
        ensures command { result ≡ bare_command_of (map (λ word. word.now) words.now) }
        ensures within { IfSome result IsBareCommand }
    {
        if let Some(made) = make::table_in(words) {
            return Some(BareCommand::Make(made));
        }
        if let Some(made) = trial::table_in(words) {
            return Some(BareCommand::Trial(made));
        }
        None
    }

    /// The reply.
    pub fn reply<R: Threads + Sync, G: Gate + Sync>(
        self,
        rt: &R,
        gate: &G,
        alloc: Global,
    ) -> Result<Reply, AllocError>
        requires { IsBareCommand self }
        ensures status { IfOk result (λ reply. reply.status ≡ Status.Done) }
        ensures text { IfOk result (λ reply. text_bytes reply.text ≡ bare_text self) }
    {
        match self {
            BareCommand::Make(made) => make::reply(alloc, made),
            BareCommand::Trial(made) => trial::reply(rt, gate, alloc, made),
        }
    }
}
