//! The commands that read a table.
ghost use Rattle.std.specs.Prelude.{◌≡◌, ◌≤◌, IfOk, length, map};
ghost use Rattle.suit_top.specs.Commands.OnTable.{due_on_table, IsOwedOnTable, SaysOnTable, table_command_of};
ghost use Rattle.suit_top.specs.Texts.{text_bytes};
ghost use Rattle.suit_table.specs.declared.records.TheConstants.{MOST_TABLE};

use super::table;
use crate::reply::Reply;
use crate::status::Status;
use std::alloc::{AllocError, Global};
use std::thread::Threads;
use suit_game::Gate;

/// What can be said about the questions that a table names.
#[derive(Clone, Copy, Debug, PartialEq, Eq)]
pub enum TableCommand {
    /// Their outcomes.
    Table,
}

impl TableCommand {
    /// The command that the words after the program's name form.
    pub fn of(words: &[&str]) -> Option<TableCommand>
        ensures { result ≡ table_command_of (map (λ word. word.now) words.now) }
    {
        if table::are_words(words) {
            return Some(TableCommand::Table);
        }
        None
    }

    /// The reply to an input that is not too long.
    pub fn reply<R: Threads + Sync, G: Gate + Sync>(
        self,
        rt: &R,
        gate: &G,
        alloc: Global,
        input: &[u8],
    ) -> Result<Reply, AllocError>
        requires { length input.now ≤ MOST_TABLE }
        ensures status { IfOk result (λ reply. reply.status ≡ (due_on_table self input.now).status) }
        ensures text { IfOk result (λ reply. IsOwedOnTable self input.now (text_bytes reply.text)) }
        ensures says { IfOk result (λ reply. reply.status ≡ Status.Done
            → SaysOnTable self input.now (text_bytes reply.text)) }
    {
        match self {
            TableCommand::Table => table::reply(rt, gate, alloc, input),
        }
    }
}
