//! `table`: the questions that the records of a table name, each with its outcome.
ghost use Rattle.std.specs.Prelude.{◌≡◌, ◌≤◌, IfOk, length, map};
ghost use Rattle.suit_top.specs.Commands.Table.{due_tabling, is_table, IsTextTabled, Shows};
ghost use Rattle.suit_top.specs.Texts.{text_bytes};
ghost use Rattle.suit_table.specs.Tables.{IsTable};
ghost use Rattle.suit_table.specs.declared.records.TheConstants.{MOST_TABLE};

use super::is_only;
use crate::judge::SolvingJudge;
use crate::refusal::misfit;
use crate::reply::Reply;
use crate::status::Status;
use std::alloc::{AllocError, Global};
use std::thread::Threads;
use suit_game::Gate;
use suit_table::{TableEnd, table};

/// Whether the words are those of the command.
pub fn are_words(words: &[&str]) -> bool
    ensures { result ≡ is_table (map (λ word. word.now) words.now) }
{
    is_only("table", words)
}

/// The reply to a table: a line for each record, or the line of the first record with more or fewer fields than a
/// question has columns.
pub fn reply<R: Threads + Sync, G: Gate + Sync>(
    rt: &R,
    gate: &G,
    alloc: Global,
    input: &[u8],
) -> Result<Reply, AllocError>
    requires { length input.now ≤ MOST_TABLE }
    ensures status { IfOk result (λ reply. reply.status ≡ (due_tabling input.now).status) }
    ensures text { IfOk result (λ reply. IsTextTabled input.now (text_bytes reply.text)) }
    ensures says { IfOk result (λ reply. reply.status ≡ Status.Done → IsTable Shows input.now (text_bytes reply.text)) }
{
    match table(rt, gate, alloc, &SolvingJudge, input) {
        Ok(text) => Ok(Reply::written(text)),
        Err(TableEnd::Csv { at }) => Ok(Reply::told(Status::Csv, misfit(at))),
        Err(TableEnd::Memory) => Err(AllocError),
    }
}
