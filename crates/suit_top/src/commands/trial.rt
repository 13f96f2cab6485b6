//! `trial`: the questions of a made table, judged, and how many come to which outcome.
ghost use Rattle.std.specs.Prelude.{◌≡◌, IfOk, IfSome, map};
ghost use Rattle.suit_top.specs.Commands.Made.{IsMade};
ghost use Rattle.suit_top.specs.Commands.Trial.{tried_by_words, trial_text};
ghost use Rattle.suit_top.specs.Texts.{text_bytes};

use super::made::{MadeTable, table_named};
use crate::judge::SolvingJudge;
use crate::reply::Reply;
use crate::status::Status;
use std::alloc::{AllocError, Global};
use std::thread::Threads;
use suit_game::Gate;
use suit_gen::questions;
use suit_table::summary;

/// The table that the words of the command name.
pub fn table_in(words: &[&str]) -> Option<MadeTable>
    ensures named { result ≡ tried_by_words (map (λ word. word.now) words.now) }
    ensures within { IfSome result IsMade }
{
    table_named("trial", words)
}

/// The reply: one line of counts.
pub fn reply<R: Threads + Sync, G: Gate + Sync>(
    rt: &R,
    gate: &G,
    alloc: Global,
    made: MadeTable,
) -> Result<Reply, AllocError>
    requires { IsMade made }
    ensures status { IfOk result (λ reply. reply.status ≡ Status.Done) }
    ensures text { IfOk result (λ reply. text_bytes reply.text ≡ trial_text made) }
{
    let questions = questions(alloc, made.number, made.count)?;
    let text = summary(rt, gate, alloc, &SolvingJudge, &questions)?;
    Ok(Reply::written(text))
}
