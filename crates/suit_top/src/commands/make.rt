//! `make`: a table of questions that a plain generator draws.
ghost use Rattle.std.specs.Prelude.{◌≡◌, IfOk, IfSome, map};
ghost use Rattle.suit_top.specs.Commands.Made.{IsMade};
ghost use Rattle.suit_top.specs.Commands.Make.{made_by_words, made_text};
ghost use Rattle.suit_top.specs.Texts.{text_bytes};

use super::made::{MadeTable, table_named};
use crate::reply::Reply;
use crate::status::Status;
use std::alloc::{AllocError, Global};
use suit_gen::make;

/// The table that the words of the command name.
pub fn table_in(words: &[&str]) -> Option<MadeTable>
    ensures named { result ≡ made_by_words (map (λ word. word.now) words.now) }
    ensures within { IfSome result IsMade }
{
    table_named("make", words)
}

/// The reply: the table.
pub fn reply(alloc: Global, made: MadeTable) -> Result<Reply, AllocError>
    ensures status { IfOk result (λ reply. reply.status ≡ Status.Done) }
    ensures text { IfOk result (λ reply. text_bytes reply.text ≡ made_text made) }
{
    Ok(Reply::written(make(alloc, made.number, made.count)?))
}
