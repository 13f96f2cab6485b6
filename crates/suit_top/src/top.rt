//! The call that `main` makes.
ghost use Rattle.std.specs.Prelude.{◌≡◌, ◌<◌, ◌⊎◌, false, None, map};
ghost use Rattle.suit_ports.specs.PortCounts.{Rose};
ghost use Rattle.suit_ports.specs.Room.{KeepsRoom, IsFull};
ghost use Rattle.suit_top.specs.Replies.{Delivered, Stopped};
ghost use Rattle.suit_top.specs.Commands.{command_of, words_read};
ghost use Rattle.suit_top.specs.Runs.{Runs};

use crate::commands::Command;
use crate::reply::{Reply, ReplyEnd, reply_to};
use crate::status::Status;
use std::alloc::Global;
use std::thread::Threads;
use suit_game::Gate;
use suit_ports::{Sink, Source, write_all_of};

/// Runs the command that `words` form: reads its input from `source`, and writes its whole text to `sink`.
///
/// The words are those after the program's name. The text is made whole before the first byte is
/// written. The status is the one that is due, but for `ReadFault`, `WriteFault` and `Memory`, which
/// come only where a port failed or memory was wanting.
pub fn run<R: Threads + Sync, G: Gate + Sync, S: Source, K: Sink>(
    rt: &R,
    gate: &G,
    alloc: Global,
    words: &[&str],
    source: &mut S,
    sink: &mut K,
) -> Status
    ensures clause { Runs (map (λ word. word.now) words.now)
        (record {
          left = S.left source.old;
          source_faults = S.faults source.old;
          written = K.written sink.old;
          room = K.room sink.old;
          sink_faults = K.faults sink.old;
          empty_puts = K.empties sink.old;
        })
        (record {
          left = S.left source.new;
          source_faults = S.faults source.new;
          written = K.written sink.new;
          room = K.room sink.new;
          sink_faults = K.faults sink.new;
          empty_puts = K.empties sink.new;
        })
        result }

    // Words that read no input leave the source as it was, and words that form no command the sink too.
    ensures source_kept { words_read (command_of (map (λ word. word.now) words.now)) ≡ false → source.new ≡ source.old }
    ensures sink_kept { command_of (map (λ word. word.now) words.now) ≡ None → sink.new ≡ sink.old }
{
    let Some(command) = Command::of(words) else {
        return Status::Usage;
    };
    match reply_to(rt, gate, alloc, command, source) {
        Ok(reply) => deliver(sink, &reply),
        Err(ReplyEnd::ReadFault) => Status::ReadFault,
        Err(ReplyEnd::Memory) => Status::Memory,
    }
}

/// Writes the text of a reply, and answers how the run ended.
fn deliver<K: Sink>(sink: &mut K, reply: &Reply) -> Status
    ensures ending { Delivered reply.now (K.written sink.old) (K.written sink.new) result
        ⊎ (Stopped reply.now (K.written sink.old) (K.written sink.new) result
        × (Rose (K.faults sink.old) (K.faults sink.new) ⊎ Rose (K.empties sink.old) (K.empties sink.new))) }
    ensures room_kept { KeepsRoom (K.room sink.old) (K.room sink.new) }
    ensures empty_puts { K.empties sink.old < K.empties sink.new
        → (result ≡ Status.WriteFault) × IsFull (K.written sink.new) (K.room sink.new) }
{
    match write_all_of(sink, reply.text.as_bytes()) {
        Ok(()) => reply.status,
        Err(_) => Status::WriteFault,
    }
}
