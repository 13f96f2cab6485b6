//! What a command makes of its input, whole, before the first byte is written.
ghost use Rattle.std.specs.Prelude.{◌≡◌, [], false, IfOk, IsErrOf, string_bytes};
ghost use Rattle.suit_ports.specs.PortCounts.{Rose};
ghost use Rattle.suit_top.specs.Commands.{IsCommand, reads_input};
ghost use Rattle.suit_top.specs.Refusals.{malformed_line};
ghost use Rattle.suit_top.specs.Replies.{Failed, IsReply};
ghost use Rattle.suit_top.specs.Texts.{text_bytes};

use crate::commands::Command;
use crate::refusal::{Refusal, malformed};
use crate::status::Status;
use std::alloc::{AllocError, Global};
use std::thread::Threads;
use suit_game::Gate;
use suit_ports::{ReadEnd, Source, read_all};
use suit_question::QuestionFault;

/// The text of a reply.
#[derive(Debug, Drop)]
pub enum ReplyText {
    /// A text of any length, made in memory.
    Made(String),
    /// A text that was made byte by byte.
    Written(Vec<u8>),
    /// One line, which took no memory.
    Line(Refusal),
    /// No byte.
    Nothing,
}

impl ReplyText {
    /// The bytes of the text.
    pub fn as_bytes(&self) -> &[u8]
        ensures { result.now ≡ text_bytes self.now }
    {
        match self {
            ReplyText::Made(text) => text.as_bytes(),
            ReplyText::Written(text) => text,
            ReplyText::Line(text) => text.as_bytes(),
            ReplyText::Nothing => &[],
        }
    }
}

/// A status, and the text that is written with it.
#[derive(Debug, Drop)]
pub struct Reply {
    pub status: Status,
    pub text: ReplyText,
}

impl Reply {
    /// The text that the command is for.
    pub fn done(text: String) -> Reply
        ensures status { result.status ≡ Status.Done }
        ensures text { text_bytes result.text ≡ string_bytes text }
    {
        Reply {
            status: Status::Done,
            text: ReplyText::Made(text),
        }
    }

    /// The text that the command is for, by its bytes.
    pub fn written(text: Vec<u8>) -> Reply
        ensures status { result.status ≡ Status.Done }
        ensures text { text_bytes result.text ≡ text.items }
    {
        Reply {
            status: Status::Done,
            text: ReplyText::Written(text),
        }
    }

    /// The line of a question text's first fault.
    pub fn malformed(fault: QuestionFault) -> Reply
        ensures status { result.status ≡ Status.Malformed }
        ensures text { text_bytes result.text ≡ malformed_line fault }
    {
        Reply {
            status: Status::Malformed,
            text: ReplyText::Line(malformed(fault)),
        }
    }

    /// A status with the line that tells it.
    pub fn told(status: Status, line: Refusal) -> Reply
        ensures status { result.status ≡ status }
        ensures text { text_bytes result.text ≡ line.bytes }
    {
        Reply {
            status,
            text: ReplyText::Line(line),
        }
    }

    /// A reply with which nothing is written.
    pub fn silent(status: Status) -> Reply
        ensures status { result.status ≡ status }
        ensures text { text_bytes result.text ≡ [] }
    {
        Reply {
            status,
            text: ReplyText::Nothing,
        }
    }
}

/// Why a command made no reply.
#[derive(Clone, Copy, Debug, PartialEq, Eq)]
pub enum ReplyEnd {
    /// The source failed.
    ReadFault,
    /// There was no memory.
    Memory,
}

impl From<AllocError> for ReplyEnd {
    ghost use Rattle.std.specs.Prelude.{◌≡◌};
    ghost use Rattle.suit_top.specs.declared.reply.ReplyEnd.TheVariants as ends;

    ghost from_gives = { λ _ end. end ≡ ends.Memory };

    fn from(_: AllocError) -> ReplyEnd {
        ReplyEnd::Memory
    }
}

/// Reads the input of a command, if it reads one, and makes the reply to it.
pub fn reply_to<R: Threads + Sync, G: Gate + Sync, S: Source>(
    rt: &R,
    gate: &G,
    alloc: Global,
    command: Command,
    source: &mut S,
) -> Result<Reply, ReplyEnd>
    requires { IsCommand command }
    ensures reply { IfOk result (IsReply command (S.left source.old) (S.left source.new)) }
    ensures fault { IsErrOf result ReplyEnd.ReadFault
        → Rose (S.faults source.old) (S.faults source.new) × Failed command (S.left source.old) (S.left source.new) }
    ensures kept { reads_input command ≡ false → source.new ≡ source.old }
{
    if !command.reads_input() {
        return Ok(command.reply(rt, gate, alloc, &[])?);
    }
    match read_all(alloc, source, command.limit()) {
        Ok(input) => Ok(command.reply(rt, gate, alloc, &input)?),
        Err(ReadEnd::Long) => Ok(Reply::silent(Status::Long)),
        Err(ReadEnd::Fault) => Err(ReplyEnd::ReadFault),
        Err(ReadEnd::Memory) => Err(ReplyEnd::Memory),
    }
}
