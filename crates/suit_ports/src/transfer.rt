//! All bytes of a source, and all bytes of a text to a sink.
ghost use Rattle.std.specs.Prelude.{◌≡◌, ℕ, ◌<◌, ◌≤◌, OnOk, OnErr, IfErr, IsErr, IsErrOf, length, take, ◌⊎◌};
ghost use Rattle.std.specs.Io.KnownBytes.{Appends, Consumes, IsAtEnd};
ghost use Rattle.suit_ports.specs.Bytes.{Bytes};
ghost use Rattle.suit_ports.specs.PortCounts.{CountStands, Rose};
ghost use Rattle.suit_ports.specs.Room.{KeepsRoom, IsFull};
ghost use Rattle.suit_ports.specs.Reading.{Took};

use super::{PortFault, Sink, Source};
use std::alloc::{AllocError, Global};
use thiserror::Error;

/// The most bytes that one call of a source is asked for.
const PIECE: usize = 4096;

/// Why a source was not read to its end.
#[derive(Clone, Copy, Debug, PartialEq, Eq, Error)]
pub enum ReadEnd {
    /// A call of the source failed.
    #[error("a call of the source failed")]
    Fault,
    /// The source has more bytes than the limit.
    #[error("the source has more bytes than the limit")]
    Long,
    /// There was no memory for the bytes.
    #[error("there was no memory for the bytes")]
    Memory,
}

impl From<PortFault> for ReadEnd {
    ghost use Rattle.std.specs.Prelude.{◌≡◌};
    ghost use Rattle.suit_ports.specs.declared.transfer.ReadEnd.TheVariants as ends;

    ghost from_gives = { λ _ e. e ≡ ends.Fault };

    fn from(_: PortFault) -> ReadEnd {
        ReadEnd::Fault
    }
}

impl From<AllocError> for ReadEnd {
    ghost use Rattle.std.specs.Prelude.{◌≡◌};
    ghost use Rattle.suit_ports.specs.declared.transfer.ReadEnd.TheVariants as ends;

    ghost from_gives = { λ _ e. e ≡ ends.Memory };

    fn from(_: AllocError) -> ReadEnd {
        ReadEnd::Memory
    }
}

/// A sink stopped before it had taken all bytes.
#[derive(Clone, Copy, Debug, PartialEq, Eq, Error)]
#[error("the sink stopped after {sent} bytes")]
pub struct WriteEnd {
    /// How many bytes it had taken.
    pub sent: usize,
}

/// Reads a source to its end, and answers all bytes that it gave, at most `limit`.
///
/// Each call asks for at most 4,096 bytes and never for more than one past the limit, and either
/// brings a byte or is the last one.
///
/// # Errors
///
/// `Fault` at a call that failed, which the source's count of faults shows. `Long` as soon as the source has
/// given one byte past the limit, and in no other case. `Memory` for want of memory. What was read by
/// then is gone.
pub fn read_all<S: Source>(alloc: Global, source: &mut S, limit: usize) -> Result<Vec<u8>, ReadEnd>
    requires { limit < usize.MAX }
    ensures taken { (taken : Bytes) × Took limit result taken × Consumes (S.left source.old) (S.left source.new) taken }
    ensures whole { OnOk result (IsAtEnd (S.left source.new)) }
    ensures counts { CountStands (S.faults source.old) (S.faults source.new) }
    ensures fault { IsErrOf result ReadEnd.Fault → Rose (S.faults source.old) (S.faults source.new) }
{
    let mut bytes = Vec::new(alloc);
    let mut piece = [0; PIECE];
    loop {
        let want = PIECE.min(limit + 1 - bytes.len());
        let count = source.take(&mut piece[..want])?;
        if count == 0 {
            return Ok(bytes);
        }
        if count > limit - bytes.len() {
            return Err(ReadEnd::Long);
        }
        bytes.extend_from_slice(&piece[..count])?;
    }
}

/// Writes all of `bytes`, in as many calls as the sink needs.
///
/// # Errors
///
/// `WriteEnd` at a call that failed or took nothing, which the sink's count of faults or of empty puts
/// shows. By then the front of `sent` bytes had been appended, and no more.
pub fn write_all_of<K: Sink>(sink: &mut K, bytes: &[u8]) -> Result<(), WriteEnd>
    ensures all { OnOk result (Appends (K.written sink.old) (K.written sink.new) bytes.now) }
    ensures part { IfErr result (λ end. (end.sent < length bytes.now)
        × Appends (K.written sink.old) (K.written sink.new) (take end.sent bytes.now)) }
    ensures cause { OnErr result (Rose (K.faults sink.old) (K.faults sink.new)
        ⊎ Rose (K.empties sink.old) (K.empties sink.new)) }
    ensures room_kept { KeepsRoom (K.room sink.old) (K.room sink.new) }
    ensures counts { (K.faults sink.old ≤ K.faults sink.new) × (K.empties sink.old ≤ K.empties sink.new) }
    ensures only_empty { K.empties sink.old < K.empties sink.new
        → IsErr result × IsFull (K.written sink.new) (K.room sink.new) }
{
    let mut sent = 0;
    while sent < bytes.len() {
        match sink.put(&bytes[sent..]) {
            Err(_) => return Err(WriteEnd { sent }),
            Ok(0) => return Err(WriteEnd { sent }),
            Ok(count) => sent += count,
        }
    }
    Ok(())
}
