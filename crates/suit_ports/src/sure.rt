//! Ports in memory that never fail.
ghost use Rattle.std.specs.Prelude.{◌≡◌, ℕ, ◌+◌, ◌-◌, ◌<◌, ◌^◌, ◌++◌, [], Ok, IfOk, OnErr, length, min, take, drop};
ghost use Rattle.std.specs.Io.{ReadsAtMost, WritesAtMost};
ghost use Rattle.std.specs.Io.KnownBytes.{ReadConsumes, WriteAppends};
ghost use Rattle.suit_ports.specs.PortCounts.{CountStands, Rose};
ghost use Rattle.suit_ports.specs.Held.{fitting, put_into};
ghost use Rattle.suit_ports.specs.Room.{KeepsRoom, IsFull, TookNone};

use super::{Memory, PortFault, Sink, Source};
use std::alloc::Global;
use std::marker::Model;

/// A source of bytes in memory, seen as the bytes left. Each call gives all that `into` has room for.
#[derive(Drop)]
pub struct SureSource {
    bytes: Vec<u8>,
    given: usize,
}

impl Model for SureSource {
    ghost use Rattle.std.specs.Prelude.{◌≤◌, vec_len, drop};
    ghost use Rattle.suit_ports.specs.Bytes.{Bytes};

    ghost Value = { Bytes };

    ghost view = { λ s. drop s.given s.bytes.items };

    ghost invariant = { λ s. s.given ≤ vec_len s.bytes };
}

impl SureSource {
    /// A source that has exactly these bytes left.
    pub fn of(bytes: Vec<u8>) -> SureSource
        ensures { result ≡ bytes.items }
    {
        SureSource { bytes, given: 0 }
    }
}

impl Source for SureSource {
    ghost use Rattle.std.specs.Prelude.{Some};

    ghost left = { λ s. Some s };

    ghost faults = { λ _. 0 };

    fn take(&mut self, into: &mut [u8]) -> Result<usize, PortFault>
        ensures exact { result ≡ Ok (min (length into.old) (length self.old)) }
        ensures bound { ReadsAtMost result into.new }
        ensures bytes { ReadConsumes (Some self.old) (Some self.new) result into.new }
        ensures counts { CountStands 0 0 }
        ensures fault { OnErr result (Rose 0 0) }
    {
        let left = &self.bytes[self.given..];
        let count = into.len().min(left.len());
        into[..count].copy_from_slice(&left[..count]);
        self.given += count;
        Ok(count)
    }
}

/// A sink in memory with a fixed room, seen as what it holds. Each put takes all that fits.
#[derive(Drop)]
pub struct SureSink {
    bytes: Vec<u8>,
    room: usize,
    empties: u64,
}

impl Model for SureSink {
    ghost use Rattle.std.specs.Prelude.{◌≤◌, vec_len, vec_capacity};
    ghost use Rattle.suit_ports.specs.Held.{Held};

    ghost Value = { Held };

    ghost view = { λ s. record { bytes = s.bytes.items; room = s.room; empties = s.empties } };

    ghost invariant = { λ s. (vec_len s.bytes ≤ s.room) × (s.room ≤ vec_capacity s.bytes) };
}

impl SureSink {
    /// A sink that holds nothing, with room for `room` bytes.
    ///
    /// # Errors
    ///
    /// `Memory` where that room cannot be had.
    pub fn with_room(alloc: Global, room: usize) -> Result<SureSink, Memory>
        ensures { IfOk result (λ sink. sink ≡ record { bytes = []; room = room; empties = 0 }) }
    {
        let bytes = Vec::with_capacity(alloc, room)?;
        Ok(SureSink {
            bytes,
            room,
            empties: 0,
        })
    }

    /// The bytes written.
    pub fn bytes(&self) -> &[u8]
        ensures { result.now ≡ self.now.bytes }
    {
        &self.bytes
    }
}

impl Sink for SureSink {
    ghost use Rattle.std.specs.Prelude.{Some, refl};

    ghost written = { λ s. Some s.bytes };

    ghost room = { λ s. Some s.room };

    ghost faults = { λ _. 0 };

    ghost empties = { λ s. s.empties };

    fn put(&mut self, from: &[u8]) -> Result<usize, PortFault>
        ensures exact { result ≡ Ok (fitting self.old from.now) }
        ensures after { self.new ≡ put_into self.old from.now }
        ensures bound { WritesAtMost result from.now }
        ensures bytes { WriteAppends (Some self.old.bytes) (Some self.new.bytes) result from.now }
        ensures room_kept { KeepsRoom (Some self.old.room) (Some self.new.room) }
        ensures counts { CountStands 0 0 }
        ensures fault { OnErr result (Rose 0 0) }
        ensures empty_counts { CountStands self.old.empties self.new.empties }
        ensures empty { TookNone result from.now → Rose self.old.empties self.new.empties }
        ensures only_empty { self.old.empties < self.new.empties → TookNone result from.now }
        ensures full { TookNone result from.now → IsFull (Some self.new.bytes) (Some self.new.room) }
    {
        let count = from.len().min(self.room - self.bytes.len());
        if count == 0 && !from.is_empty() {
            self.empties = self.empties.saturating_add(1);
            return Ok(0);
        }
        if self.bytes.extend_from_slice(&from[..count]).is_err() {
            // The whole room was taken at the start.
            unreachable!();
        }
        Ok(count)
    }

    ghost room_with_bytes = { λ _ _ _. refl };
}
