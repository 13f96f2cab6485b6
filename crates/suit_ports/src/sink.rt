//! Where bytes go.
ghost use Rattle.std.specs.Prelude.{◌≡◌, ℕ, ◌<◌, Option, Some, IsSome, OnErr};
ghost use Rattle.std.specs.Io.{WritesAtMost};
ghost use Rattle.std.specs.Io.KnownBytes.{WriteAppends};
ghost use Rattle.suit_ports.specs.Bytes.{Bytes};
ghost use Rattle.suit_ports.specs.PortCounts.{CountStands, Rose};
ghost use Rattle.suit_ports.specs.Room.{KeepsRoom, IsFull, TookNone};

use super::PortFault;

/// A port that takes bytes.
pub trait Sink {
    /// The bytes written so far, where the sink tells them.
    ghost written: { Self → Option Bytes };

    /// How many bytes it can hold in all, where it tells that.
    ghost room: { Self → Option ℕ };

    /// How many faults there were, up to the last value of a `u64`.
    ghost faults: { Self → ℕ };

    /// How many puts took no byte of a nonempty piece, up to the last value of a `u64`.
    ghost empties: { Self → ℕ };

    /// Appends the front of `from`, and answers how many bytes it took.
    ///
    /// A put that takes nothing, though there was something to take, is an empty put and is counted. A
    /// sink that tells its room makes one only when that is full.
    ///
    /// # Errors
    ///
    /// `PortFault` where a call failed: this very call raised the count of faults, and nothing was appended.
    fn put(&mut self, from: &[u8]) -> Result<usize, PortFault>
        ensures bound { WritesAtMost result from.now }
        ensures bytes { WriteAppends (written self.old) (written self.new) result from.now }
        ensures room_kept { KeepsRoom (room self.old) (room self.new) }
        ensures counts { CountStands (faults self.old) (faults self.new) }
        ensures fault { OnErr result (Rose (faults self.old) (faults self.new)) }
        ensures empty_counts { CountStands (empties self.old) (empties self.new) }
        ensures empty { TookNone result from.now → Rose (empties self.old) (empties self.new) }
        ensures only_empty { empties self.old < empties self.new → TookNone result from.now }
        ensures full { TookNone result from.now → IsFull (written self.new) (room self.new) };

    /// Who knows the room knows the bytes. So `full` asks something of every sink that tells its room, and a sink that
    /// tells no bytes tells no room that it could break.
    ghost room_with_bytes: { (sink : Self) (whole : ℕ) → room sink ≡ Some whole → IsSome (written sink) };
}
