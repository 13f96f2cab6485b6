//! Where bytes come from.
ghost use Rattle.std.specs.Prelude.{ℕ, Option, OnErr};
ghost use Rattle.std.specs.Io.{ReadsAtMost};
ghost use Rattle.std.specs.Io.KnownBytes.{ReadConsumes};
ghost use Rattle.suit_ports.specs.Bytes.{Bytes};
ghost use Rattle.suit_ports.specs.PortCounts.{CountStands, Rose};

use thiserror::Error;

/// A call of a port failed. The port's count of faults tells of it.
#[derive(Clone, Copy, Debug, PartialEq, Eq, Error)]
#[error("a call of a port failed")]
pub struct PortFault;

/// A port that gives bytes.
pub trait Source {
    /// The bytes that are left, where the source tells them.
    ghost left: { Self → Option Bytes };

    /// How many faults there were, up to the last value of a `u64`.
    ghost faults: { Self → ℕ };

    /// Fills the front of `into` with the next bytes, and answers how many it gave.
    ///
    /// Where `into` has room and no byte comes, the source has ended.
    ///
    /// # Errors
    ///
    /// `PortFault` where a call failed: this very call raised the count of faults, and the bytes left stay.
    fn take(&mut self, into: &mut [u8]) -> Result<usize, PortFault>
        ensures bound { ReadsAtMost result into.new }
        ensures bytes { ReadConsumes (left self.old) (left self.new) result into.new }
        ensures counts { CountStands (faults self.old) (faults self.new) }
        ensures fault { OnErr result (Rose (faults self.old) (faults self.new)) };
}
