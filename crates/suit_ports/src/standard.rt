//! Ports over a reader and a writer of std: the edge that is trusted to hold what it was given.
ghost use Rattle.std.specs.Prelude.{◌≡◌, ℕ, ◌<◌, None};

use super::{PortFault, Sink, Source};
use std::io::{Read, Write};

/// A source over a reader, such as standard input. Nothing is known of what is left in it.
#[derive(Drop)]
pub struct StdSource<R> {
    inner: R,
    faults: u64,
}

impl<R: Read> StdSource<R> {
    /// A source that takes from `inner`, with no fault so far.
    pub fn of(inner: R) -> StdSource<R>
        ensures { ⟦<StdSource<R> as Source>⟧.faults result ≡ 0 }
    {
        StdSource { inner, faults: 0 }
    }
}

impl<R: Read> Source for StdSource<R> {
    ghost left = { λ _. None };

    ghost faults = { λ s. s.faults };

    fn take(&mut self, into: &mut [u8]) -> Result<usize, PortFault> {
        let faults = self.faults;
        match self.inner.read(into) {
            Ok(count) => Ok(count),
            Err(_) => {
                self.faults = faults.saturating_add(1);
                Err(PortFault)
            }
        }
    }
}

/// A sink over a writer, such as standard output. Nothing is known of what it holds.
///
/// After a write of some bytes the writer is flushed. A flush that fails is a fault of the put, which
/// then says nothing about whether its bytes have left.
#[derive(Drop)]
pub struct StdSink<W> {
    inner: W,
    faults: u64,
    empties: u64,
}

impl<W: Write> StdSink<W> {
    /// A sink that puts into `inner`, with no fault and no empty put so far.
    pub fn of(inner: W) -> StdSink<W>
        ensures faults { ⟦<StdSink<W> as Sink>⟧.faults result ≡ 0 }
        ensures empties { ⟦<StdSink<W> as Sink>⟧.empties result ≡ 0 }
    {
        StdSink {
            inner,
            faults: 0,
            empties: 0,
        }
    }
}

impl<W: Write> Sink for StdSink<W> {
    ghost written = { λ _. None };

    ghost room = { λ _. None };

    ghost faults = { λ s. s.faults };

    ghost empties = { λ s. s.empties };

    fn put(&mut self, from: &[u8]) -> Result<usize, PortFault> {
        let faults = self.faults;
        let empties = self.empties;
        match self.inner.write(from) {
            Err(_) => {
                self.faults = faults.saturating_add(1);
                Err(PortFault)
            }
            Ok(0) => {
                if !from.is_empty() {
                    self.empties = empties.saturating_add(1);
                }
                Ok(0)
            }
            Ok(count) => {
                if self.inner.flush().is_err() {
                    self.faults = faults.saturating_add(1);
                    return Err(PortFault);
                }
                Ok(count)
            }
        }
    }

    ghost room_with_bytes = { λ _ _ absent. Prim.cc };
}

#[cfg(test)]
mod tests {
    use super::*;
    use crate::{ReadEnd, WriteEnd, read_all, write_all_of};
    use std::io;
    use std::test::Fail;

    // Gives at most 4 bytes a call, and fails at one call, counted from 1.
    #[derive(Drop)]
    struct Reader {
        left: usize,
        calls: u32,
        failing: u32,
    }

    impl Read for Reader {
        fn read(&mut self, buf: &mut [u8]) -> io::Result<usize> {
            self.calls = self.calls.saturating_add(1);
            if self.calls == self.failing {
                return Err(io::Error::from(io::ErrorKind::Other));
            }
            let count = buf.len().min(self.left).min(4);
            buf[..count].fill(b'a');
            self.left -= count;
            Ok(count)
        }
    }

    // Takes at most so many bytes a call, and fails at one write and one flush, counted from 1.
    #[derive(Drop)]
    struct Writer {
        piece: usize,
        writes: u32,
        failing_write: u32,
        flushes: u32,
        failing_flush: u32,
    }

    impl Write for Writer {
        fn write(&mut self, buf: &[u8]) -> io::Result<usize> {
            self.writes = self.writes.saturating_add(1);
            if self.writes == self.failing_write {
                return Err(io::Error::from(io::ErrorKind::Other));
            }
            Ok(buf.len().min(self.piece))
        }

        fn flush(&mut self) -> io::Result<()> {
            self.flushes = self.flushes.saturating_add(1);
            if self.flushes == self.failing_flush {
                return Err(io::Error::from(io::ErrorKind::Other));
            }
            Ok(())
        }
    }

    #[test]
    fn faults_of_a_reader_are_counted(rt: HostRuntime) -> Result<(), Fail> {
        let whole = b"aaaaaaaaa".as_slice();
        for (failing, limit, want, calls, faults) in [
            (0, 9, Ok(whole), 4, 0),
            (0, 8, Err(ReadEnd::Long), 3, 0),
            (3, 9, Err(ReadEnd::Fault), 3, 1),
            (4, 9, Err(ReadEnd::Fault), 4, 1),
        ] {
            let mut source = StdSource::of(Reader {
                left: 9,
                calls: 0,
                failing,
            });
            let read = read_all(rt.alloc(), &mut source, limit);
            match (&read, want) {
                (Ok(bytes), Ok(text)) => assert_eq!(rt; bytes.as_slice(), text),
                (Err(end), Err(why)) => assert_eq!(rt; *end, why),
                _ => return Err(Fail::from("read to another end")),
            }
            assert_eq!(rt; source.inner.calls, calls, "reads, failing at {failing}");
            assert_eq!(rt; source.faults, faults, "faults, failing at {failing}");
        }
        Ok(())
    }

    #[test]
    fn a_sink_flushes_and_counts(rt: HostRuntime) {
        for (piece, failing_write, failing_flush, want, writes, flushes, faults, empties) in [
            (9, 0, 0, Ok(()), 1, 1, 0, 0),
            (4, 0, 0, Ok(()), 3, 3, 0, 0),
            (4, 2, 0, Err(WriteEnd { sent: 4 }), 2, 1, 1, 0),
            (4, 0, 2, Err(WriteEnd { sent: 4 }), 2, 2, 1, 0),
            (0, 0, 0, Err(WriteEnd { sent: 0 }), 1, 0, 0, 1),
        ] {
            let mut sink = StdSink::of(Writer {
                piece,
                writes: 0,
                failing_write,
                flushes: 0,
                failing_flush,
            });
            assert_eq!(rt; write_all_of(&mut sink, b"answer 1\n"), want);
            assert_eq!(rt; (sink.inner.writes, sink.inner.flushes), (writes, flushes));
            assert_eq!(rt; (sink.faults, sink.empties), (faults, empties));
            // To put nothing is no empty put.
            assert_eq!(rt; sink.put(b""), Ok(0));
            assert_eq!(rt; (sink.faults, sink.empties), (faults, empties));
        }
    }

    #[test]
    fn std_readers_and_writers(rt: HostRuntime) -> Result<(), Fail> {
        let text = b"answer 1\n".as_slice();
        let mut source = StdSource::of(text);
        let read = read_all(rt.alloc(), &mut source, 9).ok().ok_or("read")?;
        assert_eq!(rt; read.as_slice(), text);

        let mut written = Vec::new(rt.alloc());
        let mut sink = StdSink::of(&mut written);
        assert_eq!(rt; write_all_of(&mut sink, text), Ok(()));
        assert_eq!(rt; written.as_slice(), text);
        let mut room = [0; 3];
        let mut sink = StdSink::of(room.as_mut_slice());
        assert_eq!(rt; write_all_of(&mut sink, text), Err(WriteEnd { sent: 3 }));
        Ok(())
    }
}
