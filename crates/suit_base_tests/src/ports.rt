//! The ports in memory, and what `read_all` asks of a source, on cases worked out by hand.
ghost use Rattle.std.specs.Prelude.{None};

use std::test::Fail;
use suit_ports::{PortFault, Source, SureSink, SureSource, read_all, write_all_of};

/// A source that notes the length of each slice that it is lent.
#[derive(Drop)]
struct Noting {
    left: usize,
    piece: usize,
    lent: [usize; 4],
    calls: usize,
}

impl Source for Noting {
    ghost left = { λ _. None };

    ghost faults = { λ _. 0 };

    fn take(&mut self, into: &mut [u8]) -> Result<usize, PortFault> {
        if self.calls < 4 {
            self.lent[self.calls] = into.len();
            self.calls += 1;
        }
        let count = into.len().min(self.left).min(self.piece);
        self.left -= count;
        Ok(count)
    }
}

#[test]
fn read_all_asks_for_one_byte_past_the_limit(rt: HostRuntime) -> Result<(), Fail> {
    for (left, piece, limit, lent, count) in [
        (0, 1, 0, [1, 0, 0, 0], Some(0)),
        (1, 1, 0, [1, 0, 0, 0], None),
        (9, 4, 9, [10, 6, 2, 1], Some(9)),
        (5000, 3000, 6000, [4096, 3001, 1001, 0], Some(5000)),
        (5000, 3000, 4999, [4096, 2000, 0, 0], None),
        (9000, 9000, 9000, [4096, 4096, 809, 1], Some(9000)),
    ] {
        let mut source = Noting {
            left,
            piece,
            lent: [0; 4],
            calls: 0,
        };
        let read = read_all(rt.alloc(), &mut source, limit);
        assert_eq!(rt; source.lent, lent, "limit {limit}");
        assert_eq!(rt; read.ok().map(|bytes| bytes.len()), count, "limit {limit}");
    }
    Ok(())
}

#[test]
fn ports_in_memory(rt: HostRuntime) -> Result<(), Fail> {
    let text = b"answer 1\n".as_slice();
    for (room, held) in [(20, text), (9, text), (3, b"ans".as_slice())] {
        let mut source = SureSource::of(text.to_vec(rt.alloc())?);
        let read = read_all(rt.alloc(), &mut source, 9).ok().ok_or("read")?;
        let mut sink = SureSink::with_room(rt.alloc(), room)?;
        let written = write_all_of(&mut sink, &read);
        assert_eq!(rt; written.is_ok(), held.len() == 9, "room {room}");
        assert_eq!(rt; sink.bytes(), held, "room {room}");
    }
    Ok(())
}
