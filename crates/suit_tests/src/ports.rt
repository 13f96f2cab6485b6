//! Runs over ports that fail.
use arrayvec::ArrayVec;
use std::test::Fail;
use suit_game::OpenGate;
use suit_ports::{PortFault, Sink, Source, SureSink, SureSource};
use suit_top::{Status, run};

/// A source that gives one byte a call, and fails at its third call.
#[derive(Drop)]
struct FailingSource {
    calls: u64,
    faults: u64,
}

impl Source for FailingSource {
    ghost use Rattle.std.specs.Prelude.{None};

    ghost left = { λ _. None };

    ghost faults = { λ source. source.faults };

    fn take(&mut self, into: &mut [u8]) -> Result<usize, PortFault> {
        let faults = self.faults;
        self.calls = self.calls.saturating_add(1);
        if self.calls == 3 {
            self.faults = faults.saturating_add(1);
            return Err(PortFault);
        }
        if into.is_empty() {
            return Ok(0);
        }
        into[0] = b' ';
        Ok(1)
    }
}

/// A sink that takes one byte a call, and fails at each call after its third.
#[derive(Drop)]
struct FailingSink {
    held: ArrayVec<u8, 3>,
    faults: u64,
}

impl Sink for FailingSink {
    ghost use Rattle.std.specs.Prelude.{None};

    ghost written = { λ _. None };

    ghost room = { λ _. None };

    ghost faults = { λ sink. sink.faults };

    ghost empties = { λ _. 0 };

    ghost room_with_bytes = { λ _ _ absent. Prim.cc };

    fn put(&mut self, from: &[u8]) -> Result<usize, PortFault> {
        let faults = self.faults;
        let Some(byte) = from.first() else {
            return Ok(0);
        };
        if self.held.is_full() {
            self.faults = faults.saturating_add(1);
            return Err(PortFault);
        }
        self.held.push(*byte);
        Ok(1)
    }
}

#[test]
fn ports_that_fail(rt: HostRuntime) -> Result<(), Fail> {
    let alloc = rt.alloc();
    let text = b"north A\nsouth 2\ngoal 1\nend\n";

    let mut source = FailingSource {
        calls: 0,
        faults: 0,
    };
    let mut sink = SureSink::with_room(alloc, 200)?;
    let status = run(&rt, &OpenGate, alloc, &["solve"], &mut source, &mut sink);
    assert_eq!(rt; status, Status::ReadFault);
    assert_eq!(rt; (source.calls, source.faults), (3, 1));
    assert!(rt; sink.bytes().is_empty());

    let mut source = SureSource::of(text.to_vec(alloc)?);
    let mut sink = FailingSink {
        held: ArrayVec::new(),
        faults: 0,
    };
    let status = run(&rt, &OpenGate, alloc, &["solve"], &mut source, &mut sink);
    assert_eq!(rt; status, Status::WriteFault);
    assert_eq!(rt; sink.held.as_slice(), b"ans".as_slice());
    assert_eq!(rt; sink.faults, 1);

    let mut source = SureSource::of(text.to_vec(alloc)?);
    let mut sink = SureSink::with_room(alloc, 3)?;
    let status = run(&rt, &OpenGate, alloc, &["solve"], &mut source, &mut sink);
    assert_eq!(rt; status.code(), 8);
    assert_eq!(rt; sink.bytes(), b"ans".as_slice());
    Ok(())
}
