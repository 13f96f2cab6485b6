//! Runs whose gate sees whether two tasks were at work at once.
use crate::runs::ran;
use std::sync::atomic::{AtomicU64, Ordering};
use std::test::Fail;
use suit_game::Gate;

/// A gate that counts who enters it, and waits a while at each entry for a second one.
#[derive(Drop)]
struct CountingGate {
    entries: AtomicU64,
    misses: AtomicU64,
}

impl Gate for CountingGate {
    fn enter(&self) {
        self.entries.fetch_add(1, Ordering::SeqCst);
        for _ in 0..200_000_000_u64 {
            if self.entries.load(Ordering::SeqCst) >= 2 {
                return;
            }
        }
        self.misses.fetch_add(1, Ordering::SeqCst);
    }
}

impl CountingGate {
    fn new() -> CountingGate {
        CountingGate {
            entries: AtomicU64::new(0),
            misses: AtomicU64::new(0),
        }
    }

    /// Whether two tasks or more entered, and none waited in vain.
    fn was_shared(&self) -> bool {
        self.entries.load(Ordering::SeqCst) >= 2 && self.misses.load(Ordering::SeqCst) == 0
    }
}

/// Words, inputs of two tasks or more, and the texts. The last asks of ten cards without the king and the two, and tells
/// the right answer.
const SHARED: [(&[&str], &str, &str); 3] = [
    (
        &["table"],
        "AQ,32,S,,0,0,,,,,2,,\nAQ,32,S,,0,0,,,,,2,,\n",
        "1,value,1/2\n2,value,1/2\n",
    ),
    (
        &["trial", "1", "2"],
        "",
        "records 2 values 0 nodes 2 support 0 pivots 0 wide 0\n",
    ),
    (
        &["check"],
        "north AQJT987654\nsouth 3\nstart S\nentries 0 0\ngoal 10\nend\n\
         answer 1\nvalue 13/25\nplan 1 0\ndefence 1 2\n\
         west 0 0 at S3 - A : 2 2496144\nwest 1 1 at S3 : 2 2496144\nend\n",
        "valid\n",
    ),
];

#[test]
fn tasks_are_done_side_by_side(rt: HostRuntime) -> Result<(), Fail> {
    for (words, input, text) in SHARED {
        let gate = CountingGate::new();
        let (status, written) = ran(&rt, &gate, rt.alloc(), words, input.as_bytes())?;
        assert_eq!(rt; status, 0, "at {words:?}");
        assert_eq!(rt; written.as_slice(), text.as_bytes(), "at {words:?}");
        assert!(rt; gate.was_shared(), "at {words:?}");
    }
    Ok(())
}
