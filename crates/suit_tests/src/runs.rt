//! Runs over ports in memory, with texts written down from the rules.
use std::alloc::Global;
use std::test::Fail;
use std::thread::Threads;
use suit_game::{Gate, OpenGate};
use suit_ports::{SureSink, SureSource};
use suit_top::run;

/// The most bytes that a text of these tests has, and more.
const ROOM: usize = 100_000;

/// The code of a run, and what it wrote.
pub fn ran<R: Threads + Sync, G: Gate + Sync>(
    rt: &R,
    gate: &G,
    alloc: Global,
    words: &[&str],
    input: &[u8],
) -> Result<(u8, Vec<u8>), Fail> {
    let mut source = SureSource::of(input.to_vec(alloc)?);
    let mut sink = SureSink::with_room(alloc, ROOM)?;
    let status = run(rt, gate, alloc, words, &mut source, &mut sink);
    Ok((status.code(), sink.bytes().to_vec(alloc)?))
}

/// Questions of which `solve` writes an answer without rows, and its value.
const VALUES: [(&str, &str); 10] = [
    ("north A\nsouth 2\ngoal 1\nend\n", "1/1"),
    ("north K\nsouth 2\ngoal 1\nend\n", "0/1"),
    ("north Q\nsouth -\ngoal tricks\nend\n", "0/1"),
    ("north T\nsouth 9\ngoal 0\nend\n", "1/1"),
    ("north A\nsouth K\ngoal 13\nend\n", "0/1"),
    (
        "north -\nsouth A\nstart N\nentries 0 0\ngoal 1\nend\n",
        "0/1",
    ),
    (
        "north -\nsouth A\nstart N\nentries 0 1\ngoal 1\nend\n",
        "1/1",
    ),
    ("north 10\nsouth 2\ngoal 1\nend\n", "0/1"),
    (
        "# the ace\r\n\r\nGOAL 01\r\nSouth\t2 \r\n north a\r\nend",
        "1/1",
    ),
    (
        "north A\nsouth 2\nvacant 12 13\nwest 4 6\nregain S\ngoal tricks\nend\n",
        "1/1",
    ),
];

/// Commands, questions with a fault, the status that is due, and the text.
const FAULTS: [(&str, &str, u8, &str); 14] = [
    ("solve", "", 3, "malformed 1 at line 1\n"),
    (
        "weigh",
        "north A\nsouth A\ngoal 1\nend\n",
        3,
        "malformed 6 at line 4\n",
    ),
    (
        "solve",
        "north A\nsouth 2\nstart W\ngoal 1\nend\n",
        3,
        "malformed 2 at line 3\n",
    ),
    (
        "solve",
        "north A\nnorth A\nsouth 2\ngoal 1\nend\n",
        3,
        "malformed 3 at line 2\n",
    ),
    (
        "solve",
        "north Ax\nsouth 2\ngoal 1\nend\n",
        3,
        "malformed 4 at line 1\n",
    ),
    (
        "solve",
        "north AKA\nsouth 2\ngoal 1\nend\n",
        3,
        "malformed 5 at line 1\n",
    ),
    (
        "solve",
        "north A\nsouth A\ngoal 1\nend\n",
        3,
        "malformed 6 at line 4\n",
    ),
    (
        "solve",
        "north -\nsouth -\ngoal 0\nend\n",
        3,
        "malformed 7 at line 4\n",
    ),
    (
        "solve",
        "north A\nsouth 2\ngoal x\nend\n",
        3,
        "malformed 8 at line 3\n",
    ),
    (
        "solve",
        "north A\nsouth 2\ngoal 14\nend\n",
        3,
        "malformed 9 at line 3\n",
    ),
    (
        "solve",
        "north A\nsouth 2\ngoal 1\nnodes 4000001\nend\n",
        3,
        "malformed 9 at line 4\n",
    ),
    (
        "solve",
        "north A\nsouth 2\nvacant 5 5\ngoal 1\nend\n",
        3,
        "malformed 10 at line 5\n",
    ),
    (
        "solve",
        "north AJT98765432\nsouth -\nstart N\ngoal 11\nwest 3 13\nend\n",
        3,
        "malformed 11 at line 6\n",
    ),
    (
        "solve",
        "north A\nsouth 2\ngoal 1\nend\nx\n",
        3,
        "malformed 12 at line 5\n",
    ),
];

/// Words, how many blanks are the input, and the status that is due, with no text.
const LENGTHS: [(&[&str], usize, u8); 9] = [
    (&["solve"], 2_097_153, 11),
    (&["check"], 2_097_153, 11),
    (&["weigh"], 2_097_153, 11),
    (&["solve", "now"], 3, 2),
    (&["check", "now"], 3, 2),
    (&["weigh", "now"], 3, 2),
    (&["make", "1", "0"], 3, 2),
    (&["make", "4294967296", "1"], 3, 2),
    (&[], 3, 2),
];

#[test]
fn runs_end_as_they_owe(rt: HostRuntime) -> Result<(), Fail> {
    for (input, value) in VALUES {
        let (status, written) = ran(&rt, &OpenGate, rt.alloc(), &["solve"], input.as_bytes())?;
        let text = format!(in rt.alloc(); "answer 1\nvalue {value}\nplan 1 0\ndefence 1 0\nend\n")?;
        assert_eq!(rt; status, 0, "at {input:?}");
        assert_eq!(rt; written.as_slice(), text.as_bytes(), "at {input:?}");
    }
    for (word, input, code, text) in FAULTS {
        let (status, written) = ran(&rt, &OpenGate, rt.alloc(), &[word], input.as_bytes())?;
        assert_eq!(rt; status, code, "at {input:?}");
        assert_eq!(rt; written.as_slice(), text.as_bytes(), "at {input:?}");
    }
    let blanks = vec![in rt.alloc(); b' '; 2_097_153]?;
    for (words, length, code) in LENGTHS {
        assert!(rt; length <= blanks.len());
        let (status, written) = ran(&rt, &OpenGate, rt.alloc(), words, &blanks[..length])?;
        assert_eq!(rt; status, code, "at {words:?}");
        assert!(rt; written.is_empty(), "at {words:?}");
    }
    Ok(())
}
