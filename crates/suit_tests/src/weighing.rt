//! What `weigh` writes of questions.
use crate::runs::ran;
use std::test::Fail;
use suit_game::OpenGate;

/// Questions, and the texts of their weights. The last is that of `akjt9-8765.txt`.
const WEIGHTS: [(&str, &str); 4] = [
    (
        "north AJT98765432\nsouth -\nstart N\ngoal 11\nend\n",
        "weights 3\nwest 0 : 2496144\nwest 1 : 5408312\nwest 2 : 2496144\ntotal 10400600\nend\n",
    ),
    (
        "north AKQJT98765432\nsouth -\nstart N\ngoal 13\nnodes 53\nend\n",
        "weights 1\nwest : 10400600\ntotal 10400600\nend\n",
    ),
    (
        "north AQJT987654\nsouth 3\nstart S\nentries 0 0\ngoal 10\nend\n",
        "weights 4\nwest 0 0 : 2496144\nwest 0 1 : 2704156\nwest 1 0 : 2704156\nwest 1 1 : 2496144\n\
         total 10400600\nend\n",
    ),
    (
        "# Nine cards without the queen: play for the drop, or finesse?\nnorth AKJT9\nsouth 8765\ngoal 5\nend\n",
        "weights 8\nwest 0 0 : 497420\nwest 0 1 : 1939938\nwest 0 2 : 2116296\nwest 0 3 : 646646\n\
         west 1 0 : 646646\nwest 1 1 : 2116296\nwest 1 2 : 1939938\nwest 1 3 : 497420\ntotal 10400600\nend\n",
    ),
];

#[test]
fn weights_are_told(rt: HostRuntime) -> Result<(), Fail> {
    for (input, text) in WEIGHTS {
        let (status, written) = ran(&rt, &OpenGate, rt.alloc(), &["weigh"], input.as_bytes())?;
        assert_eq!(rt; status, 0, "at {input:?}");
        assert_eq!(rt; written.as_slice(), text.as_bytes(), "at {input:?}");
    }
    Ok(())
}
