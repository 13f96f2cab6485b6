//! What `solve` writes: the answers that another program found, and each refusal at its limit.
use crate::runs::ran;
use crate::solved::SOLVED;
use std::test::Fail;
use suit_game::OpenGate;

/// The answer where each number is sure and no row is needed.
const SURE: &str = "answer 1\nvalue 1/1\nplan 1 0\ndefence 1 0\nend\n";

/// The answer to ten cards without the king and the two, of which one faces nine.
const TEN_ANSWERED: &str =
    "answer 1\nvalue 13/25\nplan 1 0\ndefence 1 2\nwest 0 0 at S3 - A : 2 2496144\nwest 1 1 at S3 : 2 2496144\nend\n";

/// Questions at a limit and past it: the status, and the whole text.
const LIMITS: [(&str, u8, &str); 12] = [
    ("north AK\nsouth 32\ngoal 2\nend\n", 0, SURE),
    (
        "north AK\nsouth 32\ngoal 2\npivots 0\nend\n",
        5,
        "pivots 0 at round 0\n",
    ),
    (
        "north AKQJT98765432\nsouth -\nstart N\ngoal 13\nnodes 53\nend\n",
        0,
        SURE,
    ),
    (
        "north AKQJT98765432\nsouth -\nstart N\ngoal 13\nnodes 52\nend\n",
        4,
        "nodes 52\n",
    ),
    (
        "north AKQJT98765432\nsouth -\nstart N\ngoal 0\nnodes 1\nend\n",
        0,
        SURE,
    ),
    (
        "north AJT98765432\nsouth -\nstart N\ngoal 11\nend\n",
        0,
        "answer 1\nvalue 13/25\nplan 1 0\ndefence 1 0\nend\n",
    ),
    (
        "north AQJT987654\nsouth 3\nstart S\nentries 0 0\ngoal 10\npivots 6\nend\n",
        0,
        TEN_ANSWERED,
    ),
    (
        "north AQJT987654\nsouth 3\nstart S\nentries 0 0\ngoal 10\npivots 5\nend\n",
        5,
        "pivots 5 at round 1\n",
    ),
    (
        "north KJ9\nsouth 432\ngoal 1\nentries 0 2\nend\n",
        10,
        "support at round 22\n",
    ),
    ("north A\nsouth 2\ngoal 1\nend\n", 0, SURE),
    ("north A\nsouth 2\ngoal 1\nnodes 4000000\nend\n", 0, SURE),
    (
        "north A\nsouth 2\ngoal 1\nnodes 4000001\nend\n",
        3,
        "malformed 9 at line 4\n",
    ),
];

#[test]
fn solve_writes_the_answers_of_another_program(rt: HostRuntime) -> Result<(), Fail> {
    for (name, question, answer) in SOLVED {
        let (status, written) = ran(&rt, &OpenGate, rt.alloc(), &["solve"], question.as_bytes())?;
        assert_eq!(rt; status, 0, "at {name}");
        assert_eq!(rt; written.as_slice(), answer.as_bytes(), "at {name}");
    }
    Ok(())
}

#[test]
fn limits_are_met_where_they_stand(rt: HostRuntime) -> Result<(), Fail> {
    for (question, code, text) in LIMITS {
        let (status, written) = ran(&rt, &OpenGate, rt.alloc(), &["solve"], question.as_bytes())?;
        assert_eq!(rt; status, code, "at {question}");
        assert_eq!(rt; written.as_slice(), text.as_bytes(), "at {question}");
    }
    Ok(())
}

/// Questions of which the value alone is told.
const VALUES: [(&str, &str); 5] = [
    (
        "north AQ\nsouth 32\nstart S\nentries 0 0\ngoal 2\nend\n",
        "1/2",
    ),
    (
        "north AQ\nsouth 32\nstart S\nentries 0 0\ngoal tricks\nend\n",
        "3/2",
    ),
    (
        "north AQ\nsouth 32\nstart S\nentries 0 0\ngoal 2\nvacant 10 13\nend\n",
        "10/23",
    ),
    (
        "north 32\nsouth AQ\nstart N\nentries 0 0\nvacant 13 10\ngoal 2\nend\n",
        "10/23",
    ),
    (
        "north AKT9876\nsouth 54\nstart S\nentries 0 1\ngoal 7\nend\n",
        "533/1150",
    ),
];

#[test]
fn values_are_as_computed_by_hand(rt: HostRuntime) -> Result<(), Fail> {
    for (question, value) in VALUES {
        let (status, written) = ran(&rt, &OpenGate, rt.alloc(), &["solve"], question.as_bytes())?;
        let first = format!(in rt.alloc(); "answer 1\nvalue {value}\n")?;
        assert_eq!(rt; status, 0, "at {question}");
        assert!(rt; written.starts_with(first.as_bytes()), "at {question}");
    }
    Ok(())
}
