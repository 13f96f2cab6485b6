//! The questions of `examples/smallest`, each file's text word for word, with what README.md says of it.
ghost use Rattle.std.specs.Prelude.{IfSome};
ghost use Rattle.suit_game.specs.Validity.{IsValid};

use crate::runs::ran;
use std::test::Fail;
use suit_game::{OpenGate, Question, total};
use suit_question::{question_text, read_question};

/// The questions that `solve` answers: the name of the file, its text, and the value.
const ANSWERED: [(&str, &str, &str); 8] = [
    ("a-2", "north A\nsouth 2\ngoal 1\nend\n", "1/1"),
    ("k-2", "north K\nsouth 2\ngoal 1\nend\n", "0/1"),
    ("q-void", "north Q\nsouth -\ngoal tricks\nend\n", "0/1"),
    ("9-a", "north 9\nsouth A\ngoal tricks\nend\n", "1/1"),
    (
        "q-a",
        "# The queen of clubs opposite the ace: one trick, whoever leads.\nnorth Q\nsouth A\ngoal tricks\nend\n",
        "1/1",
    ),
    (
        "void-a",
        "# The ace stands with South, but the lead is in North and there is no way across.\nnorth -\nsouth A\nstart N\nentries 0 0\ngoal 1\nend\n",
        "0/1",
    ),
    (
        "void-a-one-entry",
        "# The same with one entry to South.\nnorth -\nsouth A\nstart N\nentries 0 1\ngoal 1\nend\n",
        "1/1",
    ),
    (
        "a-2-vacant",
        "# West has shown three cards of other suits, and holds four to six of this one.\nnorth A\nsouth 2\nvacant 10 13\nwest 4 6\nregain S\ngoal tricks\nend\n",
        "1/1",
    ),
];

/// The question that a text asks.
fn asked(text: &str) -> Option<Question>
    ensures { IfSome result IsValid }
{
    if text.len() > 1000 {
        return None;
    }
    read_question(text.as_bytes()).ok()
}

#[test]
fn examples_are_answered_weighed_and_read_back(rt: HostRuntime) -> Result<(), Fail> {
    for (name, text, value) in ANSWERED {
        let (status, written) = ran(&rt, &OpenGate, rt.alloc(), &["solve"], text.as_bytes())?;
        let want = format!(in rt.alloc(); "answer 1\nvalue {value}\nplan 1 0\ndefence 1 0\nend\n")?;
        assert_eq!(rt; status, 0, "at {name}");
        assert_eq!(rt; written.as_slice(), want.as_bytes(), "at {name}");

        let question = asked(text).ok_or("a question")?;
        let (status, written) = ran(&rt, &OpenGate, rt.alloc(), &["weigh"], text.as_bytes())?;
        let last = format!(in rt.alloc(); "\ntotal {}\nend\n", total(&question))?;
        assert_eq!(rt; status, 0, "at {name}");
        assert!(rt; written.ends_with(last.as_bytes()), "at {name}");

        let written = question_text(rt.alloc(), &question)?;
        assert!(rt; written.len() <= 1000);
        assert_eq!(rt; read_question(&written), Ok(question), "at {name}");
    }
    Ok(())
}
