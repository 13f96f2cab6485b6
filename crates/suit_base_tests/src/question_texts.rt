//! Question texts and drafts: what is read and written, and the first fault.

use std::test::Fail;
use suit_game::Question;
use suit_question::{
    Draft, QuestionFault, QuestionKind, question_end, question_text, read_question,
};

fn read(text: &str) -> Option<Result<Question, QuestionFault>> {
    let bytes = text.as_bytes();
    if bytes.len() > 1000 {
        return None;
    }
    Some(read_question(bytes))
}

#[test]
fn tells_the_first_fault(rt: HostRuntime) {
    for (text, kind, line) in [
        ("", QuestionKind::NoLine, 1),
        (
            "north A\nsouth 2\nstart W\ngoal 1\nend\n",
            QuestionKind::Word,
            3,
        ),
        (
            "north A\nnorth A\nsouth 2\ngoal 1\nend\n",
            QuestionKind::Repeated,
            2,
        ),
        ("north Ax\nsouth 2\ngoal 1\nend\n", QuestionKind::Rank, 1),
        ("north AKA\nsouth 2\ngoal 1\nend\n", QuestionKind::Twice, 1),
        ("north A\nsouth A\ngoal 1\nend\n", QuestionKind::Shared, 4),
        ("north -\nsouth -\ngoal 0\nend\n", QuestionKind::Empty, 4),
        ("north A\nsouth 2\ngoal x\nend\n", QuestionKind::Number, 3),
        ("north A\nsouth 2\ngoal 14\nend\n", QuestionKind::Range, 3),
        (
            "north A\nsouth 2\nvacant 5 5\ngoal 1\nend\n",
            QuestionKind::Vacant,
            5,
        ),
        (
            "north AJT98765432\nsouth -\nstart N\ngoal 11\nwest 3 13\nend\n",
            QuestionKind::NoLayout,
            6,
        ),
        ("north A\nsouth 2\ngoal 1\nend\nx\n", QuestionKind::Tail, 5),
        // A carriage return with no line feed after it stays.
        ("north A\nsouth 2\ngoal 1\nend\r", QuestionKind::Word, 4),
        (
            "north A\nsouth 2\ngoal 2\r\r\nend\n",
            QuestionKind::Number,
            3,
        ),
        ("north A\nnorth\nend\n", QuestionKind::Word, 2),
        ("goal 1\nend\nx\n", QuestionKind::Tail, 3),
        ("goal 1\nend x\n", QuestionKind::Word, 2),
        ("entries 14 x\n", QuestionKind::Range, 1),
        ("entries x 14\n", QuestionKind::Number, 1),
        ("goal 0000000001\n", QuestionKind::Number, 1),
        ("# a\n\n \t\nnodes 4000001\n", QuestionKind::Range, 4),
        ("nodes 0\n", QuestionKind::Range, 1),
        ("north 2\x0b\n", QuestionKind::Rank, 1),
        ("\nnorth A\nsouth 2\nend", QuestionKind::NoLine, 4),
        ("north A\nsouth 2\ngoal 1", QuestionKind::NoLine, 4),
        (
            "north A\nsouth 2\ngoal 1\nwest 5 4\nend\n",
            QuestionKind::Range,
            5,
        ),
    ] {
        assert_eq!(rt;
            read(text),
            Some(Err(QuestionFault { kind, line })),
            "from {text}"
        );
    }
}

#[test]
fn writes_what_it_reads(rt: HostRuntime) -> Result<(), Fail> {
    let plain =
        "north A\nsouth 2\nstart either\nregain either\nentries free free\nvacant 13 13\nwest 0 13\ngoal 1\nnodes 200000\npivots 100000\nend\n";
    let full =
        "north T\nsouth -\nstart N\nregain S\nentries 0 13\nvacant 12 7\nwest 2 9\ngoal tricks\nnodes 4000000\npivots 0\nend\n";
    for (text, want) in [
        ("north A\nsouth 2\ngoal 1\nend\n", plain),
        (
            "# an ace\r\n\r\n GOAL\t01 \r\nSouth 2\nNORTH a\n\tEnd ",
            plain,
        ),
        (
            "pivots 0\nnodes 004000000\nGoal Tricks\nwest 02 9\nvacant 12 7\nentries 0 13\nregain s\nstart n\nsouth -\nnorth 10\nend\n\n# more\n",
            full,
        ),
    ] {
        let question = read(text).ok_or("a short text")?.ok().ok_or("a question")?;
        assert_eq!(rt;
            question_text(rt.alloc(), &question)?.as_slice(),
            want.as_bytes()
        );
        assert_eq!(rt; read(want), Some(Ok(question)));
    }
    Ok(())
}

#[test]
fn finds_the_end(rt: HostRuntime) {
    for (text, want) in [
        ("", 0),
        ("goal 1\n", 7),
        ("goal 1\nend\nmore\nend\n", 11),
        ("# end\n END\t\r\nx", 13),
        ("end x\nend", 9),
        ("end\r", 4),
    ] {
        assert_eq!(rt; question_end(text.as_bytes()), want, "of {text}");
    }
}

#[test]
fn drafts_keep_what_was_put(rt: HostRuntime) {
    let mut draft = Draft::new();
    for (column, text, want) in [
        (1, "A", Ok(())),
        (2, "x", Err(QuestionKind::Rank)),
        (2, "2", Ok(())),
        (1, "?", Err(QuestionKind::Repeated)),
        (3, "N S", Err(QuestionKind::Word)),
        (11, "1 1", Err(QuestionKind::Number)),
        (11, "14", Err(QuestionKind::Range)),
        (11, "1", Ok(())),
    ] {
        assert_eq!(rt;
            draft.put(column, text.as_bytes(), 7),
            want.map_err(|kind| QuestionFault { kind, line: 7 }),
            "at {text}"
        );
    }
    assert_eq!(rt;
        Some(draft.finish(9)),
        read("north A\nsouth 2\ngoal 1\nend\n")
    );
    let none = QuestionFault {
        kind: QuestionKind::NoLine,
        line: 9,
    };
    assert_eq!(rt; Draft::new().finish(9), Err(none));
}
