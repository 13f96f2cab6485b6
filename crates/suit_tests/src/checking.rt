//! What `check` and `lines` write of answers: right ones, and ones with one thing wrong.
use crate::runs::ran;
use crate::solved::SOLVED;
use std::alloc::Global;
use std::test::Fail;
use suit_game::OpenGate;

/// Eleven cards without the king and the queen: the ace is led, and both fall or not.
const ELEVEN: &str = "north AJT98765432\nsouth -\nstart N\ngoal 11\nend\n";

/// The right answer to it.
const ELEVEN_ANSWERED: &str = "answer 1\nvalue 13/25\nplan 1 0\ndefence 1 0\nend\n";

/// Ten cards without the king and the two, of which one faces nine.
const TEN: &str = "north AQJT987654\nsouth 3\nstart S\nentries 0 0\ngoal 10\nend\n";

/// The same, with a budget of one node.
const TEN_WITHIN_ONE: &str =
    "north AQJT987654\nsouth 3\nstart S\nentries 0 0\ngoal 10\nnodes 1\nend\n";

/// The right answer to the ten cards.
const TEN_ANSWERED: &str =
    "answer 1\nvalue 13/25\nplan 1 0\ndefence 1 2\nwest 0 0 at S3 - A : 2 2496144\nwest 1 1 at S3 : 2 2496144\nend\n";

/// Commands, questions, answers to them, the status that is due, and the text.
const CASES: [(&str, &str, &str, u8, &str); 20] = [
    ("check", ELEVEN, ELEVEN_ANSWERED, 0, "valid\n"),
    (
        "check",
        ELEVEN,
        "answer 1\nvalue 14/25\nplan 1 0\ndefence 1 0\nend\n",
        1,
        "not valid: least 13/25\n",
    ),
    (
        "check",
        ELEVEN,
        "answer 1\nvalue 13/25\nplan 1 0\ndefence 1 0\n",
        1,
        "not valid: answer 6 at line 5\n",
    ),
    ("check", TEN, TEN_ANSWERED, 0, "valid\n"),
    (
        "check",
        TEN,
        "answer 1\nvalue 13/25\nplan 1 0\ndefence 1 0\nend\n",
        1,
        "not valid: most 1/1\n",
    ),
    (
        "check",
        TEN,
        "answer 1\nvalue 13/25\nplan 1 0\ndefence 1 3\n\
         west 0 0 at S3 - A : 2 2496144\nwest 1 1 at S3 : 2 2496144\nwest 1 1 at S3 : 2 2496144\nend\n",
        1,
        "not valid: defence 3 at row 3\n",
    ),
    (
        "check",
        TEN,
        "answer 1\nvalue 13/25\nplan 1 1\nat S3 2 : A 1 Q 1\ndefence 1 2\n\
         west 0 0 at S3 - A : 2 2496144\nwest 1 1 at S3 : 2 2496144\nend\n",
        1,
        "not valid: plan 6 at row 1\n",
    ),
    // Of a question with a fault the answer is not read.
    (
        "check",
        "north A\nsouth A\ngoal 1\nend\n",
        "",
        3,
        "malformed 6 at line 4\n",
    ),
    ("check", ELEVEN, "", 1, "not valid: answer 6 at line 1\n"),
    // The budget is told before what is wrong with the plan, and after what is wrong with the text.
    ("check", TEN_WITHIN_ONE, TEN_ANSWERED, 4, "nodes 1\n"),
    (
        "check",
        TEN_WITHIN_ONE,
        "answer 1\nvalue 13/25\nplan 0 0\ndefence 1 0\nend\n",
        4,
        "nodes 1\n",
    ),
    (
        "check",
        TEN_WITHIN_ONE,
        "answer 2\n",
        1,
        "not valid: answer 1 at line 1\n",
    ),
    (
        "lines",
        TEN,
        TEN_ANSWERED,
        0,
        "Value 13/25, 52.00 percent.\n\
         After South leads 3, West plays K: North plays A.\n\
         After South leads 3, West plays 2: North plays A.\n\
         After South leads 3, West shows out: North plays A.\n",
    ),
    (
        "lines",
        ELEVEN,
        "answer 1\nvalue 13/25\nplan 1 0\ndefence 1 0\nend\n",
        0,
        "Value 13/25, 52.00 percent.\nAt the start: North leads A.\n",
    ),
    (
        "lines",
        ELEVEN,
        "answer 1\nvalue 14/25\nplan 1 0\ndefence 1 0\nend\n",
        1,
        "not valid: least 13/25\n",
    ),
    (
        "lines",
        ELEVEN,
        "answer 1\nvalue 13/25\nplan 1 0\ndefence 1 0\n",
        1,
        "not valid: answer 6 at line 5\n",
    ),
    (
        "lines",
        TEN,
        "answer 1\nvalue 13/25\nplan 1 0\ndefence 1 0\nend\n",
        1,
        "not valid: most 1/1\n",
    ),
    (
        "lines",
        TEN,
        "answer 1\nvalue 13/25\nplan 1 1\nat S3 2 : A 1 Q 1\ndefence 1 0\nend\n",
        1,
        "not valid: plan 6 at row 1\n",
    ),
    (
        "lines",
        "north AQJT987654\nsouth 3\nstart S\nentries 0 0\ngoal 10\nnodes 1\nend\n",
        TEN_ANSWERED,
        4,
        "nodes 1\n",
    ),
    (
        "lines",
        "north A\nsouth A\ngoal 1\nend\n",
        "",
        3,
        "malformed 6 at line 4\n",
    ),
];

#[test]
fn answers_are_judged_and_told(rt: HostRuntime) -> Result<(), Fail> {
    for (word, question, answer, code, text) in CASES {
        let input = format!(in rt.alloc(); "{question}{answer}")?;
        let (status, written) = ran(&rt, &OpenGate, rt.alloc(), &[word], input.as_bytes())?;
        assert_eq!(rt; status, code, "at {word} {answer}");
        assert_eq!(rt; written.as_slice(), text.as_bytes(), "at {word} {answer}");
    }
    for (name, question, answer) in SOLVED {
        let input = format!(in rt.alloc(); "{question}{answer}")?;
        let (status, written) = ran(&rt, &OpenGate, rt.alloc(), &["check"], input.as_bytes())?;
        assert_eq!(rt; status, 0, "at {name}");
        assert_eq!(rt; written.as_slice(), b"valid\n".as_slice(), "at {name}");
    }
    Ok(())
}

/// Answers to the eleven cards with one line altered: the line, what stands for it, and what is told.
const HOSTILE: [(&str, &str, &str); 18] = [
    ("answer 1\n", "answer 2\n", "answer 1 at line 1"),
    ("value 13/25\n", "value 26/50\n", "answer 3 at line 2"),
    ("value 13/25\n", "value 13/0\n", "answer 3 at line 2"),
    (
        "value 13/25\n",
        "value 170141183460469231731687303715884105728/1\n",
        "answer 3 at line 2",
    ),
    ("plan 1 0\n", "plan 01 0\n", "answer 3 at line 3"),
    ("plan 1 0\n", "plan 1 4294967296\n", "answer 3 at line 3"),
    ("plan 1 0\n", "plan  1 0\n", "answer 2 at line 3"),
    ("plan 1 0\n", "plan 1 1\n", "answer 2 at line 4"),
    (
        "plan 1 0\n",
        "plan 1 1\nat NZ : NA 1\n",
        "answer 4 at line 4",
    ),
    ("plan 1 0\n", "plan 1 1\nat : NA -1\n", "answer 3 at line 4"),
    (
        "defence 1 0\n",
        "defence 1 1\nwest 1 0 at NA : K 1\n",
        "answer 5 at line 5",
    ),
    (
        "defence 1 0\n",
        "defence 1 1\nwest 14 at NA : K 1\n",
        "answer 3 at line 5",
    ),
    ("end\n", "end\nx", "answer 7 at line 6"),
    ("plan 1 0\n", "plan 0 0\n", "plan 1 at row 0"),
    ("plan 1 0\n", "plan 1 1\nat NA : NJ 1\n", "plan 2 at row 1"),
    (
        "plan 1 0\n",
        "plan 1 1\nat : NJ 1 NA 0\n",
        "plan 4 at row 1",
    ),
    ("plan 1 0\n", "plan 1 1\nat : NA 2\n", "plan 6 at row 1"),
    (
        "defence 1 0\n",
        "defence 1237940039285380274899124225 0\n",
        "defence 1 at row 0",
    ),
];

/// Answers to the eleven cards with one line altered that stay right: the line, and what stands for it.
const STILL_RIGHT: [(&str, &str); 2] = [
    ("defence 1 0\n", "defence 1237940039285380274899124224 0\n"),
    ("plan 1 0\n", "plan 1 1\nat : NA 1\n"),
];

/// Answers with one thing altered: the name of the pair, a part of its answer, what stands for it, and what is told.
const ALTERED: [(&str, &str, &str, &str); 12] = [
    // Another value.
    ("aq-32-tricks", "value 3/2", "value 5/2", "least 3/2"),
    ("east-kq2", "value 89/100", "value 91/100", "least 89/100"),
    // A count raised by one, in the plan and in the defence.
    ("aq-32-tricks", "J : Q 1", "J : Q 2", "plan 6 at row 1"),
    ("aq-32-tricks", "J 451724", "J 451725", "defence 6 at row 7"),
    // A row of the plan at West's turn.
    (
        "aq-32-tricks",
        "at S3 J : Q 1",
        "at S3 : J 1",
        "plan 2 at row 1",
    ),
    // A card of declarer's for West, and more kings than there are.
    (
        "aq-32-tricks",
        "west 1 1 at S3 : J",
        "west 1 1 at S3 : A",
        "defence 4 at row 9",
    ),
    ("aq-32-tricks", "west 0 0", "west 2 0", "defence 7 at row 1"),
    // A denominator of 0.
    (
        "aq-32-tricks",
        "defence 1 9",
        "defence 0 9",
        "defence 1 at row 0",
    ),
    // A row dropped, and a row more promised.
    (
        "aq-32-tricks",
        "west 1 1 at S3 : J 99008\n",
        "",
        "answer 2 at line 14",
    ),
    ("aq-32-tricks", "plan 1 1", "plan 1 2", "answer 2 at line 5"),
    // Two rows exchanged, of the plan and of the defence.
    (
        "qt9-32",
        "at S3 A T 8 S3 A : T 1\nat S3 A T 8 S3 8 : T 1\n",
        "at S3 A T 8 S3 8 : T 1\nat S3 A T 8 S3 A : T 1\n",
        "plan 3 at row 4",
    ),
    (
        "east-kq2",
        "west 0 0 at S3 - A : 2 1144066\nwest 0 0 at S3 - J K NA : 2 1144066\n",
        "west 0 0 at S3 - J K NA : 2 1144066\nwest 0 0 at S3 - A : 2 1144066\n",
        "defence 3 at row 2",
    ),
];

/// A text, where another part stands for the first one like this.
fn with_part(
    alloc: Global,
    text: &'static str,
    part: &'static str,
    other: &str,
) -> Result<String, Fail> {
    let (front, back) = text.split_once(part).ok_or(part)?;
    Ok(format!(in alloc; "{front}{other}{back}")?)
}

/// The question and the answer of a pair.
fn solved(which: &str) -> Result<(&'static str, &'static str), Fail> {
    for (name, question, answer) in SOLVED {
        if name == which {
            return Ok((question, answer));
        }
    }
    Err(Fail::from("no such pair"))
}

#[test]
fn changed_lines_are_judged(rt: HostRuntime) -> Result<(), Fail> {
    for (line, lines, fault) in HOSTILE {
        let answer = with_part(rt.alloc(), ELEVEN_ANSWERED, line, lines)?;
        let input = format!(in rt.alloc(); "{ELEVEN}{answer}")?;
        let (status, written) = ran(&rt, &OpenGate, rt.alloc(), &["check"], input.as_bytes())?;
        let text = format!(in rt.alloc(); "not valid: {fault}\n")?;
        assert_eq!(rt; status, 1, "at {lines}");
        assert_eq!(rt; written.as_slice(), text.as_bytes(), "at {lines}");
    }
    for (line, lines) in STILL_RIGHT {
        let answer = with_part(rt.alloc(), ELEVEN_ANSWERED, line, lines)?;
        let input = format!(in rt.alloc(); "{ELEVEN}{answer}")?;
        let (status, written) = ran(&rt, &OpenGate, rt.alloc(), &["check"], input.as_bytes())?;
        assert_eq!(rt; status, 0, "at {lines}");
        assert_eq!(rt; written.as_slice(), b"valid\n".as_slice(), "at {lines}");
    }
    Ok(())
}

#[test]
fn altered_answers_are_judged(rt: HostRuntime) -> Result<(), Fail> {
    for (which, part, other, fault) in ALTERED {
        let (question, answer) = solved(which)?;
        let altered = with_part(rt.alloc(), answer, part, other)?;
        let input = format!(in rt.alloc(); "{question}{altered}")?;
        let (status, written) = ran(&rt, &OpenGate, rt.alloc(), &["check"], input.as_bytes())?;
        let text = format!(in rt.alloc(); "not valid: {fault}\n")?;
        assert_eq!(rt; status, 1, "at {fault}");
        assert_eq!(rt; written.as_slice(), text.as_bytes(), "at {fault}");
    }
    Ok(())
}
