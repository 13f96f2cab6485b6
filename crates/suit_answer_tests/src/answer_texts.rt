//! Answer texts, read and written again, and the first fault of those that are none.
ghost use Rattle.std.specs.Prelude.{◌≤◌, IfOk, length};

use crate::hands::asked;
use std::test::Fail;
use suit_answer::{AnswerFault, answer_text, read_answer};
use suit_game::Goal;

/// The bytes of a text, which is not long.
pub fn bytes_of(text: &'static str) -> Result<&'static [u8], Fail>
    ensures { IfOk result (λ bytes. length bytes.now ≤ 1000) }
{
    let bytes = text.as_bytes();
    if bytes.len() > 1000 {
        return Err(Fail::from("a long text"));
    }
    Ok(bytes)
}

#[test]
fn writes_what_it_reads(rt: HostRuntime) -> Result<(), Fail> {
    for (north, south, text) in [
        (
            "A",
            "2",
            "answer 1\nvalue 1/1\nplan 1 0\ndefence 1 0\nend\n",
        ),
        (
            "AJT98765432",
            "-",
            "answer 1\nvalue 13/25\nplan 1 0\ndefence 1 0\nend\n",
        ),
        (
            "AQJT987654",
            "3",
            "answer 1\nvalue 13/25\nplan 1 0\ndefence 1 2\nwest 0 0 at S3 - A : 2 2496144\nwest 1 1 at S3 : 2 2496144\nend\n",
        ),
        (
            "AQ",
            "32",
            "answer 1\nvalue 3/2\nplan 1 2\nat : S3 1\nat S3 J : Q 1\ndefence 1 2\nwest 0 6 at NA : K 90440 J 454104\nwest 1 1 at S3 : K 92820 J 6188\nend\n",
        ),
        (
            "AKT9876",
            "54",
            "answer 1\nvalue 533/1150\nplan 1 2\nat S5 3 A Q : S5 1\nat S5 3 A Q S5 3 : T 1\ndefence 1 2\nwest 1 2 at S5 3 A Q S5 : Q 587860 3 705432\nwest 2 2 at S5 Q A - S5 3 T - NA - - : 3 497420\nend\n",
        ),
        // The largest number, and a lead from a hand that does not hold the class.
        (
            "AJT98765432",
            "-",
            "answer 1\nvalue 0/1\nplan 170141183460469231731687303715884105727 1\nat : NK 0 SK 170141183460469231731687303715884105727\ndefence 0 0\nend\n",
        ),
    ] {
        let question = asked(north, south, Goal::Tricks)?;
        let answer = read_answer(rt.alloc(), &question, bytes_of(text)?)
            .ok()
            .ok_or("an answer")?;
        let written = answer_text(rt.alloc(), &question, &answer)?;
        assert_eq!(rt; written.as_slice(), text.as_bytes());
    }
    Ok(())
}

#[test]
fn tells_the_first_fault(rt: HostRuntime) -> Result<(), Fail> {
    let question = asked("AJT98765432", "-", Goal::Tricks)?;
    for (text, fault) in [
        ("", AnswerFault::Truncated { line: 1 }),
        ("answer 2", AnswerFault::Truncated { line: 1 }),
        (
            "answer 2\nvalue 13/25\nplan 1 0\ndefence 1 0\nend\n",
            AnswerFault::Version { line: 1 },
        ),
        (
            "answer 1\nvalue 26/50\nplan 1 0\ndefence 1 0\nend\n",
            AnswerFault::Number { line: 2 },
        ),
        (
            "answer 1\nvalue 13/0\nplan 1 0\ndefence 1 0\nend\n",
            AnswerFault::Number { line: 2 },
        ),
        (
            "answer 1\nvalue 170141183460469231731687303715884105728/1\n",
            AnswerFault::Number { line: 2 },
        ),
        ("answer 1\nvalue 1/2/3\n", AnswerFault::Line { line: 2 }),
        ("answer 1\nvalue 13/25\r\n", AnswerFault::Number { line: 2 }),
        (
            "answer 1\nvalue 13/25\nplan 01 0\ndefence 1 0\nend\n",
            AnswerFault::Number { line: 3 },
        ),
        (
            "answer 1\nvalue 13/25\nplan 1 4294967296\ndefence 1 0\nend\n",
            AnswerFault::Number { line: 3 },
        ),
        (
            "answer 1\nvalue 13/25\nplan  1 0\ndefence 1 0\nend\n",
            AnswerFault::Line { line: 3 },
        ),
        (
            "answer 1\nvalue 13/25\nplan 1 1\ndefence 1 0\nend\n",
            AnswerFault::Line { line: 4 },
        ),
        (
            "answer 1\nvalue 13/25\nplan 1 4294967295\n",
            AnswerFault::Truncated { line: 4 },
        ),
        (
            "answer 1\nvalue 13/25\nplan 1 1\nat NZ : NA 1\ndefence 1 0\nend\n",
            AnswerFault::Move { line: 4 },
        ),
        (
            "answer 1\nvalue 13/25\nplan 1 1\nat : NA -1\ndefence 1 0\nend\n",
            AnswerFault::Number { line: 4 },
        ),
        (
            "answer 1\nvalue 13/25\nplan 1 1\nat Na x : NA -1\n",
            AnswerFault::Move { line: 4 },
        ),
        (
            "answer 1\nvalue 13/25\nplan 1 1\nat x : NA 1 :\n",
            AnswerFault::Line { line: 4 },
        ),
        (
            "answer 1\nvalue 13/25\nplan 1 1\nat NA :\n",
            AnswerFault::Line { line: 4 },
        ),
        (
            "answer 1\nvalue 13/25\nplan 1 0\ndefence 1 1\nwest 1 0 at NA : K 1\nend\n",
            AnswerFault::Count { line: 5 },
        ),
        (
            "answer 1\nvalue 13/25\nplan 1 0\ndefence 1 1\nwest at NA : K 1\nend\n",
            AnswerFault::Count { line: 5 },
        ),
        (
            "answer 1\nvalue 13/25\nplan 1 0\ndefence 1 1\nwest 14 at NA : K 1\nend\n",
            AnswerFault::Number { line: 5 },
        ),
        (
            "answer 1\nvalue 13/25\nplan 1 0\ndefence 1 1\nwest 1 : at NA : K 1\nend\n",
            AnswerFault::Line { line: 5 },
        ),
        (
            "answer 1\nvalue 13/25\nplan 1 0\ndefence 1 0\n",
            AnswerFault::Truncated { line: 5 },
        ),
        (
            "answer 1\nvalue 13/25\nplan 1 0\ndefence 1 0\nend",
            AnswerFault::Truncated { line: 5 },
        ),
        (
            "answer 1\nvalue 13/25\nplan 1 0\ndefence 1 0\nend \n",
            AnswerFault::Line { line: 5 },
        ),
        (
            "answer 1\nvalue 13/25\nplan 1 0\ndefence 1 0\nend\nx",
            AnswerFault::Tail { line: 6 },
        ),
    ] {
        let told = read_answer(rt.alloc(), &question, bytes_of(text)?).err();
        assert_eq!(rt; told, Some(fault), "from {text}");
    }
    Ok(())
}
