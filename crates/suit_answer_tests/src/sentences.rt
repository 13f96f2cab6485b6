//! Answers told in sentences, written down by hand from the rules.
ghost use Rattle.suit_game.specs.Validity.{IsValid};

use crate::answer_texts::bytes_of;
use crate::hands::asked;
use std::alloc::Global;
use std::test::Fail;
use suit_answer::read_answer;
use suit_game::{Entries, Goal, LeadAt, Question};
use suit_lines::lines_text;
use suit_plans::proper_plan;

// Two hands, and what is played for.
type Hands = (&'static str, &'static str, Goal);

// Without entries, where the lead stands first.
type Lead = Option<LeadAt>;

// The hands, the lead, the answer, and the beginning of what is told, or all of it where it ends with a line `end`.
type Case = (Hands, Lead, &'static str, &'static str);

// The question of two hands: with no entries where the lead stands at one of them.
fn question(hands: Hands, lead: Lead) -> Result<Question, Fail> {
    let (north, south, goal) = hands;
    let plain = asked(north, south, goal)?;
    Ok(match lead {
        Some(start) => Question {
            start,
            entries_n: Entries::Count(0),
            entries_s: Entries::Count(0),
            ..plain
        },
        None => plain,
    })
}

// What is told of an answer whose plan is proper and whose value can be told.
fn told(alloc: Global, question: &Question, text: &'static str) -> Result<Vec<u8>, Fail>
    requires { IsValid question.now }
{
    let answer = read_answer(alloc, question, bytes_of(text)?)?;
    let value = answer.value;
    if value.num < 0 || value.den > 1 << 114 || value.num > 1000 * value.den {
        return Err(Fail::from("the value"));
    }
    match proper_plan(question, &answer.plan) {
        Ok(()) => Ok(lines_text(alloc, question, &answer)?),
        Err(_) => Err(Fail::from("the plan")),
    }
}

const TEN: Hands = ("AQJT987654", "3", Goal::AtLeast(10));

const ELEVEN: Hands = ("AJT98765432", "-", Goal::AtLeast(11));

const TENACE: Hands = ("AQ", "32", Goal::AtLeast(2));

const TENACE_TRICKS: Hands = ("AQ", "32", Goal::Tricks);

// Answers to questions, and what is told of them.
const CASES: [Case; 11] = [
    (
        TEN,
        Some(LeadAt::S),
        "answer 1\nvalue 13/25\nplan 1 0\ndefence 1 2\nwest 0 0 at S3 - A : 2 2496144\n\
         west 1 1 at S3 : 2 2496144\nend\n",
        "Value 13/25, 52.00 percent.\nAfter South leads 3, West plays K: North plays A.\n\
         After South leads 3, West plays 2: North plays A.\n\
         After South leads 3, West shows out: North plays A.\nend\n",
    ),
    (
        ELEVEN,
        Some(LeadAt::N),
        "answer 1\nvalue 13/25\nplan 1 0\ndefence 1 0\nend\n",
        "Value 13/25, 52.00 percent.\nAt the start: North leads A.\nend\n",
    ),
    (
        ELEVEN,
        Some(LeadAt::N),
        "answer 1\nvalue 1/3\nplan 1 0\ndefence 1 0\nend\n",
        "Value 1/3, 33.33 percent.\n",
    ),
    (
        ELEVEN,
        Some(LeadAt::N),
        "answer 1\nvalue 0/1\nplan 1 0\ndefence 1 0\nend\n",
        "Value 0/1, 0.00 percent.\n",
    ),
    (
        ELEVEN,
        Some(LeadAt::N),
        "answer 1\nvalue 2/3\nplan 1 0\ndefence 1 0\nend\n",
        "Value 2/3, 66.66 percent.\n",
    ),
    (
        ("AKT9876", "54", Goal::AtLeast(7)),
        Some(LeadAt::S),
        "answer 1\nvalue 533/1150\nplan 1 0\ndefence 1 0\nend\n",
        "Value 533/1150, 46.34 percent.\n",
    ),
    (
        TENACE_TRICKS,
        Some(LeadAt::S),
        "answer 1\nvalue 3/2\nplan 1 0\ndefence 1 0\nend\n",
        "Value 3/2, 1.50 tricks.\n",
    ),
    (
        TENACE_TRICKS,
        Some(LeadAt::S),
        "answer 1\nvalue 1000/1\nplan 1 0\ndefence 1 0\nend\n",
        "Value 1000/1, 1000.00 tricks.\n",
    ),
    // The mass is split after the jack, which stands for any card below the king.
    (
        TENACE,
        Some(LeadAt::S),
        "answer 1\nvalue 1/20\nplan 3 1\nat S3 J : A 1 Q 2\ndefence 1 0\nend\n",
        "Value 1/20, 5.00 percent.\nAfter South leads 3, West plays K: North plays A.\n\
         After South leads 3, West plays J: North plays A 1 of 3; North plays Q 2 of 3.\n\
         After South leads 3, West shows out: North plays A.\nend\n",
    ),
    // Declarer leads from either hand, and then one trick is won whatever comes.
    (
        ("A", "2", Goal::AtLeast(1)),
        None,
        "answer 1\nvalue 1/1\nplan 2 1\nat : NA 1 S2 1\ndefence 1 0\nend\n",
        "Value 1/1, 100.00 percent.\nAt the start: North leads A 1 of 2; South leads 2 1 of 2.\nend\n",
    ),
    // East plays before South, and a row puts all of the mass on the second move.
    (
        ("32", "AQ", Goal::AtLeast(2)),
        Some(LeadAt::N),
        "answer 1\nvalue 1/2\nplan 1 1\nat N3 J : Q 1\ndefence 1 0\nend\n",
        "Value 1/2, 50.00 percent.\nAfter North leads 3, East plays K: South plays A.\n\
         After North leads 3, East plays J: South plays Q.\n\
         After North leads 3, East shows out: South plays A.\nend\n",
    ),
];

#[test]
fn tells_answers(rt: HostRuntime) -> Result<(), Fail> {
    for (hands, lead, answer, wanted) in CASES {
        let question = question(hands, lead)?;
        assert!(rt; question.is_valid());
        let mut found = told(rt.alloc(), &question, answer)?;
        found.extend_from_slice(b"end\n")?;
        assert!(rt; found.as_slice().starts_with(wanted.as_bytes()), "{answer}");
    }
    Ok(())
}
