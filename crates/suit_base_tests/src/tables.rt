//! Tables, judged by a judge that answers by the goal alone.
ghost use Rattle.std.specs.Prelude.{◌≡◌, All, IfOk, length};
ghost use Rattle.suit_game.specs.Validity.{IsValid};

use std::alloc::Global;
use std::test::Fail;
use std::thread::Threads;
use suit_game::{Goal, OpenGate, Question};
use suit_num::Frac;
use suit_question::read_question;
use suit_table::{Entry, Judge, Outcome, TableEnd, Told, summary, table};

// A judge whose outcomes tell the goals apart.
struct ByGoal;

impl Judge for ByGoal {
    ghost use Rattle.std.specs.Prelude.{⊤};

    ghost fits = { λ judge question outcome. ⊤ };

    fn judge(&self, _alloc: Global, question: &Question) -> Outcome {
        match question.goal {
            Goal::AtLeast(2) => Outcome::Value(Frac::reduced(1, 2)),
            Goal::AtLeast(3) => Outcome::Nodes,
            Goal::AtLeast(4) => Outcome::Support,
            Goal::AtLeast(5) => Outcome::Pivots,
            Goal::AtLeast(6) => Outcome::Wide,
            Goal::AtLeast(_) => Outcome::Memory,
            Goal::Tricks => Outcome::Value(Frac::reduced(7, 4)),
        }
    }
}

fn told<R: Threads + Sync>(
    rt: &R,
    alloc: Global,
    text: &str,
) -> Result<Result<Vec<u8>, TableEnd>, Fail> {
    let bytes = text.as_bytes();
    if bytes.len() > 1000 {
        return Err(Fail::from("too long"));
    }
    Ok(table(rt, &OpenGate, alloc, &ByGoal, bytes))
}

#[test]
fn tells_tables(rt: HostRuntime) -> Result<(), Fail> {
    let alloc = rt.alloc();
    for (text, want) in [
        ("", ""),
        (
            "AQ,32,S,,0,0,,,,,2,,\nAKA,2,,,,,,,,,1,,\nAQ,32,S,,0,0,,,,,2,,\n",
            "1,value,1/2\n2,malformed,5\n3,value,1/2\n",
        ),
        // Blanks at the ends of fields say nothing, and neither does a field of blanks.
        (" AQ ,\t32,S\t , ,0,0, \t,,,, 2,,", "1,value,1/2\n"),
        (",,,,,,,,,,,,\n", "1,malformed,1\n"),
        ("\"AQ\",\"32\",,,,,,,,,\"tricks\",,\n", "1,value,7/4\n"),
        // A byte order mark, other line ends, empty lines, and a last line without an end.
        (
            "\u{feff}AQ,32,,,,,,,,,2,,\r\n\r\n\nAQ,A2,,,,,,,,,2,,\r\nA Q,2,,,,,,,,,2,,",
            "1,value,1/2\n2,malformed,6\n3,malformed,4\n",
        ),
        // Two batches and a record more.
        (
            "AQ,32,,,,,,,,,3,,\nAQ,32,,,,,,,,,4,,\nAQ,32,,,,,,,,,5,,\nAQ,32,,,,,,,,,6,,\n\
            AQ,32,,,,,,,,,7,,\nAQ,32,,,,,,,,,14,,\nAQ,32,,,,,,,,,3,77,\nAQ,32,,,,,,,,,5,,55\n\
            AQ,32,,,,,,,,,2,1,0\n",
            "1,nodes,200000\n2,support,4000\n3,pivots,100000\n4,wide,128\n5,memory,0\n6,malformed,9\n\
            7,nodes,77\n8,pivots,55\n9,value,1/2\n",
        ),
    ] {
        let found = told(&rt, alloc, text)?.ok().ok_or("refused")?;
        assert_eq!(rt; found.as_slice(), want.as_bytes(), "of {text}");
    }
    Ok(())
}

#[test]
fn refuses_other_records(rt: HostRuntime) -> Result<(), Fail> {
    for (text, at) in [
        ("AQ,32,,,,,,,,,2,,\nA,2\nAQ,32,,,,,,,,,2,,\n", 2),
        (
            "AQ,32,,,,,,,,,7,,\n\nAQ,32,,,,,,,,,2,,\nAQ,32,,,,,,,,,2,,,\n",
            3,
        ),
        ("  \nAQ,32,,,,,,,,,2,,\n", 1),
    ] {
        let found = told(&rt, rt.alloc(), text)?;
        assert_eq!(rt; found.err(), Some(TableEnd::Csv { at }), "of {text}");
    }
    Ok(())
}

const VALUE: &str = "north AQ\nsouth 32\ngoal 2\nend\n";

const NODES: &str = "north AQ\nsouth 32\ngoal 3\nend\n";

const SUPPORT: &str = "north AQ\nsouth 32\ngoal 4\nend\n";

const PIVOTS: &str = "north AQ\nsouth 32\ngoal 5\nend\n";

const WIDE: &str = "north AQ\nsouth 32\ngoal 6\nend\n";

const MEMORY: &str = "north AQ\nsouth 32\ngoal 7\nend\n";

fn asked(alloc: Global, texts: &[&'static str]) -> Result<Vec<Question>, Fail>
    ensures count { IfOk result (λ questions. length questions.items ≡ length texts.now) }
    ensures valid { IfOk result (λ questions. All IsValid questions.items) }
{
    let mut questions = Vec::new(alloc);
    for text in texts {
        questions.push(question(text)?)?;
    }
    Ok(questions)
}

fn question(text: &'static str) -> Result<Question, Fail>
    ensures { IfOk result IsValid }
{
    let bytes = text.as_bytes();
    if bytes.len() > 1000 {
        return Err(Fail::from("too long"));
    }
    Ok(read_question(bytes).ok().ok_or(text)?)
}

#[test]
fn counts_outcomes(rt: HostRuntime) -> Result<(), Fail> {
    let alloc = rt.alloc();
    let texts = [
        WIDE, VALUE, VALUE, PIVOTS, WIDE, WIDE, NODES, PIVOTS, VALUE, WIDE, SUPPORT, PIVOTS, WIDE,
        NODES, VALUE,
    ];
    let questions = asked(alloc, &texts)?;
    let found = summary(&rt, &OpenGate, alloc, &ByGoal, &questions)?;
    let want = "records 15 values 4 nodes 2 support 1 pivots 3 wide 5\n";
    assert_eq!(rt; found.as_slice(), want.as_bytes());
    let questions = asked(alloc, &[VALUE, MEMORY, VALUE])?;
    assert!(rt; summary(&rt, &OpenGate, alloc, &ByGoal, &questions).is_err());
    Ok(())
}

fn shared<T: Send + Sync>() {}

// What tasks share and hand over.
#[test]
fn records_are_shared() {
    shared::<Entry>();
    shared::<Told>();
    shared::<Outcome>();
    shared::<Question>();
}
