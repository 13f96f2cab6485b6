//! How large the program of each round is, and how many pivots its run makes: on questions of which another program
//! counted both, and on one whose rounds were worked out by hand.
ghost use Rattle.std.specs.Prelude.{IfOk};
ghost use Rattle.suit_game.specs.Validity.{IsValid};
ghost use Rattle.suit_solve.specs.Solving.{IsUnderWay};

use bumpalo::Bump;
use std::alloc::Global;
use std::test::Fail;
use suit_answer::Answer;
use suit_cards::Seat;
use suit_classes::ClassMove;
use suit_game::Question;
use suit_plans::DefenceRow;
use suit_question::read_question;
use suit_solve::{SolveEnd, Solving};

/// The size of a round's program, and the pivots of its run.
type Round = (u32, u32);

/// The ten cards without the king and the two, of which one faces nine.
const TEN: &str = "north AQJT987654\nsouth 3\nstart S\nentries 0 0\ngoal 10\nend\n";

/// Questions, and their rounds.
const ROUNDS: [(&str, &[Round]); 17] = [
    (
        "north -\nsouth AQ\nstart N\nentries 0 0\ngoal 1\nend\n",
        &[(0, 0)],
    ),
    (TEN, &[(10, 5), (12, 6)]),
    (
        "north AJT987654\nsouth 3\nstart S\nentries 0 0\ngoal 8\nend\n",
        &[(18, 9), (20, 8), (32, 15), (33, 15)],
    ),
    (
        "north AJT987654\nsouth 3\nstart S\nentries 0 0\ngoal 9\nend\n",
        &[(18, 7), (20, 8)],
    ),
    (
        "north AQ\nsouth 32\nstart S\nentries 0 0\ngoal 2\nend\n",
        &[(38, 19), (82, 41), (111, 49)],
    ),
    (
        "north AQ\nsouth 32\nstart S\nentries 0 0\ngoal tricks\nend\n",
        &[(38, 19), (82, 49), (113, 58)],
    ),
    (
        "north AQ\nsouth 32\ngoal tricks\nend\n",
        &[(42, 21), (92, 54), (139, 62), (189, 112), (224, 110)],
    ),
    (
        "north KJ\nsouth 2\nstart N\nregain S\nentries 0 1\ngoal tricks\nend\n",
        &[(102, 50)],
    ),
    (
        "north AJT98765432\nsouth -\nstart N\ngoal 11\nend\n",
        &[(2, 1)],
    ),
    ("north AKQJT98\nsouth 765432\ngoal 7\nend\n", &[(12, 6)]),
    (
        "north A9\nsouth -\nstart N\nentries 0 0\ngoal tricks\nend\n",
        &[(198, 99)],
    ),
    (
        "north AKT9876\nsouth 54\nstart S\nentries 0 1\ngoal 7\nend\n",
        &[
            (40, 20),
            (56, 26),
            (86, 44),
            (100, 46),
            (111, 54),
            (116, 51),
        ],
    ),
    (
        "north KQ2\nsouth 543\ngoal tricks\nend\n",
        &[
            (50, 25),
            (99, 50),
            (149, 81),
            (243, 115),
            (313, 176),
            (331, 161),
            (350, 193),
            (380, 185),
        ],
    ),
    (
        "north QT9\nsouth 32\ngoal tricks\nentries 0 2\nstart S\nwest 3 5\nend\n",
        &[
            (120, 57),
            (329, 144),
            (460, 233),
            (598, 285),
            (692, 353),
            (755, 417),
            (830, 465),
        ],
    ),
    (
        "north AJT\nsouth 432\ngoal 2\nend\n",
        &[
            (84, 42),
            (192, 80),
            (281, 122),
            (367, 177),
            (432, 182),
            (492, 248),
            (581, 225),
            (689, 353),
            (749, 292),
            (789, 412),
            (827, 327),
            (858, 442),
            (875, 443),
        ],
    ),
    (
        "north K9\nsouth 42\nvacant 5 11\nwest 2 5\ngoal 1\nentries 1 0\nend\n",
        &[
            (354, 169),
            (707, 346),
            (975, 502),
            (1587, 715),
            (1890, 897),
            (2502, 1084),
            (2805, 1342),
            (3018, 1454),
        ],
    ),
    (
        "north AKT9\nsouth J32\ngoal 4\nentries 1 1\nend\n",
        &[
            (52, 26),
            (124, 57),
            (153, 65),
            (175, 84),
            (223, 95),
            (283, 119),
            (316, 131),
            (349, 175),
            (373, 159),
            (395, 211),
            (446, 187),
            (538, 253),
            (566, 228),
            (598, 285),
            (668, 273),
            (757, 374),
            (781, 315),
            (811, 379),
            (834, 358),
            (853, 428),
            (869, 425),
            (889, 466),
            (916, 455),
            (942, 472),
            (961, 483),
            (983, 411),
            (992, 474),
            (1002, 491),
            (1013, 425),
            (1018, 427),
            (1021, 445),
            (1026, 460),
        ],
    ),
];

/// The question that a text asks.
fn asked(text: &'static str) -> Result<Question, Fail>
    ensures { IfOk result IsValid }
{
    let bytes = text.as_bytes();
    if bytes.len() > 1000 {
        return Err(Fail::from("a long text"));
    }
    Ok(read_question(bytes)?)
}

/// Plays a round whose size is told, and for whose run so many pivots are enough, and one less is not.
fn played(solving: &mut Solving, told: Round) -> Result<Option<Answer>, Fail>
    requires { IsUnderWay solving.old }
    ensures { IsUnderWay solving.new }
{
    let (size, pivots) = told;
    if solving.size() != size {
        return Err(Fail::from("another size"));
    }
    if pivots > 0 {
        match solving.step(pivots - 1) {
            Err(SolveEnd::Pivots { .. }) => {}
            _ => return Err(Fail::from("fewer pivots are enough")),
        }
    }
    Ok(solving.step(pivots)?)
}

/// How many rounds a question takes until a plan and a defence meet, where they are as told.
fn rounds_of(alloc: Global, question: &Question, rounds: &[Round]) -> Result<usize, Fail>
    requires { IsValid question.now }
{
    let arena = Bump::new(alloc);
    let mut solving = Solving::start(alloc, &arena, question)?;
    for index in 0..rounds.len() {
        if played(&mut solving, rounds[index])?.is_some() {
            return Ok(index + 1);
        }
    }
    Err(Fail::from("another round follows"))
}

#[test]
fn rounds_are_as_another_program_counted_them(rt: HostRuntime) -> Result<(), Fail> {
    for (text, rounds) in ROUNDS {
        let question = asked(text)?;
        let found = rounds_of(rt.alloc(), &question, rounds)?;
        assert_eq!(rt; found, rounds.len(), "at {text}");
    }
    Ok(())
}

/// Whether a row is of these counts of West's and this class history, and puts so much on the follow with the two.
fn plays_the_two(row: &DefenceRow, west: [u8; 2], history: &[ClassMove], count: i128) -> bool {
    row.west.counts() == west.as_slice()
        && row.history.items() == history
        && row.counts.items() == [(ClassMove::Follow { class: 4 }, count)].as_slice()
}

/// Whether the two is played behind South's three by West with both cards, and under the ace by East with both.
fn play_the_twos(rows: &[DefenceRow]) -> bool {
    let lead = ClassMove::Lead {
        seat: Seat::S,
        class: 3,
    };
    let ace = ClassMove::Follow { class: 0 };
    match rows {
        [void, both] => {
            plays_the_two(void, [0, 0], &[lead, ClassMove::ShowOut, ace], 2496144)
                && plays_the_two(both, [1, 1], &[lead], 2496144)
        }
        _ => false,
    }
}

#[test]
fn the_ten_cards_are_solved_as_by_hand(rt: HostRuntime) -> Result<(), Fail> {
    let alloc = rt.alloc();
    let question = asked(TEN)?;
    let arena = Bump::new(alloc);
    let mut solving = Solving::start(alloc, &arena, &question)?;
    // First moves alone: the twos beat the plan.
    assert!(rt; played(&mut solving, (10, 5))?.is_none());
    // With the twos the defence plays them, and the ace wins where the two cards are divided.
    let Some(answer) = played(&mut solving, (12, 6))? else {
        return Err(Fail::from("another round follows"));
    };
    assert_eq!(rt; (answer.value.num, answer.value.den), (13, 25));
    assert_eq!(rt; (answer.plan.den, answer.defence.den), (1, 1));
    assert!(rt; answer.plan.rows.items().is_empty() && play_the_twos(answer.defence.rows.items()));
    Ok(())
}
