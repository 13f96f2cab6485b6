//! What the lifts give after legal histories, worked out by hand.
ghost use Rattle.std.specs.Prelude.{◌≡◌, Contains, IfOk, IsTrue};
ghost use Rattle.suit_game.specs.Layouts.{layouts};
ghost use Rattle.suit_game.specs.PlaceViews.{IsAt, IsPlay};
ghost use Rattle.suit_game.specs.Positions.{legal};

use arrayvec::ArrayVec;
use std::alloc::Global;
use std::process::Abort;
use std::test::Fail;
use suit_cards::{Holding, Rank, Seat};
use suit_classes::{ClassMove, History};
use suit_game::{Entries, Goal, LeadAt, Move, Place, Question, Turn, weight};
use suit_layouts::ClassLayout;
use suit_lift::{CardShare, card_weights, defence_weights};
use suit_plans::{
    Counts, Defence, DefenceRow, DefenceRows, Plan, Row, Rows, proper_defence, proper_plan,
};

// A play under a layout: a legal history, and the position after it.
#[derive(Drop)]
struct Play {
    question: Question,
    west: Holding,
    history: ArrayVec<Move, 52>,
    place: Place,
}

// Whether these are West's cards under a layout.
#[tactic(auto, using(suit_lift::proofs::LayoutIsListed::layout_listed))]
fn is_layout(question: &Question, west: Holding) -> bool
    ensures { IsTrue result → Contains (layouts question.now) west }
{
    let count = west.len();
    let apart = !west.shares(question.north) && !west.shares(question.south);
    apart && question.west_least <= count && count <= question.west_most
}

// Whether a move is among some.
fn is_among(moves: &[Move], mv: &Move) -> bool
    ensures { IsTrue result → Contains moves.now mv.now }
{
    moves.contains(mv)
}

impl Play {
    // The play with no moves.
    #[tactic(auto, using(suit_game::proofs::PlaceSeenAfterAMove::play_none))]
    fn start(question: &Question, west: Holding) -> Result<Play, Fail>
        ensures legal { IfOk result (λ play. IsPlay play.question play.west play.history.items) }
        ensures at { IfOk result (λ play. IsAt play.question play.history.items play.place) }
    {
        if !question.is_valid() || !is_layout(question, west) {
            return Err(Fail::from("no layout"));
        }
        Ok(Play {
            question: *question,
            west,
            history: ArrayVec::new(),
            place: Place::start(question),
        })
    }

    // The play with a move more, where it is legal.
    fn with(self, mv: &Move) -> Result<Play, Fail>
        requires legal { IsPlay self.question self.west self.history.items }
        requires at { IsAt self.question self.history.items self.place }
        ensures legal { IfOk result (λ play. IsPlay play.question play.west play.history.items) }
        ensures at { IfOk result (λ play. IsAt play.question play.history.items play.place) }
    {
        let moves = self.legal_moves();
        if !is_among(moves.as_slice(), mv) {
            return Err(Fail::from("not legal"));
        }
        let mut history = self.history;
        if history.is_full() {
            return Err(Fail::from("too many moves"));
        }
        history.push(*mv);
        Ok(Play {
            question: self.question,
            west: self.west,
            history,
            place: self.place.step(*mv),
        })
    }

    // The legal moves.
    fn legal_moves(&self) -> ArrayVec<Move, 13>
        requires legal { IsPlay self.now.question self.now.west self.now.history.items }
        requires at { IsAt self.now.question self.now.history.items self.now.place }
        ensures { result.items ≡ legal self.now.question self.now.west self.now.history.items }
    {
        match self.place.turn() {
            Turn::Lead | Turn::Over => self.place.leads(),
            Turn::Declarer(seat) => self.place.follows(self.place.hand(seat)),
            Turn::Defence(seat) => self.place.follows(self.place.holds(self.west, seat)),
        }
    }

    // What a plan gives to the moves of declarer's turn.
    fn by_plan(&self, plan: &Plan) -> Result<ArrayVec<CardShare, 13>, Fail>
        requires legal { IsPlay self.now.question self.now.west self.now.history.items }
        requires at { IsAt self.now.question self.now.history.items self.now.place }
    {
        if proper_plan(&self.question, plan).is_err() {
            return Err(Fail::from("not proper"));
        }
        match self.place.turn() {
            Turn::Lead | Turn::Declarer(_) => Ok(card_weights(
                &self.question,
                plan,
                self.history.as_slice(),
                &self.place,
            )),
            Turn::Defence(_) | Turn::Over => Err(Fail::from("not declarer's turn")),
        }
    }

    // What a defence gives to the moves of a defender's turn.
    fn by_defence(&self, defence: &Defence) -> Result<ArrayVec<CardShare, 13>, Fail>
        requires legal { IsPlay self.now.question self.now.west self.now.history.items }
        requires at { IsAt self.now.question self.now.history.items self.now.place }
    {
        if proper_defence(&self.question, defence).is_err() {
            return Err(Fail::from("not proper"));
        }
        match self.place.turn() {
            Turn::Defence(_) if weight(&self.question, self.west.len()) > 0 => Ok(defence_weights(
                &self.question,
                defence,
                self.west,
                self.history.as_slice(),
                &self.place,
            )),
            _ => Err(Fail::from("no weight, or not a defender's turn")),
        }
    }
}

// A move: the hand and the card of a lead, the card of a follow, or a dash.
fn card_move(word: &str) -> Result<Move, Fail> {
    match word.as_bytes() {
        [b'-'] => Ok(Move::ShowOut),
        [card] => Ok(Move::Follow {
            rank: Rank::of(*card).ok_or("no rank")?,
        }),
        [b'N', card] => Ok(Move::Lead {
            seat: Seat::N,
            rank: Rank::of(*card).ok_or("no rank")?,
        }),
        [_, card] => Ok(Move::Lead {
            seat: Seat::S,
            rank: Rank::of(*card).ok_or("no rank")?,
        }),
        _ => Err(Fail::from("no move")),
    }
}

// A play of some moves, each legal where it comes.
fn played(question: &Question, west: &'static str, words: &str) -> Result<Play, Fail>
    ensures legal { IfOk result (λ play. IsPlay play.question play.west play.history.items) }
    ensures at { IfOk result (λ play. IsAt play.question play.history.items play.place) }
{
    let mut play = Play::start(question, holding(west)?)?;
    for word in words.split_ascii_whitespace() {
        play = play.with(&card_move(word)?)?;
    }
    Ok(play)
}

fn holding(text: &'static str) -> Result<Holding, Fail> {
    Ok(Holding::read(text.as_bytes()).ok().ok_or(text)?)
}

// A class move: the hand and the class of a lead, the class of a follow.
fn class_move(word: &str) -> Result<ClassMove, Fail> {
    match word.as_bytes() {
        [class] => Ok(ClassMove::Follow {
            class: class.wrapping_sub(b'0'),
        }),
        [b'N', class] => Ok(ClassMove::Lead {
            seat: Seat::N,
            class: class.wrapping_sub(b'0'),
        }),
        [_, class] => Ok(ClassMove::Lead {
            seat: Seat::S,
            class: class.wrapping_sub(b'0'),
        }),
        _ => Err(Fail::from("no class move")),
    }
}

fn history(alloc: Global, words: &str) -> Result<History, Fail> {
    let mut items = Vec::new(alloc);
    for word in words.split_ascii_whitespace() {
        items.push(class_move(word)?)?;
    }
    Ok(History::of(items))
}

fn counts(alloc: Global, words: &str) -> Result<Counts, Fail> {
    let mut items = Vec::new(alloc);
    for word in words.split_ascii_whitespace() {
        let (mv, count) = word.split_once('=').ok_or("no count")?;
        items.push((class_move(mv)?, count.parse::<i128>()?))?;
    }
    Ok(Counts::of(items))
}

// A plan with one row at most, as a text: the class history, a colon, and the moves with their counts.
fn plan(alloc: Global, den: i128, line: &str) -> Result<Plan, Fail> {
    let mut rows = Vec::new(alloc);
    if let Some((at, shared)) = line.split_once(':') {
        rows.push(Row {
            history: history(alloc, at)?,
            counts: counts(alloc, shared)?,
        })?;
    }
    if rows.len() > 4_294_967_295 {
        return Err(Fail::from("too many rows"));
    }
    Ok(Plan {
        den,
        rows: Rows::of(rows),
    })
}

// A defence of denominator 1 whose rows are all for the layout with these counts of West's.
fn defence(alloc: Global, west: &[u8], lines: &[&str]) -> Result<Defence, Fail> {
    let mut rows = Vec::new(alloc);
    for line in lines {
        let mut layout = ArrayVec::new();
        for count in west {
            if layout.try_push(*count).is_err() {
                return Err(Fail::from("too many classes"));
            }
        }
        let (at, shared) = line.split_once(':').ok_or("no counts")?;
        rows.push(DefenceRow {
            west: ClassLayout::of(layout),
            history: history(alloc, at)?,
            counts: counts(alloc, shared)?,
        })?;
    }
    if rows.len() > 4_294_967_295 {
        return Err(Fail::from("too many rows"));
    }
    Ok(Defence {
        den: 1,
        rows: DefenceRows::of(rows),
    })
}

// Whether these are the shares of a text: each legal move in order, with its count and among how many.
fn are_told(rt: &impl Abort, shares: &[CardShare], text: &str) -> Result<(), Fail> {
    let mut words = text.split_ascii_whitespace();
    for share in shares {
        assert_eq!(rt; share.mv, card_move(words.next().ok_or(text)?)?);
        assert_eq!(rt; share.count, words.next().ok_or(text)?.parse::<i128>()?);
        assert_eq!(rt; share.among, words.next().ok_or(text)?.parse::<u8>()?);
    }
    assert_eq!(rt; words.next(), None);
    Ok(())
}

// The lead stands at South, and so many entries lead to North and to South.
fn from_south(
    north: &'static str,
    south: &'static str,
    goal: Goal,
    entries: (u8, u8),
) -> Result<Question, Fail> {
    Ok(Question {
        start: LeadAt::S,
        entries_n: Entries::Count(entries.0),
        entries_s: Entries::Count(entries.1),
        ..Question::plain(holding(north)?, holding(south)?, goal)
    })
}

#[test]
fn plans_play_cards(rt: HostRuntime) -> Result<(), Fail> {
    let alloc = rt.alloc();
    let seven = from_south("AKT9876", "54", Goal::AtLeast(7), (0, 1))?;
    let gaps = from_south("AT9", "65", Goal::Tricks, (1, 1))?;
    let empty = plan(alloc, 1, "")?;
    let either = plan(alloc, 4, ": N2=1 S4=3")?;
    let cases = [
        // The king is the lower of the first class.
        (
            (&seven, &empty),
            ("32", "S5 3"),
            "A 0 1 K 1 1 T 0 1 9 0 1 8 0 1 7 0 1 6 0 1",
        ),
        // A trick is lost, so play is decided, and it goes on.
        (
            (&seven, &empty),
            ("32", "S5 3 6 J"),
            "NA 0 1 NK 1 1 NT 0 1 N9 0 1 N8 0 1 N7 0 1 S4 0 1",
        ),
        // Both hands may lead.
        (
            (&gaps, &either),
            ("KQ87", ""),
            "NA 0 1 NT 0 1 N9 1 1 S6 0 1 S5 3 1",
        ),
    ];
    for ((question, plan), (west, words), text) in cases {
        let shares = played(question, west, words)?.by_plan(plan)?;
        are_told(&rt, shares.as_slice(), text)?;
    }
    Ok(())
}

#[test]
fn defences_play_cards(rt: HostRuntime) -> Result<(), Fail> {
    let alloc = rt.alloc();
    let seven = from_south("AKT9876", "54", Goal::AtLeast(7), (0, 1))?;
    let gaps = from_south("AT9", "65", Goal::Tricks, (1, 1))?;
    let empty = defence(alloc, &[], &[])?;
    let mixed = defence(alloc, &[2, 2, 0], &["S4 : 1=58344 3=87516"])?;
    let upper = defence(alloc, &[2, 2, 0], &["S4 : 1=145860", "S4 3 0 : 5=0"])?;
    let cases = [
        // East plays queen and jack alike.
        ((&seven, &empty), ("32", "S5 3 K"), "Q 1 2 J 1 2"),
        // Two classes, of which West holds two cards each.
        (
            (&gaps, &mixed),
            ("KQ87", "S6"),
            "K 58344 2 Q 58344 2 8 87516 2 7 87516 2",
        ),
        // No mass is left where West has played the eight, so all counts of East's row are 0.
        (
            (&gaps, &upper),
            ("KQ87", "S6 8 A"),
            "J 1 1 4 0 3 3 0 3 2 0 3",
        ),
        // West has none.
        ((&gaps, &empty), ("-", "S6"), "- 1 1"),
        // A trick is lost, so play is decided, and it goes on.
        ((&seven, &empty), ("32", "S5 3 6 J NA"), "Q 1 1"),
    ];
    for ((question, defence), (west, words), text) in cases {
        let shares = played(question, west, words)?.by_defence(defence)?;
        are_told(&rt, shares.as_slice(), text)?;
    }
    Ok(())
}
