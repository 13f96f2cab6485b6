//! Legal moves after histories, written down by hand from the rules.
use arrayvec::ArrayVec;
use std::process::Abort;
use std::test::Fail;
use suit_cards::{Holding, Rank, Seat};
use suit_game::{Entries, Goal, LeadAt, Move, Place, Question, Turn};

fn holding(text: &'static str) -> Result<Holding, Fail> {
    Ok(Holding::read(text.as_bytes()).ok().ok_or(text)?)
}

// A question where the lead stands at South, no hand has an entry, and no more is known.
fn no_entries(north: &'static str, south: &'static str) -> Result<Question, Fail> {
    Ok(Question {
        start: LeadAt::S,
        regain: LeadAt::S,
        entries_n: Entries::Count(0),
        entries_s: Entries::Count(0),
        ..Question::plain(holding(north)?, holding(south)?, Goal::Tricks)
    })
}

// A move: the hand and the card of a lead, the card of a follow, or a dash.
fn move_of(word: &str) -> Result<Move, Fail> {
    let bytes = word.as_bytes();
    if bytes.len() == 2 {
        let seat = if bytes[0] == b'N' { Seat::N } else { Seat::S };
        let rank = Rank::of(bytes[1]).ok_or("no rank")?;
        return Ok(Move::Lead { seat, rank });
    }
    if bytes.len() != 1 {
        return Err(Fail::from("no move"));
    }
    match Rank::of(bytes[0]) {
        Some(rank) => Ok(Move::Follow { rank }),
        None => Ok(Move::ShowOut),
    }
}

fn legal_moves(place: &Place, west: Holding) -> ArrayVec<Move, 13> {
    match place.turn() {
        Turn::Lead => place.leads(),
        Turn::Declarer(seat) => place.follows(place.hand(seat)),
        Turn::Defence(seat) => place.follows(place.holds(west, seat)),
        Turn::Over => ArrayVec::new(),
    }
}

// What is legal after a history under a layout, and how many tricks were won in it.
#[derive(Clone, Copy)]
struct Expected {
    west: &'static str,
    history: &'static str,
    moves: &'static str,
    tricks: u8,
}

fn case(west: &'static str, history: &'static str, moves: &'static str, tricks: u8) -> Expected {
    Expected {
        west,
        history,
        moves,
        tricks,
    }
}

fn check_cases(rt: &impl Abort, question: &Question, cases: &[Expected]) -> Result<(), Fail> {
    assert!(rt; question.is_valid());
    for case in cases {
        let west = holding(case.west)?;
        let mut place = Place::start(question);
        for word in case.history.split_ascii_whitespace() {
            let mv = move_of(word)?;
            assert!(rt;
                legal_moves(&place, west).as_slice().contains(&mv),
                "{word}"
            );
            place = place.step(mv);
        }
        let legal = legal_moves(&place, west);
        let mut words = case.moves.split_ascii_whitespace();
        for mv in legal.as_slice() {
            let word = words.next().ok_or("more moves are legal")?;
            assert_eq!(rt; *mv, move_of(word)?, "after {}", case.history);
        }
        assert_eq!(rt; words.next(), None);
        assert_eq!(rt; place.tricks(), case.tricks);
    }
    Ok(())
}

#[test]
fn leads_and_entries(rt: HostRuntime) -> Result<(), Fail> {
    let tenace = no_entries("AQ", "32")?;
    check_cases(&rt, &tenace, &[case("KJ", "", "S3 S2", 0)])?;
    let mut from_north = tenace;
    from_north.start = LeadAt::N;
    check_cases(
        &rt,
        &from_north,
        &[
            case("KJ", "", "NA NQ", 0),
            // No entry is left.
            case("KJ", "NA 4 2 J", "NQ", 1),
        ],
    )?;
    let mut one_entry = from_north;
    one_entry.entries_s = Entries::Count(1);
    check_cases(
        &rt,
        &one_entry,
        &[
            case("KJ", "", "NA NQ S3 S2", 0),
            // The entry is spent.
            case("KJ", "S3 J Q 4", "NA", 1),
        ],
    )?;
    let mut free = from_north;
    free.entries_s = Entries::Free;
    check_cases(&rt, &free, &[case("KJ", "S3 J Q 4", "NA S2", 1)])?;
    // No entry is spent where the lead stands at either.
    let mut either = one_entry;
    either.start = LeadAt::Either;
    check_cases(&rt, &either, &[case("KJ", "S3 J A 4", "NQ S2", 1)])
}

#[test]
fn follows_and_showing_out(rt: HostRuntime) -> Result<(), Fail> {
    check_cases(
        &rt,
        &no_entries("AQ", "32")?,
        &[
            case("KJ", "S2", "K J", 0),
            case("KJ", "S2 J", "A Q", 0),
            case("KJ", "S2 J Q", "T 9 8 7 6 5 4", 0),
            // West shows out, and East.
            case("-", "S2", "-", 0),
            case("KJT987654", "S2 4 A", "-", 0),
        ],
    )?;
    // North shows out, and South.
    check_cases(&rt, &no_entries("-", "K2")?, &[case("A3", "S2 3", "-", 0)])?;
    let mut bare_south = no_entries("K2", "-")?;
    bare_south.start = LeadAt::N;
    check_cases(&rt, &bare_south, &[case("A3", "N2 4", "-", 0)])
}

#[test]
fn tricks_and_the_lead(rt: HostRuntime) -> Result<(), Fail> {
    // A trick won in each declarer hand.
    let tenace = no_entries("AQ", "32")?;
    check_cases(&rt, &tenace, &[case("KJ", "S2 J Q 4", "NA", 1)])?;
    let mut turned = no_entries("32", "AQ")?;
    turned.start = LeadAt::N;
    check_cases(&rt, &turned, &[case("T987654", "N2 J Q 4", "SA", 1)])?;
    // A lost trick with each place to regain the lead.
    let mut king = no_entries("K2", "43")?;
    king.start = LeadAt::N;
    let lost = "N2 5 3 Q";
    check_cases(&rt, &king, &[case("AQ", lost, "S4", 0)])?;
    king.regain = LeadAt::N;
    check_cases(&rt, &king, &[case("AQ", lost, "NK", 0)])?;
    king.regain = LeadAt::Either;
    check_cases(&rt, &king, &[case("AQ", lost, "NK S4", 0)])?;
    // The highest card wins, not the last that beat the one before it.
    let mut ace = no_entries("A2", "93")?;
    ace.start = LeadAt::N;
    check_cases(&rt, &ace, &[case("KQ", "NA 4 9 K", "N2", 1)])
}

#[test]
fn the_end(rt: HostRuntime) -> Result<(), Fail> {
    let tenace = no_entries("AQ", "32")?;
    let history = "S2 J Q 4 NA 5 3 K";
    check_cases(&rt, &tenace, &[case("KJ", history, "", 2)])?;
    // South's king is out of reach.
    let mut blocked = no_entries("A", "K3")?;
    blocked.start = LeadAt::N;
    check_cases(&rt, &blocked, &[case("Q4", "NA 5 3 4", "", 1)])?;

    assert!(rt; tenace.is_valid());
    let mut place = Place::start(&tenace);
    for word in history.split_ascii_whitespace() {
        place = place.step(move_of(word)?);
    }
    assert_eq!(rt; place.turn(), Turn::Over);
    assert_eq!(rt; place.payoff(Goal::AtLeast(2)), 1);
    assert_eq!(rt; place.payoff(Goal::AtLeast(3)), 0);
    assert_eq!(rt; place.payoff(Goal::Tricks), 2);
    assert!(rt; std::mem::size_of::<Place>() < 64);
    Ok(())
}
