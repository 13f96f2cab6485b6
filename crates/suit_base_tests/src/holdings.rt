use std::process::Abort;
use std::test::Fail;
use suit_cards::{CardFault, Holding, Rank, Seat};

fn holding(rt: &impl Abort, text: &str) -> Holding {
    Holding::read(text.as_bytes()).expect(rt, "a holding")
}

#[test]
fn reads_holdings(rt: HostRuntime) {
    for (text, want) in [
        ("q10a", "AQT"),
        ("T", "T"),
        ("10", "T"),
        ("-", "-"),
        ("", "-"),
        ("52", "52"),
        ("akqjt98765432", "AKQJT98765432"),
        ("2345678910JQKA", "AKQJT98765432"),
    ] {
        assert_eq!(rt; holding(&rt, text).text().as_str(), want, "from {text}");
    }
}

#[test]
fn tells_the_first_fault(rt: HostRuntime) {
    for (text, want) in [
        ("a1", CardFault::NotRank { at: 1 }),
        ("A-", CardFault::NotRank { at: 1 }),
        ("-A", CardFault::NotRank { at: 0 }),
        ("10x", CardFault::NotRank { at: 2 }),
        ("0", CardFault::NotRank { at: 0 }),
        ("AtT", CardFault::Twice { at: 2 }),
        ("1010", CardFault::Twice { at: 2 }),
        ("t10", CardFault::Twice { at: 1 }),
        ("KKx", CardFault::Twice { at: 1 }),
    ] {
        assert_eq!(rt; Holding::read(text.as_bytes()), Err(want), "from {text}");
    }
}

#[test]
fn answers_about_cards(rt: HostRuntime) -> Result<(), Fail> {
    for (letter, capital, number) in [
        (b'a', b'A', 14),
        (b'K', b'K', 13),
        (b't', b'T', 10),
        (b'2', b'2', 2),
    ] {
        let rank = Rank::of(letter).ok_or("a rank")?;
        assert_eq!(rt; rank.letter(), capital);
        assert_eq!(rt; rank.number(), number);
        assert_eq!(rt; Rank::from_number(number), Some(rank));
    }
    for none in [b'1', b'0', b'-', b'x'] {
        assert_eq!(rt; Rank::of(none), None);
    }
    assert_eq!(rt; Rank::from_number(1), None);
    assert_eq!(rt; Rank::from_number(15), None);

    let queen = Rank::of(b'Q').ok_or("a rank")?;
    let (north, south) = (holding(&rt, "AQ54"), holding(&rt, "KQ"));
    assert_eq!(rt; north.len(), 4);
    assert!(rt; north.has(queen));
    assert_eq!(rt; north.without(queen), holding(&rt, "A54"));
    assert!(rt; north.shares(south));
    assert!(rt; !north.without(queen).shares(south));
    assert_eq!(rt; north.others(south), holding(&rt, "JT987632"));
    assert!(rt; Holding::default().is_empty());
    assert_eq!(rt;
        Holding::of(Rank::of(b't').ok_or("ten")?).text().as_str(),
        "T"
    );
    assert!(rt; !south.is_empty());
    let ranks = south.ranks();
    assert_eq!(rt; ranks.len(), 2);
    assert_eq!(rt; ranks.as_slice()[1], queen);
    assert!(rt; Rank::default() < queen);

    assert_eq!(rt;
        [Seat::N, Seat::E, Seat::S, Seat::W].map(Seat::next),
        [Seat::E, Seat::S, Seat::W, Seat::N]
    );
    Ok(())
}
