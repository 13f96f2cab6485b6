//! The sizes of two supports of the ten cards facing the three, counted by hand.
use bumpalo::Bump;
use std::test::Fail;
use suit_cards::Holding;
use suit_game::{Entries, Goal, LeadAt, Question};
use suit_program::{Support, size};
use suit_tree::grow;

/// The ten cards, with the lead in South and no entry.
fn ten_cards() -> Result<Question, Fail> {
    let north = Holding::read(b"AQJT987654").ok().ok_or("no north")?;
    let south = Holding::read(b"3").ok().ok_or("no south")?;
    Ok(Question {
        start: LeadAt::S,
        entries_n: Entries::Count(0),
        entries_s: Entries::Count(0),
        ..Question::plain(north, south, Goal::AtLeast(10))
    })
}

#[test]
fn sized(rt: HostRuntime) -> Result<(), Fail> {
    let ten = ten_cards()?;
    assert!(rt; ten.is_valid());
    let arena = Bump::new(rt.alloc());
    let tree = grow(rt.alloc(), &arena, &ten).ok().ok_or("no tree")?;
    assert_eq!(rt; size(&tree, &Support::first(rt.alloc())), 10);
    let whole = Support::whole(rt.alloc(), &tree).ok().ok_or("no support")?;
    assert_eq!(rt; size(&tree, &whole), 24);
    Ok(())
}
