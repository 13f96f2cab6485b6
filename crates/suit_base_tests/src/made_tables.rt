//! Made tables, as a text and as questions.

use std::test::Fail;
use suit_gen::{make, questions};

#[test]
fn makes_records(rt: HostRuntime) -> Result<(), Fail> {
    for (number, count, want) in [
        (1, 1, "AKQ9852,43,either,either,0,0,13,13,0,13,6,2000,200\n"),
        // The state is carried on from record to record.
        (
            4_294_967_295,
            2,
            "A86,K972,either,either,0,0,13,13,0,13,4,2000,200\n\
            AKJT2,976,either,either,0,0,13,13,0,13,4,2000,200\n",
        ),
    ] {
        let text = make(rt.alloc(), number, count)?;
        assert_eq!(rt; text.as_slice(), want.as_bytes(), "of {number}");
    }
    Ok(())
}

#[test]
fn questions_are_those_of_the_records(rt: HostRuntime) -> Result<(), Fail> {
    let made = questions(rt.alloc(), 1, 2)?;
    assert_eq!(rt; made.len(), 2);
    assert_eq!(rt; made[0].north.text().as_str(), "AKQ9852");
    assert_eq!(rt; made[0].south.text().as_str(), "43");
    assert!(rt; made[0].is_valid());
    Ok(())
}
