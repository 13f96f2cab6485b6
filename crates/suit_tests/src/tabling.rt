//! What `table`, `make` and `trial` write. The outcomes were found by another program.
use crate::runs::ran;
use std::test::Fail;
use suit_game::OpenGate;

/// Sixteen records: questions with a value or without, fields with blanks, and a mistake of each sort.
const RECORDS: &str = "AQ,32,S,,0,0,,,,,2,,\n\
    AQ,32,S,,0,0,10,13,,,2,,\n\
    AJT,432,,,,,,,,,2,,\n\
    AKT9,J32,,,1,1,,,,,4,,\n\
    AKA,2,,,,,,,,,1,,\n\
    \x20KQ2 ,543,,,,,,,,,tricks,,\n\
    AJT98765432,-,N,,,,,,,,11,,\n\
    AKQJT98765432,-,N,,,,,,,,13,52,\n\
    K9,42,,,1,0,5,11,2,5,1,,\n\
    AQT9,432,,,,,,,,,3,,10\n\
    N S,2,,,,,,,,,1,,\n\
    A,2,,,,,14,13,,,1,,\n\
    ,,,,,,,,,,,,\n\
    AJ9,432,,,,,,,,,2,,\n\
    AKT9876,54,,,0,1,,,,,7,,\n\
    10,2,,,,,,,,,1,,\n";

/// What is written of them.
const LINES: &str = "1,value,1/2\n2,value,10/23\n3,value,19/25\n4,value,1649/3220\n5,malformed,5\n\
    6,value,3/2\n7,value,13/25\n8,nodes,52\n9,value,95/288\n10,pivots,10\n11,malformed,4\n\
    12,malformed,9\n13,malformed,1\n14,support,4000\n15,value,533/1150\n16,value,0/1\n";

#[test]
fn records_have_the_outcomes_of_another_program(rt: HostRuntime) -> Result<(), Fail> {
    let (status, written) = ran(&rt, &OpenGate, rt.alloc(), &["table"], RECORDS.as_bytes())?;
    assert_eq!(rt; status, 0);
    assert_eq!(rt; written.as_slice(), LINES.as_bytes());
    Ok(())
}

/// Words, inputs, the status that is due, and the text.
const CASES: [(&[&str], &str, u8, &str); 12] = [
    (&["table"], "", 0, ""),
    (
        &["table"],
        "AQ,32,S,,0,0,,,,,2,,\nA,2\n",
        12,
        "csv at record 2\n",
    ),
    (
        &["make", "1", "1"],
        "",
        0,
        "AKQ9852,43,either,either,0,0,13,13,0,13,6,2000,200\n",
    ),
    (
        &["make", "0000000001", "00001"],
        "",
        0,
        "AKQ9852,43,either,either,0,0,13,13,0,13,6,2000,200\n",
    ),
    (
        &["trial", "1", "20"],
        "",
        0,
        "records 20 values 0 nodes 20 support 0 pivots 0 wide 0\n",
    ),
    (&["make", "4294967296", "1"], "", 2, ""),
    (&["make", "00000000001", "1"], "", 2, ""),
    (&["make", "1", "0"], "", 2, ""),
    (&["make", "1", "10001"], "", 2, ""),
    (&["make", "1"], "", 2, ""),
    (&["trial", "+1", "1"], "", 2, ""),
    (&["table", "1", "1"], "", 2, ""),
];

#[test]
fn tables_are_made_and_refused(rt: HostRuntime) -> Result<(), Fail> {
    for (words, input, code, text) in CASES {
        let (status, written) = ran(&rt, &OpenGate, rt.alloc(), words, input.as_bytes())?;
        assert_eq!(rt; status, code, "at {words:?}");
        assert_eq!(rt; written.as_slice(), text.as_bytes(), "at {words:?}");
    }
    Ok(())
}
