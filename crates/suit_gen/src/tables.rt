//! Made tables, as a text and as the questions that its records name.
ghost use Rattle.std.specs.Prelude.{◌≡◌, ◌++◌, Ok, IfOk, OnOk, length, map, All, string_bytes};
ghost use Rattle.std.specs.List.{flat_map};
ghost use Rattle.suit_game.specs.Validity.{IsValid};
ghost use Rattle.suit_gen.specs.Deals.{deals_from};
ghost use Rattle.suit_gen.specs.Naming.{question_named};
ghost use Rattle.suit_gen.specs.Records.{fields_of, record_text};

use crate::Memory;
use crate::deals::{Deal, MADE_NODES, MADE_PIVOTS};
use crate::draws::Draws;
use std::alloc::Global;
use std::fmt::Write;
use suit_game::{HAND_SIZE, Question};

/// The table of a number with so many records, as a text: a line for each, with the fields of a question's thirteen
/// columns and a comma between any two. The ace is North's; each lower card goes to North or South, or is missing, as
/// the generator draws; the goal is the length of the longer hand, or one less. All else is the same in each record.
///
/// # Errors
///
/// Want of memory.
pub fn make(alloc: Global, number: u32, count: u16) -> Result<Vec<u8>, Memory>
    ensures { IfOk result (λ text. text.items ≡ flat_map record_text (deals_from count number)) }
{
    let mut draws = Draws { state: number };
    let mut text = String::new(alloc);
    for _ in 0..count {
        write_record(&mut text, &Deal::drawn(&mut draws))?;
    }
    Ok(text.into_bytes())
}

/// Writes the line of a record.
#[tactic(auto, unfolding(crate::specs::Records::record_text))]
fn write_record(text: &mut String, deal: &Deal) -> Result<(), Memory>
    ensures { OnOk result (string_bytes text.new ≡ string_bytes text.old ++ record_text deal.now) }
{
    let (north, south) = (deal.north.text(), deal.south.text());
    writeln!(
        text,
        "{north},{south},either,either,0,0,{HAND_SIZE},{HAND_SIZE},0,{HAND_SIZE},{},{MADE_NODES},{MADE_PIVOTS}",
        deal.goal
    )
}

/// The questions that the records of the table of a number name, in their order: each field is put into its column of a
/// draft, which is then finished. Each question is valid.
///
/// # Errors
///
/// Want of memory.
pub fn questions(alloc: Global, number: u32, count: u16) -> Result<Vec<Question>, Memory>
    ensures count { IfOk result (λ questions. length questions.items ≡ count) }
    ensures named { IfOk result (λ questions. map Ok questions.items
        ≡ map (λ deal. question_named (fields_of deal)) (deals_from count number)) }
    ensures valid { IfOk result (λ questions. All IsValid questions.items) }
{
    let mut draws = Draws { state: number };
    let mut questions = Vec::new(alloc);
    for _ in 0..count {
        questions.push(Deal::drawn(&mut draws).question())?;
    }
    Ok(questions)
}
