//! A table, judged and told.
ghost use Rattle.std.specs.Prelude.{◌≡◌, ◌≤◌, All, IfErr, IfOk, None, flat_map, length, map};
ghost use Rattle.csv.specs.Records.{fields_of};
ghost use Rattle.suit_game.specs.Validity.{IsValid};
ghost use Rattle.suit_table.specs.Entries.{entries_from};
ghost use Rattle.suit_table.specs.Judging.{told_line};
ghost use Rattle.suit_table.specs.Records.{first_misfit};
ghost use Rattle.suit_table.specs.Tables.{IsTable, IsTableEnd};
ghost use Rattle.suit_table.specs.declared.records.TheConstants.{MOST_TABLE};
ghost use Rattle.suit_table.specs.declared.tables.TableEnd.TheVariants as ends;

use crate::Memory;
use crate::fields::question_named;
use crate::judging::{Entry, Judge, Told, judge_all};
use crate::lines::told_line;
use crate::records::{first_misfit, read_records};
use csv::ByteRecord;
use std::alloc::{AllocError, Global};
use std::thread::Threads;
use suit_game::Gate;
use thiserror::Error;

/// Why a table was refused.
#[derive(Clone, Copy, Debug, PartialEq, Eq, Error)]
pub enum TableEnd {
    /// A record has more or fewer than thirteen fields, and nothing was judged.
    #[error("record {at} does not have thirteen fields")]
    Csv {
        /// The number of the first such record, counted from 1.
        at: u32,
    },
    /// Memory ran out.
    #[error("memory ran out")]
    Memory,
}

impl From<AllocError> for TableEnd {
    ghost from_gives = { λ _ end. end ≡ ends.Memory };

    fn from(_: AllocError) -> TableEnd {
        TableEnd::Memory
    }
}

/// Judges the questions that the records of a table name, and tells each in a line of its own, in the order of the
/// records: the record's number, a word and a detail, as `csv` writes them. Up to four records are judged at once, and
/// what is told of one does not depend on the others. Records are read as `csv` reads them, without a header. A record
/// has thirteen fields, one for each column of a question; spaces and tabs at the ends of a field say nothing, and an
/// empty field leaves its column at its default.
///
/// # Errors
///
/// `Csv` where a record has more or fewer fields, of the first that has, before anything is judged. Want of memory.
pub fn table<R: Threads + Sync, G: Gate + Sync, J: Judge + Sync>(
    rt: &R,
    gate: &G,
    alloc: Global,
    judge: &J,
    bytes: &[u8],
) -> Result<Vec<u8>, TableEnd>
    requires short { length bytes.now ≤ MOST_TABLE }
    ensures lines { IfOk result (λ text. IsTable (J.fits judge.now) bytes.now text.items) }
    ensures end { IfErr result (λ end. IsTableEnd bytes.now end) }
{
    let records = read_records(alloc, bytes)?;
    if let Some(at) = first_misfit(&records) {
        return Err(TableEnd::Csv { at });
    }
    let entries = entries_of(alloc, &records)?;
    let told = judge_all(rt, gate, alloc, judge, &entries)?;
    Ok(text_of(alloc, &told)?)
}

/// The records as they are read, numbered from 1.
fn entries_of(alloc: Global, records: &[ByteRecord]) -> Result<Vec<Entry>, Memory>
    requires few { length records.now ≤ MOST_TABLE }
    requires fit { first_misfit (map fields_of records.now) ≡ None }
    ensures entries { IfOk result (λ entries. entries.items ≡ entries_from 1 (map fields_of records.now)) }
    ensures valid { IfOk result (λ entries. All (λ entry. IfOk entry.read IsValid) entries.items) }
{
    let mut entries = Vec::new(alloc);
    let mut number = 1;
    for fields in records {
        let read = question_named(fields, number);
        entries.push(Entry { number, read })?;
        number += 1;
    }
    Ok(entries)
}

/// The lines of records, one after another.
fn text_of(alloc: Global, told: &[Told]) -> Result<Vec<u8>, Memory>
    ensures { IfOk result (λ text. text.items ≡ flat_map told_line told.now) }
{
    let mut text = Vec::new(alloc);
    for one in told {
        let line = told_line(alloc, one)?;
        text.extend_from_slice(&line)?;
    }
    Ok(text)
}
