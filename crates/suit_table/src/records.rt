//! The records of a table.
ghost use Rattle.std.specs.Prelude.{◌≡◌, ◌<◌, ◌≤◌, IfOk, IfSome, length, map, position};
ghost use Rattle.csv.specs.Records.{fields_of};
ghost use Rattle.suit_table.specs.Records.{first_misfit, is_misfit, records_of};

use crate::Memory;
use csv::{ByteRecord, ReaderBuilder};
use std::alloc::{AllocError, Global};
use suit_question::COLUMNS;
use suit_text::MOST_TEXT;

/// The most bytes of a table: as many as of any text.
pub const MOST_TABLE: usize = MOST_TEXT;

/// How many fields a record has: one for each column of a question.
pub const FIELDS: usize = COLUMNS as usize;

/// Reads the records of a table that has no header.
pub(crate) fn read_records(alloc: Global, bytes: &[u8]) -> Result<Vec<ByteRecord>, Memory>
    ensures records { IfOk result (λ records. map fields_of records.items ≡ records_of bytes.now) }
    ensures count { IfOk result (λ records. length records.items ≤ length bytes.now) }
{
    let reader = ReaderBuilder::new()
        .has_headers(false)
        .flexible(true)
        .from_reader(alloc, bytes);
    let mut records = Vec::new(alloc);
    for record in reader.into_byte_records() {
        // A reader over bytes in memory fails for want of memory alone.
        let Ok(record) = record else {
            return Err(AllocError);
        };
        records.push(record)?;
    }
    Ok(records)
}

/// The number of the first record, counted from 1, that has more or fewer fields than a question has columns.
pub(crate) fn first_misfit(records: &[ByteRecord]) -> Option<u32>
    requires { length records.now ≤ MOST_TABLE }
    ensures { result ≡ first_misfit (map fields_of records.now) }
{
    let index = misfit_index(records)?;
    Some(index as u32 + 1)
}

/// Where that record stands.
fn misfit_index(records: &[ByteRecord]) -> Option<usize>
    ensures first { result ≡ position (λ one. is_misfit (fields_of one)) records.now }
    ensures within { IfSome result (λ index. index < length records.now) }
{
    records.iter().position(|one| one.len() != FIELDS)
}
