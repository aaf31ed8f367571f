//! The records of a CSV text.

ghost use Rattle.std.specs.Prelude.{◌≡◌, ℕ, List, true, IfOk, OnOk, length, map, ◌≤◌};
ghost use Rattle.csv.specs.Reading.{Ready, default_config, is_flexible, records, strip_bom};
ghost use Rattle.csv.specs.Records.{fields_of};
ghost use Rattle.persist_report_core.specs.Rows.{IsBehind, IsNextRow};

use csv::{ByteRecord, ErrorKind, Reader, ReaderBuilder};
use std::alloc::{AllocError, Global};

// The fields of the next record, and whether there is one. A read of bytes in memory never fails, though no contract of
// the kit says so; the only error is that memory runs out.
pub(crate) fn next_fields(
    reader: &mut Reader<&[u8]>,
    fields: &mut ByteRecord,
) -> Result<bool, AllocError>
    requires flexible { is_flexible reader.old ≡ true }
    requires ready { Ready reader.old }
    ensures next { IfOk result (λ found. (text : List ℕ) → (rows : List (List (List ℕ))) → IsBehind text rows reader.old → IsNextRow text rows reader.old reader.new found (fields_of fields.new)) }
    ensures flexible { OnOk result (is_flexible reader.new ≡ true) }
    ensures ready { IfOk result (λ found. found ≡ true → Ready reader.new) }
{
    match reader.read_byte_record(fields) {
        Ok(found) => Ok(found),
        Err(error) => match error.kind() {
            ErrorKind::Io(_) | ErrorKind::OutOfMemory => Err(AllocError),
            _ => unreachable!(),
        },
    }
}

/// Returns all records of a text, without a header row, each with any number of fields; empty lines are not records
/// [rows]. There are at most as many as the text has bytes [few].
pub fn read_rows(alloc: Global, text: &[u8]) -> Result<Vec<ByteRecord>, AllocError>
    ensures rows { IfOk result (λ rows. map fields_of rows.items ≡ records default_config (strip_bom text.now)) }
    ensures few { IfOk result (λ rows. length rows.items ≤ length text.now) }
{
    let mut reader = ReaderBuilder::new()
        .has_headers(false)
        .flexible(true)
        .from_reader(alloc, text);
    let mut rows = Vec::new(alloc);
    let mut fields = ByteRecord::new(alloc);
    'records: while next_fields(&mut reader, &mut fields)? {
        rows.push(fields)?;
        fields = ByteRecord::new(alloc);
    }
    Ok(rows)
}
