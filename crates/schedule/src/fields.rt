//! The fields of a record as a list.

ghost use Rattle.std.specs.Prelude.{◌≡◌, IfOk};
ghost use Rattle.csv.specs.Records.{fields_of};
ghost use Rattle.schedule.specs.Fields.{texts};

use csv::ByteRecord;
use std::alloc::{AllocError, Global};

/// The fields of a record, in order.
pub(crate) fn list_fields(alloc: Global, csv_record: &ByteRecord) -> Result<Vec<&[u8]>, AllocError>
    ensures { IfOk result (λ fields. texts fields.items ≡ fields_of csv_record.now) }
{
    let mut fields = Vec::new(alloc);
    for i in 0..csv_record.len() {
        if let Some(field) = csv_record.get(i) {
            fields.push(field)?;
        }
    }
    Ok(fields)
}
