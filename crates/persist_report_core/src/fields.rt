//! What the fields of a record say: three fields in a row, and specs.

ghost use Rattle.std.specs.Prelude.{◌≡◌, ◌≢◌, ◌≤◌, [], ◌∷◌, IfOk, IfSome, IfNone, option_map, drop, length};
ghost use Rattle.csv.specs.Records.{fields_of};
ghost use Rattle.persist_report_core.specs.Request.{spec_in, linear_in, custom_in, numbers_in, alone as alone_in};

use crate::number::unsigned_number;
use bucket_ranges::{CustomValues, Spec};
use csv::ByteRecord;
use std::alloc::{AllocError, Global};

/// Returns the fields from `start` on, if there are exactly three [some]. Returns none only if there are not [none].
pub fn three_from(fields: &ByteRecord, start: usize) -> Option<(&[u8], &[u8], &[u8])>
    requires { start ≤ 4 }
    ensures some { IfSome result (λ three. drop start (fields_of fields.now) ≡ three.0.now ∷ three.1.now ∷ three.2.now ∷ []) }
    ensures none { IfNone result (length (drop start (fields_of fields.now)) ≢ 3) }
{
    if fields.len() != start + 3 {
        return None;
    }
    let first = fields.get(start)?;
    let second = fields.get(start + 1)?;
    let third = fields.get(start + 2)?;
    Some((first, second, third))
}

// The linear spec in the fields after its kind.
fn read_linear(fields: &ByteRecord, start: usize) -> Option<Spec>
    requires { start ≤ 4 }
    ensures { result ≡ linear_in (drop start (fields_of fields.now)) }
{
    let (min, max, buckets) = three_from(fields, start)?;
    let min = unsigned_number(min)?;
    let max = unsigned_number(max)?;
    let n = unsigned_number(buckets)?;
    Some(Spec::Linear { min, max, n })
}

// The numbers in the fields from one on.
fn read_numbers(
    alloc: Global,
    fields: &ByteRecord,
    start: usize,
) -> Result<Option<Vec<u32>>, AllocError>
    ensures { IfOk result (λ numbers. option_map (λ values. values.items) numbers ≡ numbers_in (drop start (fields_of fields.now))) }
{
    let mut values = Vec::new(alloc);
    for i in start..fields.len() {
        let Some(field) = fields.get(i) else {
            return Ok(None);
        };
        let Some(value) = unsigned_number(field) else {
            return Ok(None);
        };
        values.push(value)?;
    }
    Ok(Some(values))
}

// The custom spec in the fields after its kind.
fn read_custom(alloc: Global, fields: &ByteRecord, start: usize) -> Result<Option<Spec>, AllocError>
    ensures { IfOk result (λ spec. spec ≡ custom_in (drop start (fields_of fields.now))) }
{
    if fields.len() <= start {
        return Ok(None);
    }
    match read_numbers(alloc, fields, start)? {
        Some(values) => Ok(Some(Spec::Custom(CustomValues::from(values)))),
        None => Ok(None),
    }
}

// A spec whose kind has no fields after it.
fn alone(fields: &ByteRecord, spec: Spec, start: usize) -> Option<Spec>
    requires { start ≤ length (fields_of fields.now) }
    ensures { result ≡ alone_in spec (drop start (fields_of fields.now)) }
{
    if fields.len() == start {
        Some(spec)
    } else {
        None
    }
}

/// Returns the spec of a kind and the fields after it, which begin at `start`; none if they are no spec.
pub fn read_spec(
    alloc: Global,
    kind: &[u8],
    fields: &ByteRecord,
    start: usize,
) -> Result<Option<Spec>, AllocError>
    requires behind { start ≤ length (fields_of fields.now) }
    requires near { start ≤ 4 }
    ensures { IfOk result (λ spec. spec ≡ spec_in kind.now (drop start (fields_of fields.now))) }
{
    if kind == b"linear".as_slice() {
        Ok(read_linear(fields, start))
    } else if kind == b"boolean".as_slice() {
        Ok(alone(fields, Spec::Boolean, start))
    } else if kind == b"custom".as_slice() {
        read_custom(alloc, fields, start)
    } else if kind == b"sparse".as_slice() {
        Ok(alone(fields, Spec::Sparse, start))
    } else {
        Ok(None)
    }
}
