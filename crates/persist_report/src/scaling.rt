//! The record of a script that asks for a histogram of a scale.

ghost use Rattle.std.specs.Prelude.{◌≡◌, ◌∷◌, ◌++◌, OnOk, IfOk};
ghost use Rattle.std.specs.List.{flat_map};
ghost use Rattle.persist_report.specs.Scaling.{has_special, doubled, script_field, value_field, custom_record};

use std::alloc::{AllocError, Global};

// Whether a field of a script has to be in quotes.
fn has_special_byte(field: &[u8]) -> bool
    ensures { result ≡ has_special field.now }
{
    field.iter().any(|byte| *byte == b',' || *byte == b'"' || *byte == b'\n' || *byte == b'\r')
}

// Appends a byte of a field in quotes.
fn put_byte(text: &mut Vec<u8>, byte: u8) -> Result<(), AllocError>
    ensures { OnOk result (text.new.items ≡ text.old.items ++ doubled byte) }
{
    if byte == b'"' {
        text.extend_from_slice(b"\"\"")
    } else {
        text.push(byte)?;
        Ok(())
    }
}

// Appends the bytes of a field in quotes.
fn put_bytes(text: &mut Vec<u8>, field: &[u8]) -> Result<(), AllocError>
    ensures { OnOk result (text.new.items ≡ text.old.items ++ flat_map doubled field.now) }
{
    for byte in field {
        put_byte(text, *byte)?;
    }
    Ok(())
}

// Appends a field of a script.
fn put_field(text: &mut Vec<u8>, field: &[u8]) -> Result<(), AllocError>
    ensures { OnOk result (text.new.items ≡ text.old.items ++ script_field field.now) }
{
    if has_special_byte(field) {
        text.push(b'"')?;
        put_bytes(text, field)?;
        text.push(b'"')?;
        Ok(())
    } else {
        text.extend_from_slice(field)
    }
}

// Appends a comma and a value.
fn put_value(alloc: Global, text: &mut Vec<u8>, value: u32) -> Result<(), AllocError>
    ensures { OnOk result (text.new.items ≡ text.old.items ++ value_field value) }
{
    let digits = value.to_string(alloc)?;
    text.push(b',')?;
    text.extend_from_slice(digits.as_bytes())
}

// Appends values, each after a comma.
fn put_values(alloc: Global, text: &mut Vec<u8>, values: &[u32]) -> Result<(), AllocError>
    ensures { OnOk result (text.new.items ≡ text.old.items ++ flat_map value_field values.now) }
{
    for value in values {
        put_value(alloc, text, *value)?;
    }
    Ok(())
}

/// Returns the record of a script that asks for a custom histogram of a name and these values, with its line feed. The
/// name is in quotes if it has a comma, a quote or an end of a line, and there each quote is doubled. The only error is
/// that memory runs out.
pub fn custom_record_of(alloc: Global, name: &str, values: &[u32]) -> Result<Vec<u8>, AllocError>
    ensures { IfOk result (λ text. text.items ≡ custom_record name.now values.now) }
{
    let mut text = Vec::new(alloc);
    text.extend_from_slice(b"hist,")?;
    put_field(&mut text, name.as_bytes())?;
    text.extend_from_slice(b",custom")?;
    put_values(alloc, &mut text, values)?;
    text.push(b'\n')?;
    Ok(text)
}
