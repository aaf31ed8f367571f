//! Numbers in fields: decimal digits, and a `-` before them for a number below 0.

ghost use Rattle.std.specs.Prelude.{◌≡◌};
ghost use Rattle.persist_report_core.specs.Number.{whole_number, unsigned_number as unsigned_number_of, long_number as long_number_of, signed_number as signed_number_of, signed_long_number as signed_long_number_of};

/// Returns the number that the digits write, if it fits 64 bits; there can be many digits, since zeros may lead.
pub fn long_number(digits: &[u8]) -> Option<u64>
    ensures { result ≡ long_number_of digits.now }
{
    if digits.is_empty() {
        return None;
    }
    let mut value: u64 = 0;
    for digit in digits {
        if !digit.is_ascii_digit() {
            return None;
        }
        value = value
            .checked_mul(10)?
            .checked_add(u64::from(*digit - b'0'))?;
    }
    Some(value)
}

// The number that the digits write, if it is at most `most`.
fn number_up_to(most: u64, digits: &[u8]) -> Option<u64>
    ensures { result ≡ whole_number most digits.now }
{
    let value = long_number(digits)?;
    if value <= most { Some(value) } else { None }
}

/// Returns the field as a number of 32 bits without a sign, if it is one.
pub fn unsigned_number(field: &[u8]) -> Option<u32>
    ensures { result ≡ unsigned_number_of field.now }
{
    let value = number_up_to(0xFFFF_FFFF, field)?;
    Some(value as u32)
}

/// Returns the field as a number of 32 bits with a sign, if it is one.
pub fn signed_number(field: &[u8]) -> Option<i32>
    ensures { result ≡ signed_number_of field.now }
{
    match field {
        [b'-', digits @ ..] => {
            let size = number_up_to(0x8000_0000, digits)?;
            Some((-(size as i64)) as i32)
        }
        _ => {
            let value = number_up_to(0x7FFF_FFFF, field)?;
            Some(value as i32)
        }
    }
}

/// Returns the field as a number of 64 bits with a sign, if it is one.
pub fn signed_long_number(field: &[u8]) -> Option<i64>
    ensures { result ≡ signed_long_number_of field.now }
{
    match field {
        [b'-', below @ ..] => {
            let size = number_up_to(0x8000_0000_0000_0000, below)?;
            0_i64.checked_sub_unsigned(size)
        }
        _ => {
            let value = number_up_to(0x7FFF_FFFF_FFFF_FFFF, field)?;
            Some(value as i64)
        }
    }
}
