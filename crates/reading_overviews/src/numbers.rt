//! How numbers are written.

ghost use Rattle.std.specs.Prelude.{◌≡◌, ◌<◌, ◌++◌, ◌-ℤ◌, length, OnOk};
ghost use Rattle.reading_overviews.specs.Numbers.{has_comma as has_comma_of, comma_text, digit_at, grouped, written, number, sign, signed};

use itoa::Buffer;
use std::alloc::AllocError;

// Whether a comma comes before the last `left` digits of a number.
fn has_comma(left: usize) -> bool
    ensures { result ≡ has_comma_of left }
{
    left != 0 && left % 3 == 0
}

// Puts the comma before the last `left` digits, if there is one.
fn put_comma(text: &mut Vec<u8>, left: usize) -> Result<(), AllocError>
    ensures { OnOk result (text.new.items ≡ text.old.items ++ comma_text left) }
{
    if has_comma(left) {
        text.push(b',')?;
    }
    Ok(())
}

// Puts digit `i`, and the comma after it, if there is one.
fn put_digit(text: &mut Vec<u8>, digits: &[u8], i: usize) -> Result<(), AllocError>
    requires { i < length digits.now }
    ensures { OnOk result (text.new.items ≡ text.old.items ++ digit_at digits.now i) }
{
    text.push(digits[i])?;
    put_comma(text, digits.len() - i - 1)?;
    Ok(())
}

// Puts digits with a comma between thousands.
fn put_grouped(text: &mut Vec<u8>, digits: &[u8]) -> Result<(), AllocError>
    ensures { OnOk result (text.new.items ≡ text.old.items ++ grouped digits.now) }
{
    for i in 0..digits.len() {
        put_digit(text, digits, i)?;
    }
    Ok(())
}

/// Appends the digits of a number to a text, with a comma between thousands if it is for people. The only error is that
/// memory runs out.
pub fn put_digits(text: &mut Vec<u8>, is_human: bool, digits: &[u8]) -> Result<(), AllocError>
    ensures { OnOk result (text.new.items ≡ text.old.items ++ written is_human digits.now) }
{
    if is_human {
        return put_grouped(text, digits);
    }
    text.extend_from_slice(digits)
}

/// Appends a number to a text, with a comma between thousands if it is for people. The only error is that memory runs
/// out.
pub fn put_number(text: &mut Vec<u8>, is_human: bool, n: u64) -> Result<(), AllocError>
    ensures { OnOk result (text.new.items ≡ text.old.items ++ number is_human n) }
{
    let mut digits = Buffer::new();
    put_digits(text, is_human, digits.format(n).as_bytes())
}

/// Appends the sign of a number to a text, if it is below 0. The only error is that memory runs out.
pub fn put_sign(text: &mut Vec<u8>, n: i128) -> Result<(), AllocError>
    ensures { OnOk result (text.new.items ≡ text.old.items ++ sign n) }
{
    if n < 0 {
        text.push(b'-')?;
    }
    Ok(())
}

/// Appends a number with its sign to a text, with a comma between thousands if it is for people. The only error is that
/// memory runs out.
pub fn put_signed(text: &mut Vec<u8>, is_human: bool, n: i128) -> Result<(), AllocError>
    ensures { OnOk result (text.new.items ≡ text.old.items ++ signed is_human n) }
{
    put_sign(text, n)?;
    let mut digits = Buffer::new();
    put_digits(text, is_human, digits.format(n.unsigned_abs()).as_bytes())?;
    Ok(())
}

// Puts the sign of the difference of two numbers, if it is below 0.
fn put_sign_of_difference(text: &mut Vec<u8>, left: i128, right: i128) -> Result<(), AllocError>
    ensures { OnOk result (text.new.items ≡ text.old.items ++ sign (left -ℤ right)) }
{
    if left < right {
        text.push(b'-')?;
    }
    Ok(())
}

/// Appends the first number less the second to a text, with its sign, and with a comma between thousands if it is for
/// people. The difference may be too large for an `i128`. The only error is that memory runs out.
pub fn put_difference(
    text: &mut Vec<u8>,
    is_human: bool,
    left: i128,
    right: i128,
) -> Result<(), AllocError>
    ensures { OnOk result (text.new.items ≡ text.old.items ++ signed is_human (left -ℤ right)) }
{
    put_sign_of_difference(text, left, right)?;
    let mut digits = Buffer::new();
    put_digits(
        text,
        is_human,
        digits.format(left.abs_diff(right)).as_bytes(),
    )?;
    Ok(())
}
