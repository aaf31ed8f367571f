//! Numbers in fields, each with the one spelling that the code writes.

ghost use Rattle.std.specs.Prelude.{◌≡◌, ◌<◌, ◌^◌, ℕ, ℤ, Some, IfSome};
ghost use Rattle.std.specs.Fmt.{decimal, signed_decimal};
ghost use Rattle.std.specs.Int.{w32, w128};
ghost use Rattle.std.specs.Prelude.{FitsSigned};

use itoa::Buffer;

// The number without a sign that a field writes, if it writes one.
fn size_in(field: &[u8]) -> Option<u128>
    ensures found { IfSome result (λ size. field.now ≡ decimal size) }
    ensures only { (size : ℕ) → size < 2 ^ 128 → field.now ≡ decimal size → result ≡ Some size }
{
    let text = str::from_utf8(field).ok()?;
    let size = text.parse::<u128>().ok()?;
    let mut buffer = Buffer::new();
    if buffer.format(size).as_bytes() == field {
        Some(size)
    } else {
        None
    }
}

/// Returns the number of 64 bits that a field writes, if it writes one.
pub(crate) fn number_in(field: &[u8]) -> Option<u64>
    ensures found { IfSome result (λ number. field.now ≡ decimal number) }
    ensures only { (number : ℕ) → number < 2 ^ 64 → field.now ≡ decimal number → result ≡ Some number }
{
    u64::try_from(size_in(field)?).ok()
}

/// Returns the number of 32 bits that a field writes, if it writes one.
pub(crate) fn small_number_in(field: &[u8]) -> Option<u32>
    ensures found { IfSome result (λ number. field.now ≡ decimal number) }
    ensures only { (number : ℕ) → number < 2 ^ 32 → field.now ≡ decimal number → result ≡ Some number }
{
    u32::try_from(size_in(field)?).ok()
}

/// Returns the number of 128 bits with a sign that a field writes, if it writes one.
pub(crate) fn amount_in(field: &[u8]) -> Option<i128>
    ensures found { IfSome result (λ amount. field.now ≡ signed_decimal amount) }
    ensures fits { IfSome result (FitsSigned w128) }
    ensures only { (amount : ℤ) → FitsSigned w128 amount → field.now ≡ signed_decimal amount → result ≡ Some amount }
{
    match field {
        [b'-', digits @ ..] => {
            let size = size_in(digits)?;
            if size == 0 {
                return None;
            }
            0_i128.checked_sub_unsigned(size)
        }
        _ => i128::try_from(size_in(field)?).ok(),
    }
}

/// Returns the number of 32 bits with a sign that a field writes, if it writes one.
pub(crate) fn value_in(field: &[u8]) -> Option<i32>
    ensures found { IfSome result (λ value. field.now ≡ signed_decimal value) }
    ensures fits { IfSome result (FitsSigned w32) }
    ensures only { (value : ℤ) → FitsSigned w32 value → field.now ≡ signed_decimal value → result ≡ Some value }
{
    i32::try_from(amount_in(field)?).ok()
}
