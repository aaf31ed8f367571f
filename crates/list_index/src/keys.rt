//! Keys of names.

ghost use Rattle.std.specs.Prelude.{◌≡◌};
ghost use Rattle.list_index.specs.Keys.{next_key as key_then, next_byte_key as byte_key_then};

// A prime below 2^64. The remainder of 2^64 by it is not small, so that names with few differences have different keys.
const PRIME: u64 = 11_400_714_819_323_198_549;

// An odd number.
const FACTOR: u64 = 6_364_136_223_846_793_005;

/// Returns the key of words and one word more, where `key` is the key of those before it. The key of none is 0. Equal
/// words have equal keys; different ones may have equal keys too.
#[inline(always)]
pub fn next_key(key: u64, word: u64) -> u64
    ensures { result ≡ key_then key word }
{
    let number = (u128::from(key) << 64) | u128::from(word);
    (number % u128::from(PRIME)) as u64
}

/// Returns the key of bytes and one byte more, where `key` is the key of those before it. The key of none is 0. Equal
/// bytes have equal keys; different ones may have equal keys too.
#[inline(always)]
pub fn next_byte_key(key: u64, byte: u8) -> u64
    ensures { result ≡ byte_key_then key byte }
{
    key.wrapping_mul(FACTOR).wrapping_add(u64::from(byte))
}
