//! Shares, percents and means, in whole numbers.

ghost use Rattle.std.specs.Prelude.{◌≡◌, ◌<◌, ◌+◌, ◌*◌, ◌^◌, ◌++◌, codes, IfSome, OnOk};
ghost use Rattle.reading_overviews.specs.Numbers.{sign};
ghost use Rattle.reading_shows.specs.Columns.{at_right};
ghost use Rattle.reading_shows.specs.Shares.{share_of, tenths as tenths_of, digits_of_mean, with_point, size_of_mean, mean_of_some, mean, percent};

use crate::columns::{put_at_right, put_bytes};
use itoa::Buffer;
use reading_overviews::{put_digits, put_sign};
use reading_texts::put_parts;
use std::alloc::AllocError;

// A part times `shares`, and `added`, if that fits in a word.
fn small_sum(part: u64, shares: u32, added: u64) -> Option<u64>
    ensures { IfSome result (λ sum. sum ≡ part * shares + added) }
{
    part.checked_mul(u64::from(shares))?.checked_add(added)
}

// How many of `shares` equal shares of a whole a part is; `added` says how it is rounded. 0 if the whole is 0.
pub(crate) fn share(part: u64, whole: u64, shares: u32, added: u64) -> u128
    ensures { result ≡ share_of part whole shares added }
{
    if whole == 0 {
        return 0;
    }
    match small_sum(part, shares, added) {
        Some(sum) => u128::from(sum / whole),
        None => (u128::from(part) * u128::from(shares) + u128::from(added)) / u128::from(whole),
    }
}

// Appends a column to a text, with a number of tenths of a percent at its right end.
fn put_tenths(text: &mut Vec<u8>, width: usize, tenths: u128) -> Result<(), AllocError>
    ensures { OnOk result (text.new.items ≡ text.old.items ++ at_right width (tenths_of tenths ++ codes "%")) }
{
    let mut before = Buffer::new();
    let mut behind = Buffer::new();
    let before = before.format(tenths / 10).as_bytes();
    let behind = behind.format(tenths % 10).as_bytes();
    let len = before.len() + behind.len() + 2;
    put_bytes(text, width.saturating_sub(len), b' ')?;
    put_parts(text, &[before, b".", behind, b"%"])
}

// Appends a column to a text, with a part in percent at its right end, to the nearest tenth. `tiny` is how the text
// writes that a part is below 0.1%.
pub(crate) fn put_percent(
    text: &mut Vec<u8>,
    tiny: &[u8],
    width: usize,
    part: u64,
    whole: u64,
) -> Result<(), AllocError>
    ensures { OnOk result (text.new.items ≡ text.old.items ++ at_right width (percent tiny.now part whole)) }
{
    let tenths = share(part, whole, 1000, whole / 2);
    if part > 0 && tenths == 0 {
        put_at_right(text, width, tiny)
    } else if part < whole && tenths == 1000 {
        put_at_right(text, width, b">99.9%")
    } else {
        put_tenths(text, width, tenths)
    }
}

// A size with a point before its last digits: the number of these digits, ten to that power, and the size times it.
#[derive(Clone, Copy, PartialEq, Eq)]
struct Scaled {
    digits: usize,
    power: u128,
    size: u128,
}

// A size with as many digits after its point as its mean over `units` units has.
fn scale(size: u128, units: u64) -> Scaled
    requires { 0 < size }
    ensures digits { result.digits ≡ digits_of_mean size units }
    ensures power { result.power ≡ 10 ^ result.digits }
    ensures size { result.size ≡ size * 10 ^ result.digits }
{
    let wanted = 100 * u128::from(units);
    let mut power = 1;
    let mut scaled = size;
    for digits in 0..23 {
        if wanted <= scaled {
            return Scaled {
                digits,
                power,
                size: scaled,
            };
        }
        power *= 10;
        scaled *= 10;
    }
    Scaled {
        digits: 0,
        power: 1,
        size,
    }
}

// Puts the digits of `n`, the last `digits` of them after the point; `power` is ten to the power of `digits`.
fn put_with_point(
    text: &mut Vec<u8>,
    is_human: bool,
    digits: usize,
    power: u128,
    n: u128,
) -> Result<(), AllocError>
    requires { power ≡ 10 ^ digits }
    ensures { OnOk result (text.new.items ≡ text.old.items ++ with_point is_human digits n) }
{
    let mut before = Buffer::new();
    if digits == 0 {
        return put_digits(text, is_human, before.format(n).as_bytes());
    }
    let mut behind = Buffer::new();
    let behind = behind.format(n % power).as_bytes();
    put_parts(text, &[before.format(n / power).as_bytes(), b"."])?;
    put_bytes(text, digits.saturating_sub(behind.len()), b'0')?;
    text.extend_from_slice(behind)
}

// Puts the size of a sum over `units` units, with three significant digits.
fn put_size_of_mean(
    text: &mut Vec<u8>,
    is_human: bool,
    size: u128,
    units: u64,
) -> Result<(), AllocError>
    requires { 0 < units }
    ensures { OnOk result (text.new.items ≡ text.old.items ++ size_of_mean is_human size units) }
{
    if size == 0 {
        return text.extend_from_slice(b"0");
    }
    let mean = scale(size, units);
    put_with_point(
        text,
        is_human,
        mean.digits,
        mean.power,
        mean.size / u128::from(units),
    )
}

// Puts the mean of `units` units with a sum.
fn put_mean_of_some(
    text: &mut Vec<u8>,
    is_human: bool,
    sum: i128,
    units: u64,
) -> Result<(), AllocError>
    requires { 0 < units }
    ensures { OnOk result (text.new.items ≡ text.old.items ++ mean_of_some is_human sum units) }
{
    put_sign(text, sum)?;
    put_size_of_mean(text, is_human, sum.unsigned_abs(), units)?;
    Ok(())
}

// Puts the mean of `units` units with a sum; the word none if there are no units.
pub(crate) fn put_mean(
    text: &mut Vec<u8>,
    is_human: bool,
    sum: i128,
    units: u64,
) -> Result<(), AllocError>
    ensures { OnOk result (text.new.items ≡ text.old.items ++ mean is_human sum units) }
{
    if units == 0 {
        return text.extend_from_slice(b"none");
    }
    put_mean_of_some(text, is_human, sum, units)
}
