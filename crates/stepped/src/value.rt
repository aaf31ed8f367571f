//! What the value of a word of a segment says, in words.

ghost use Rattle.std.specs.Prelude.{◌≡◌, [], ◌∷◌, ◌<◌, ◌≤◌, length, OnOk};
ghost use Rattle.std.specs.Io.KnownBytes.{Appends};
ghost use Rattle.bucket_ranges.specs.Single.{single_of};
ghost use Rattle.stepped.specs.Value.{block_content as block_content_of, content_of, frozen_text, hex_digit as hex_digit_of, histogram_content as histogram_content_of, is_plain as is_plain_byte, letter_text, letters_text, words_of_name, packed_text, quoted_text, single_text, text_as, units_text, value_text};

use crate::meaning::{Sought, find_block, word};
use bucket_ranges::SingleWord;
use bucket_ranges::limits::MAX_NAME;
use segment_image::layout::{
    BLOCK_TYPE, HISTOGRAM_BUCKETS, HISTOGRAM_NAME, HISTOGRAM_NAME_LENGTH, HISTOGRAM_SINGLE,
    HISTOGRAM_SUM, HISTOGRAM_SUM_MARK, NO_BUCKET, SAMPLE_VALUE, TYPE_HISTOGRAM, TYPE_SAMPLE,
    VERSION_WORD,
};
use std::io;
use std::io::Write;

/// What a word has.
#[derive(Clone, Copy)]
pub enum Content {
    /// A number.
    Number,
    /// A number with a sign, in two's complement.
    Signed,
    /// The single word of a histogram with this many buckets.
    Single(u64),
    /// Eight bytes of a name.
    Letters,
}

// What a word of a histogram's record has, by its numbers of buckets and of words of its name.
fn histogram_content(buckets: u64, letters: usize, place: usize) -> Content
    requires { letters ≤ 16 }
    ensures { result ≡ histogram_content_of buckets letters place }
{
    if place == HISTOGRAM_SINGLE {
        Content::Single(buckets)
    } else if place == HISTOGRAM_SUM || place == HISTOGRAM_SUM_MARK {
        Content::Signed
    } else if place >= HISTOGRAM_NAME && place < HISTOGRAM_NAME + letters {
        Content::Letters
    } else {
        Content::Number
    }
}

// How many words the name in a record has.
fn name_words(words: &[u64], block: usize) -> usize
    requires { block < length words.now }
    ensures words { result ≡ words_of_name words.now block }
    ensures few { result ≤ 16 }
{
    let count = word(words, block + HISTOGRAM_NAME_LENGTH).min(MAX_NAME);
    ((count + 7) / 8) as usize
}

// What a word of a block has.
fn block_content(words: &[u64], block: usize, place: usize) -> Content
    requires { block < length words.now }
    ensures { result ≡ block_content_of words.now block place }
{
    let tag = word(words, block + BLOCK_TYPE);
    if tag == TYPE_HISTOGRAM {
        let buckets = word(words, block + HISTOGRAM_BUCKETS);
        histogram_content(buckets, name_words(words, block), place)
    } else if tag == TYPE_SAMPLE && place == SAMPLE_VALUE {
        Content::Signed
    } else {
        Content::Number
    }
}

// What a word has.
fn content_at(words: &[u64], at: usize) -> Content
    ensures { result ≡ content_of words.now at }
{
    match find_block(words, Sought::Holding(at)) {
        Some(block) => block_content(words, block, at - block),
        None => Content::Number,
    }
}

/// Writes how many units there are. The error is the writer's.
pub fn put_units<W: Write>(writer: &mut W, units: u64) -> io::Result<()>
    ensures { OnOk result (Appends (W.contents writer.old) (W.contents writer.new) (units_text units)) }
{
    if units == 1 {
        write!(writer, "{units} unit")
    } else {
        write!(writer, "{units} units")
    }
}

// Units that are packed.
fn put_packed<W: Write>(writer: &mut W, bucket: usize, units: u64) -> io::Result<()>
    ensures { OnOk result (Appends (W.contents writer.old) (W.contents writer.new) (packed_text bucket units)) }
{
    write!(writer, "(bucket {bucket}, ")?;
    put_units(writer, units)?;
    writer.write_all(b")")
}

// Units that are packed and frozen.
fn put_frozen<W: Write>(writer: &mut W, bucket: usize, units: u64) -> io::Result<()>
    ensures { OnOk result (Appends (W.contents writer.old) (W.contents writer.new) (frozen_text bucket units)) }
{
    writer.write_all(b"frozen ")?;
    put_packed(writer, bucket, units)
}

// A single word by its form.
fn put_single<W: Write>(writer: &mut W, value: u64, single: Option<SingleWord>) -> io::Result<()>
    ensures { OnOk result (Appends (W.contents writer.old) (W.contents writer.new) (single_text value single)) }
{
    match single {
        None => write!(writer, "{value}"),
        Some(SingleWord::Empty) => writer.write_all(b"empty"),
        Some(SingleWord::Packed { bucket, units }) => put_packed(writer, bucket, units),
        Some(SingleWord::Disabled { packed: None }) => writer.write_all(b"disabled"),
        Some(
            SingleWord::Disabled {
                packed: Some(bucket),
            },
        ) => write!(writer, "disabled (bucket {bucket})"),
        Some(SingleWord::FrozenEmpty) => writer.write_all(b"frozen"),
        Some(SingleWord::Frozen { bucket, units }) => put_frozen(writer, bucket, units),
    }
}

// A digit of base 16.
fn hex_digit(digit: u8) -> u8
    requires { digit < 16 }
    ensures { result ≡ hex_digit_of digit }
{
    if digit < 10 {
        b'0' + digit
    } else {
        b'a' - 10 + digit
    }
}

// Whether a byte of a name is shown as itself.
fn is_plain(byte: u8) -> bool
    ensures { result ≡ is_plain_byte byte }
{
    byte >= b' ' && byte < 127 && byte != b'"' && byte != b'\\'
}

// A byte of a name.
fn put_letter<W: Write>(writer: &mut W, byte: u8) -> io::Result<()>
    ensures { OnOk result (Appends (W.contents writer.old) (W.contents writer.new) (letter_text byte)) }
{
    if byte == 0 {
        return Ok(());
    }
    if is_plain(byte) {
        return writer.write_all(&[byte]);
    }
    writer.write_all(b"\\x")?;
    writer.write_all(&[hex_digit(byte / 16), hex_digit(byte % 16)])
}

// Bytes of a name.
fn put_letters<W: Write>(writer: &mut W, bytes: &[u8]) -> io::Result<()>
    ensures { OnOk result (Appends (W.contents writer.old) (W.contents writer.new) (letters_text bytes.now)) }
{
    for byte in bytes {
        put_letter(writer, *byte)?;
    }
    Ok(())
}

// Bytes of a name in quotation marks.
fn put_quoted<W: Write>(writer: &mut W, bytes: &[u8]) -> io::Result<()>
    ensures { OnOk result (Appends (W.contents writer.old) (W.contents writer.new) (quoted_text bytes.now)) }
{
    writer.write_all(b"\"")?;
    put_letters(writer, bytes)?;
    writer.write_all(b"\"")
}

// A value of a word with this content, in a version of the format.
fn put_content<W: Write>(
    writer: &mut W,
    version: u64,
    content: Content,
    value: u64,
) -> io::Result<()>
    ensures { OnOk result (Appends (W.contents writer.old) (W.contents writer.new) (text_as version content value)) }
{
    match content {
        Content::Number => write!(writer, "{value}"),
        Content::Signed => write!(writer, "{}", value.cast_signed()),
        Content::Single(buckets) => {
            let buckets = buckets.min(NO_BUCKET) as usize;
            put_single(writer, value, SingleWord::of(version, value, buckets))
        }
        Content::Letters => put_quoted(writer, &value.to_le_bytes()),
    }
}

/// Writes what a value of a word says, as these words are. The single word of a histogram is written by its form, a sum
/// with its sign, a word of a name as text, and any other as a number. The error is the writer's.
pub fn put_value<W: Write>(writer: &mut W, words: &[u64], at: usize, value: u64) -> io::Result<()>
    ensures { OnOk result (Appends (W.contents writer.old) (W.contents writer.new) (value_text words.now at value)) }
{
    let version = word(words, VERSION_WORD);
    put_content(writer, version, content_at(words, at), value)
}
