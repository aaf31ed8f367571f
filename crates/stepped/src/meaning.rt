//! What a word of a segment means, by the header's layout and the blocks in the words.

ghost use Rattle.std.specs.Prelude.{◌≡◌, ◌<◌, ◌≤◌, length, true, IfSome, OnOk, option_map};
ghost use Rattle.std.specs.Io.KnownBytes.{Appends};
ghost use Rattle.segment_image.specs.Words.{word_at};
ghost use Rattle.stepped.specs.Meaning.{block_of, count_text, field_word as field_word_of, header_field as header_field_of, header_text, histogram_field as histogram_field_of, is_sought as is_sought_in, later_field as later_field_of, letter as letter_of, IsInside, meaning, name_text, owner_text, place_text, role_of as role_of_block, sample_field as sample_field_of};

use bucket_ranges::limits::MAX_NAME;
use segment_image::layout::{
    BLOCK_COOKIE, BLOCK_HEADER, BLOCK_NEXT, BLOCK_SIZE, BLOCK_TYPE, FLAGS_WORD, FREE_WORD,
    HEADER_WORDS, HISTOGRAM_BUCKETS, HISTOGRAM_COUNTS, HISTOGRAM_KIND, HISTOGRAM_MAX,
    HISTOGRAM_MIN, HISTOGRAM_NAME, HISTOGRAM_NAME_LENGTH, HISTOGRAM_REDUNDANT, HISTOGRAM_SINGLE,
    HISTOGRAM_SINGLE_MARK, HISTOGRAM_SUM, HISTOGRAM_SUM_MARK, QUEUE, SAMPLE_COUNT,
    SAMPLE_HISTOGRAM, SAMPLE_MARK, SAMPLE_VALUE, TAIL_WORD, TYPE_COUNTS, TYPE_HISTOGRAM,
    TYPE_SAMPLE,
};
use std::io;
use std::io::Write;

/// Which block is looked for.
#[derive(Clone, Copy)]
pub enum Sought {
    /// The one that has this word.
    Holding(usize),
    /// The histogram's record whose counts are this block.
    CountingIn(usize),
}

/// What a block is.
#[derive(Clone, Copy)]
pub enum Role {
    /// A histogram's record, with all that it has.
    Histogram,
    /// A sample's record, with all that it has, of the histogram at this reference.
    Sample(usize),
    /// The counts of the histogram at this reference.
    Counts(usize),
    /// One that is being made, or that nobody uses.
    Other,
}

/// Returns a word, or 0 after the last.
pub fn word(words: &[u64], at: usize) -> u64
    ensures { result ≡ word_at words.now at }
{
    if at < words.len() { words[at] } else { 0 }
}

// Whether the block there is looked for.
fn is_sought(words: &[u64], sought: Sought, block: usize) -> bool
    requires { block < length words.now }
    ensures { result ≡ is_sought_in words.now sought block }
{
    let size = words[block];
    match sought {
        Sought::Holding(at) => block <= at && ((at - block) as u64) < size,
        Sought::CountingIn(counts) => {
            0 < size
                && word(words, block + BLOCK_TYPE) == TYPE_HISTOGRAM
                && word(words, block + HISTOGRAM_COUNTS) == counts as u64
        }
    }
}

/// Returns the first block that is looked for [first], [sought], which begins within the words [inside].
pub fn find_block(words: &[u64], sought: Sought) -> Option<usize>
    ensures first { result ≡ block_of words.now sought }
    ensures inside { IfSome result (λ block. block < length words.now) }
    ensures sought { IfSome result (λ block. is_sought_in words.now sought block ≡ true) }
{
    let mut at = HEADER_WORDS;
    for _ in 0..words.len() {
        if at >= words.len() {
            return None;
        }
        if is_sought(words, sought, at) {
            return Some(at);
        }
        let size = words[at].max(1);
        if size >= (words.len() - at) as u64 {
            return None;
        }
        at += size as usize;
    }
    None
}

// What a block is.
fn role_of(words: &[u64], block: usize) -> Role
    requires { block < length words.now }
    ensures role { result ≡ role_of_block words.now block }
    ensures inside { IsInside words.now result }
{
    let tag = word(words, block + BLOCK_TYPE);
    if tag == TYPE_COUNTS {
        return match find_block(words, Sought::CountingIn(block)) {
            Some(histogram) => Role::Counts(histogram),
            None => Role::Other,
        };
    }
    if word(words, block + BLOCK_NEXT) == 0 {
        return Role::Other;
    }
    if tag == TYPE_HISTOGRAM {
        return Role::Histogram;
    }
    let histogram = word(words, block + SAMPLE_HISTOGRAM);
    if tag == TYPE_SAMPLE && histogram < words.len() as u64 {
        return Role::Sample(histogram as usize);
    }
    Role::Other
}

// A byte of the name in the record there.
fn letter(words: &[u64], block: usize, i: usize) -> u8
    requires inside { block < length words.now }
    requires few { i < 128 }
    ensures { result ≡ letter_of words.now block i }
{
    let bytes = word(words, block + (HISTOGRAM_NAME + i / 8)).to_le_bytes();
    bytes[i % 8]
}

// The name in the record there.
fn put_name<W: Write>(writer: &mut W, words: &[u64], block: usize) -> io::Result<()>
    requires { block < length words.now }
    ensures { OnOk result (Appends (W.contents writer.old) (W.contents writer.new) (name_text words.now block)) }
{
    let count = word(words, block + HISTOGRAM_NAME_LENGTH).min(MAX_NAME);
    for i in 0..count as usize {
        writer.write_all(&[letter(words, block, i)])?;
    }
    Ok(())
}

// What a block is called.
fn put_owner<W: Write>(writer: &mut W, words: &[u64], block: usize, role: Role) -> io::Result<()>
    requires inside { block < length words.now }
    requires within { IsInside words.now role }
    ensures { OnOk result (Appends (W.contents writer.old) (W.contents writer.new) (owner_text words.now block role)) }
{
    match role {
        Role::Histogram => put_name(writer, words, block),
        Role::Sample(histogram) => {
            let value = word(words, block + SAMPLE_VALUE).cast_signed();
            put_name(writer, words, histogram)?;
            write!(writer, ".sample({value})")
        }
        Role::Counts(histogram) => put_name(writer, words, histogram),
        Role::Other => write!(writer, "@{block}"),
    }
}

// The word for a place in a block's header or in a record of a type; of no other place.
fn field_word(tag: u64, place: usize) -> Option<&'static [u8]>
    ensures { option_map (λ word. word.now) result ≡ field_word_of tag place }
{
    if place < BLOCK_HEADER {
        Some(header_field(place))
    } else if tag == TYPE_HISTOGRAM {
        Some(histogram_field(place))
    } else if tag == TYPE_SAMPLE {
        sample_field(place)
    } else {
        None
    }
}

// The word for a place in a block's header.
fn header_field(place: usize) -> &'static [u8]
    ensures { result.now ≡ header_field_of place }
{
    if place == BLOCK_SIZE {
        b"size"
    } else if place == BLOCK_COOKIE {
        b"cookie"
    } else if place == BLOCK_TYPE {
        b"type"
    } else {
        b"next"
    }
}

// The word for a place in a histogram's record, after the block's header.
fn histogram_field(place: usize) -> &'static [u8]
    ensures { result.now ≡ histogram_field_of place }
{
    if place == HISTOGRAM_KIND {
        b"kind"
    } else if place == HISTOGRAM_MIN {
        b"min"
    } else if place == HISTOGRAM_MAX {
        b"max"
    } else if place == HISTOGRAM_BUCKETS {
        b"buckets"
    } else if place == HISTOGRAM_COUNTS {
        b"counts"
    } else if place == HISTOGRAM_SINGLE {
        b"single"
    } else {
        later_field(place)
    }
}

// The word for a place after the single word.
fn later_field(place: usize) -> &'static [u8]
    ensures { result.now ≡ later_field_of place }
{
    if place == HISTOGRAM_SINGLE_MARK {
        b"single_mark"
    } else if place == HISTOGRAM_SUM {
        b"sum"
    } else if place == HISTOGRAM_SUM_MARK {
        b"sum_mark"
    } else if place == HISTOGRAM_REDUNDANT {
        b"redundant"
    } else if place == HISTOGRAM_NAME_LENGTH {
        b"name_length"
    } else {
        b"name"
    }
}

// The word for a place in a sample's record, after the block's header.
fn sample_field(place: usize) -> Option<&'static [u8]>
    ensures { option_map (λ word. word.now) result ≡ sample_field_of place }
{
    if place == SAMPLE_HISTOGRAM {
        Some(b"histogram")
    } else if place == SAMPLE_VALUE {
        Some(b"value")
    } else if place == SAMPLE_COUNT {
        Some(b"count")
    } else if place == SAMPLE_MARK {
        Some(b"mark")
    } else {
        None
    }
}

// A place among the counts of a histogram, and their marks after them.
fn put_count<W: Write>(writer: &mut W, buckets: u64, place: u64) -> io::Result<()>
    ensures { OnOk result (Appends (W.contents writer.old) (W.contents writer.new) (count_text buckets place)) }
{
    if place < buckets {
        write!(writer, "count[{place}]")
    } else {
        write!(writer, "mark[{}]", place - buckets)
    }
}

// A place in a block.
fn put_place<W: Write>(
    writer: &mut W,
    words: &[u64],
    block: usize,
    role: Role,
    place: usize,
) -> io::Result<()>
    requires inside { block < length words.now }
    requires within { IsInside words.now role }
    ensures { OnOk result (Appends (W.contents writer.old) (W.contents writer.new) (place_text words.now block role place)) }
{
    match role {
        Role::Counts(histogram) if place >= BLOCK_HEADER => {
            let buckets = word(words, histogram + HISTOGRAM_BUCKETS);
            put_count(writer, buckets, (place - BLOCK_HEADER) as u64)
        }
        _ => match field_word(word(words, block + BLOCK_TYPE), place) {
            Some(field) => writer.write_all(field),
            None => write!(writer, "word[{place}]"),
        },
    }
}

// A word of the header.
fn put_header_word<W: Write>(writer: &mut W, at: usize) -> io::Result<()>
    ensures { OnOk result (Appends (W.contents writer.old) (W.contents writer.new) (header_text at)) }
{
    if at == FLAGS_WORD {
        writer.write_all(b"flags")
    } else if at == FREE_WORD {
        writer.write_all(b"free")
    } else if at == TAIL_WORD {
        writer.write_all(b"tail")
    } else if at == QUEUE as usize + BLOCK_NEXT {
        writer.write_all(b"queue.next")
    } else {
        write!(writer, "word[{at}]")
    }
}

/// Writes what a word means, as these words are: the first block that has it, by the sizes of all blocks before it;
/// what that block is; and of counts the first histogram's record that has their reference. The error is the
/// writer's.
pub fn put_meaning<W: Write>(writer: &mut W, words: &[u64], at: usize) -> io::Result<()>
    ensures { OnOk result (Appends (W.contents writer.old) (W.contents writer.new) (meaning words.now at)) }
{
    match find_block(words, Sought::Holding(at)) {
        Some(block) => {
            let role = role_of(words, block);
            put_owner(writer, words, block, role)?;
            writer.write_all(b".")?;
            put_place(writer, words, block, role, at - block)
        }
        None => put_header_word(writer, at),
    }
}
