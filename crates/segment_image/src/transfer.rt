//! Bytes and words from a device.

ghost use Rattle.std.specs.Prelude.{◌≡◌, ◌≢◌, ◌↔◌, ◌+◌, ◌*◌, ◌-◌, ◌<◌, ◌≤◌, ◌%◌, ◌++◌, ◌||◌, true, false, length, take, is_err, IfSome, IfOk, IfErr, OnOk, OnErr, IsErrOf, MatchResult, vec_len};
ghost use Rattle.std.specs.Io.KnownBytes.{Appends, Consumes, IsAtEnd};
ghost use Rattle.byteorder.specs.Endian.{little_bytes, little_number};
ghost use Rattle.segment_image.specs.Words.{bytes_of_words, words_in};
ghost use Rattle.segment_image.specs.Watched.{has_failed, is_flushed, watched_inner};
ghost use Rattle.segment_image.specs.Transfer.{IsCausedBy, IsByteFault, TakesAtMost};

use crate::fault::{ReadFault, WriteFault};
use crate::watched::Watched;
use byteorder::{ByteOrder, LittleEndian};
use std::alloc::{AllocError, Global};
use std::io::{Read, Write};

const BLOCK_WORDS: usize = 1024;

const BLOCK_BYTES: usize = 8192;

/// Reads until a block is full or the reader is at its end, and returns how many bytes came: no more than the block
/// has room for [within], the next that the reader had left, at the front of the block [bytes]. If there are fewer,
/// the reader is at its end [end]. At most as many as the block has room for are taken from it [taken].
///
/// The reader has not failed before. The only fault is `Device` [device]; then the reader has failed [failed], and
/// otherwise it has not [went].
pub fn fill<R: Read>(reader: &mut Watched<R>, block: &mut [u8]) -> Result<usize, ReadFault>
    requires { has_failed reader.old ≡ false }
    ensures within { IfOk result (λ n. n ≤ length block.new) }
    ensures bytes { IfOk result (λ n. Consumes (R.remaining (watched_inner reader.old)) (R.remaining (watched_inner reader.new)) (take n block.new)) }
    ensures end { IfOk result (λ n. n < length block.new → IsAtEnd (R.remaining (watched_inner reader.new))) }
    ensures device { IfErr result (λ e. e ≡ ReadFault.Device) }
    ensures taken { TakesAtMost (length block.new) (R.remaining (watched_inner reader.old)) (R.remaining (watched_inner reader.new)) }
    ensures failed { OnErr result (has_failed reader.new ≡ true) }
    ensures went { OnOk result (has_failed reader.new ≡ false) }
{
    let mut filled = 0;
    while filled < block.len() {
        match reader.read(&mut block[filled..]) {
            Ok(0) => break,
            Ok(count) => filled += count,
            Err(_) => return Err(ReadFault::Device),
        }
    }
    Ok(filled)
}

/// Reads all bytes that a reader has left, at most `limit` of them.
///
/// The reader has not failed before. On `Ok` these are all bytes that it had left; `TooLong` comes only if there are
/// more than `limit` [answer]. On `Ok` there are at most `limit`, whatever the reader is [within], and the reader
/// is at its end [end]. `Device` comes exactly if a read failed in this call, whatever kind of failure it is
/// [device]. `NoMemory` comes if memory runs out for the bytes, and memory is asked for only as they come.
/// `NotWords` never comes [other]. At most `limit + 1` bytes are taken from the reader [taken].
pub fn read_bytes<R: Read>(
    alloc: Global,
    reader: &mut Watched<R>,
    limit: usize,
) -> Result<Vec<u8>, ReadFault>
    requires { has_failed reader.old ≡ false }
    ensures answer { IfSome (R.remaining (watched_inner reader.old)) (λ bytes. MatchResult result (λ read. read.items ≡ bytes) (IsByteFault limit bytes)) }
    ensures within { IfOk result (λ read. vec_len read ≤ limit) }
    ensures device { IsErrOf result ReadFault.Device ↔ (has_failed reader.new ≡ true) }
    ensures other { IfErr result (λ fault. fault ≢ ReadFault.NotWords) }
    ensures end { OnOk result (IsAtEnd (R.remaining (watched_inner reader.new))) }
    ensures taken { TakesAtMost (limit + 1) (R.remaining (watched_inner reader.old)) (R.remaining (watched_inner reader.new)) }
{
    let mut bytes = Vec::new(alloc);
    let mut block = [0u8; BLOCK_BYTES];
    loop {
        let room = limit - bytes.len();
        let wanted = if room < BLOCK_BYTES {
            room + 1
        } else {
            BLOCK_BYTES
        };
        let came = fill(reader, &mut block[..wanted])?;
        if came > room {
            return Err(ReadFault::TooLong);
        }
        bytes
            .extend_from_slice(&block[..came])
            .map_err(|_| ReadFault::NoMemory)?;
        if came < wanted {
            return Ok(bytes);
        }
    }
}

// The word whose eight bytes these are, the least first.
fn word(bytes: &[u8]) -> u64
    requires { length bytes.now ≡ 8 }
    ensures number { result ≡ little_number 8 bytes.now }
    ensures bytes { little_bytes 8 result ≡ bytes.now }
{
    LittleEndian::read_u64(bytes)
}

/// Appends the whole words of bytes, eight bytes for each, the least first [words]; up to seven bytes after them make
/// no word [len]. If there are no such bytes, the bytes of the words are what they were, followed by these [bytes].
/// There are never fewer words than before, even if memory runs out, which is the only error [longer].
pub fn push_words(words: &mut Vec<u64>, bytes: &[u8]) -> Result<(), AllocError>
    ensures words { OnOk result (words.new.items ≡ words.old.items ++ words_in bytes.now) }
    ensures bytes { length bytes.now % 8 ≡ 0 → OnOk result (bytes_of_words words.new.items ≡ bytes_of_words words.old.items ++ bytes.now) }
    ensures len { OnOk result (8 * length words.new.items + length bytes.now % 8 ≡ 8 * length words.old.items + length bytes.now) }
    ensures longer { length words.old.items ≤ length words.new.items }
{
    for chunk in bytes.chunks_exact(8) {
        words.push(word(chunk))?;
    }
    Ok(())
}

/// Reads all bytes that a reader has left, as words of eight bytes each, the least byte first, after the words that are
/// there: `limit` words at most, these included.
///
/// The reader has not failed before. On `Ok` the bytes of the words are those of the words that were there, followed by
/// all that the reader had left. `TooLong` comes only if there are more bytes than the words up to `limit` have;
/// `NotWords` only if there are no more and their number is no multiple of eight, which is known at their end
/// [answer]. On `Ok` there are at most `limit` words, whatever the reader is [within], and the reader is at its end
/// [end]. `Device` comes exactly if a read failed in this call, whatever kind of failure it is [device]. `NoMemory`
/// comes if memory runs out for the words, and memory is asked for only as bytes come. At most one byte more is taken
/// from the reader than the words up to `limit` have [taken].
pub fn read_more_words<R: Read>(
    words: &mut Vec<u64>,
    reader: &mut Watched<R>,
    limit: usize,
) -> Result<(), ReadFault>
    requires fewer { length words.old.items ≤ limit }
    requires went { has_failed reader.old ≡ false }
    ensures answer { IfSome (R.remaining (watched_inner reader.old)) (λ bytes. MatchResult result
        (λ _. bytes_of_words words.new.items ≡ bytes_of_words words.old.items ++ bytes) (IsCausedBy (limit - length words.old.items) bytes)) }
    ensures within { OnOk result (length words.new.items ≤ limit) }
    ensures device { IsErrOf result ReadFault.Device ↔ (has_failed reader.new ≡ true) }
    ensures end { OnOk result (IsAtEnd (R.remaining (watched_inner reader.new))) }
    ensures taken { TakesAtMost (8 * (limit - length words.old.items) + 1) (R.remaining (watched_inner reader.old)) (R.remaining (watched_inner reader.new)) }
{
    let mut block = [0u8; BLOCK_BYTES];
    loop {
        let room = limit - words.len();
        let wanted = if room < BLOCK_WORDS {
            8 * room + 1
        } else {
            BLOCK_BYTES
        };
        let filled = fill(reader, &mut block[..wanted])?;
        if filled.div_ceil(8) > room {
            return Err(ReadFault::TooLong);
        }
        if filled % 8 != 0 {
            return Err(ReadFault::NotWords);
        }
        push_words(words, &block[..filled]).map_err(|_| ReadFault::NoMemory)?;
        if filled < wanted {
            return Ok(());
        }
    }
}

/// Reads all bytes that a reader has left, as at most `limit` words of eight bytes each, the least byte first.
///
/// The reader has not failed before. On `Ok` the words' bytes are all that it had left. `TooLong` comes only if there
/// are more than `8 * limit` bytes; `NotWords` only if there are no more and their number is no multiple of eight,
/// which is known at their end [answer]. On `Ok` there are at most `limit` words, whatever the reader is [within],
/// and the reader is at its end [end]. `Device` comes exactly if a read failed in this call, whatever kind of failure
/// it is [device]. `NoMemory` comes if memory runs out for the words, and memory is asked for only as bytes come. At
/// most `8 * limit + 1` bytes are taken from the reader [taken].
pub fn read_words<R: Read>(
    alloc: Global,
    reader: &mut Watched<R>,
    limit: usize,
) -> Result<Vec<u64>, ReadFault>
    requires { has_failed reader.old ≡ false }
    ensures answer { IfSome (R.remaining (watched_inner reader.old)) (λ bytes. MatchResult result
        (λ words. (bytes_of_words words.items ≡ bytes) × (vec_len words ≤ limit)) (IsCausedBy limit bytes)) }
    ensures within { IfOk result (λ words. vec_len words ≤ limit) }
    ensures device { IsErrOf result ReadFault.Device ↔ (has_failed reader.new ≡ true) }
    ensures end { OnOk result (IsAtEnd (R.remaining (watched_inner reader.new))) }
    ensures taken { TakesAtMost (8 * limit + 1) (R.remaining (watched_inner reader.old)) (R.remaining (watched_inner reader.new)) }
{
    let mut words = Vec::new(alloc);
    read_more_words(&mut words, reader, limit)?;
    Ok(words)
}

/// Writes words, eight bytes for each, the least byte first. It takes no memory, and does not flush.
///
/// On `Ok` what the writer holds grew by exactly these bytes [bytes]. `Device` comes if a write failed in this call,
/// whatever kind of failure it is. Then the writer has failed, and otherwise it has failed only if it had before
/// [failed]. If there was a word to write it is not flushed [flushed].
pub fn write_words<W: Write>(writer: &mut Watched<W>, words: &[u64]) -> Result<(), WriteFault>
    ensures bytes { OnOk result (Appends (W.contents (watched_inner writer.old)) (W.contents (watched_inner writer.new)) (bytes_of_words words.now)) }
    ensures failed { has_failed writer.new ≡ (has_failed writer.old || is_err result) }
    ensures flushed { 0 < length words.now → is_flushed writer.new ≡ false }
{
    let mut block = [0u8; BLOCK_BYTES];
    for chunk in words.chunks(BLOCK_WORDS) {
        let bytes = &mut block[..8 * chunk.len()];
        LittleEndian::write_u64_into(chunk, bytes);
        writer.write_all(bytes).map_err(|_| WriteFault::Device)?;
    }
    Ok(())
}
