//! The part of a file in which a segment is, such as the memory of a process.

use segment_image::layout::{MAX_SIZE, SEGMENT_COOKIE, SIZE_WORD};
use std::alloc::Global;
use std::collections::VecDeque;
use std::io;
use std::io::{Read, Seek, SeekFrom};

// The bytes that are read to see how long the segment is: those of a word of zeros, and of the first words of an image.
const FRONT: usize = 8 * (1 + SIZE_WORD + 1);

/// What a file has from some byte on: all bytes of the segment that begins there, by its header.
#[derive(Drop)]
pub struct Part<F> {
    front: VecDeque<u8>,
    file: F,
    left: u64,
}

// A word of bytes.
fn word_at(bytes: &[u8], place: usize) -> Option<u64> {
    let word = bytes.chunks_exact(8).nth(place)?;
    Some(u64::from_le_bytes(word.try_into().ok()?))
}

// The number of bytes of the segment that begins with these, if one does: as an image, or as a mapped file.
fn length_of(front: &[u8]) -> Option<u64> {
    let ahead = if word_at(front, 0)? == SEGMENT_COOKIE {
        0
    } else {
        1
    };
    let size = word_at(front, ahead + SIZE_WORD)?;
    if word_at(front, ahead)? != SEGMENT_COOKIE || size > MAX_SIZE {
        return None;
    }
    Some(8 * (ahead as u64 + size))
}

impl<F: Read + Seek + Drop> Part<F> {
    /// Goes to a byte of a file, and reads the first bytes there, which say how long the segment is. If none begins
    /// there, the part has these bytes alone.
    pub fn of(alloc: Global, mut file: F, at: u64) -> io::Result<Part<F>> {
        file.seek(SeekFrom::Start(at))?;
        let mut bytes = [0; FRONT];
        let mut count = 0;
        for _ in 0..FRONT {
            let Some(rest) = bytes.get_mut(count..) else {
                break
            };
            let more = file.read(rest)?;
            if more == 0 {
                break;
            }
            count = count.saturating_add(more);
        }
        let front = bytes.get(..count).unwrap_or_default();
        let left = length_of(front).map_or(0, |length| length.saturating_sub(count as u64));
        let front = VecDeque::from(Vec::from_slice(alloc, front)?);
        Ok(Part { front, file, left })
    }
}

impl<F: Read> Read for Part<F> {
    fn read(&mut self, buf: &mut [u8]) -> io::Result<usize> {
        if !self.front.is_empty() {
            return self.front.read(buf);
        }
        let most = buf
            .len()
            .min(usize::try_from(self.left).unwrap_or(usize::MAX));
        let Some(part) = buf.get_mut(..most) else {
            return Ok(0);
        };
        let count = self.file.read(part)?;
        self.left = self.left.saturating_sub(count as u64);
        Ok(count)
    }
}
