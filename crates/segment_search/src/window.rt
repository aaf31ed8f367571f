//! The words from a place on among the bytes of a reader, as far as they were read.

use crate::fault::SearchFault;
use crate::reading::read_on;
use segment_image::layout::{COOKIE_WORD, MAX_SIZE, SEGMENT_COOKIE, SIZE_WORD};
use segment_image::{Image, Watched, header};
use std::alloc::Global;
use std::io::Read;
use std::marker::Model;

/// The words ahead: those from a place on, as far as they were read. A clause sees the list of them.
#[derive(Drop)]
pub struct Window {
    words: Vec<u64>,
    at: usize,
}

impl Model for Window {
    ghost use Rattle.std.specs.Prelude.{ℕ, ◌≤◌, List, drop, length};

    ghost Value = { List ℕ };

    ghost view = { λ window. drop window.at window.words.items };

    ghost invariant = { λ window. window.at ≤ length window.words.items };
}

impl Window {
    ghost use Rattle.std.specs.Prelude.{◌≡◌, ◌≤◌, ◌↔◌, ◌⊎◌, true, false, nat_le, is_ok, [], length, take, drop, IfOk, IfErr, OnOk, IfSome, IfNone, IsErrOf};
    ghost use Rattle.std.specs.Io.KnownBytes.{IsAtEnd, Keeps};
    ghost use Rattle.segment_image.specs.Head.{header_of};
    ghost use Rattle.segment_image.specs.Watched.{has_failed, watched_inner};
    ghost use Rattle.segment_search.specs.Places.{ahead, said_words};

    /// Returns a window at the first place, with no words yet.
    pub fn new(alloc: Global) -> Window
        ensures { result ≡ [] }
    {
        Window {
            words: Vec::new(alloc),
            at: 0,
        }
    }

    // The words ahead that were read.
    fn words(&self) -> &[u64]
        ensures { result.now ≡ self.now }
    {
        &self.words[self.at..]
    }

    /// Returns whether there are `count` words ahead [answer]. It reads what is missing: the words ahead, followed by
    /// what the reader has left, do not change [kept], there are no fewer words ahead than before [longer], and if
    /// there are fewer than `count`, the reader is at its end [end].
    ///
    /// The fault is `Device` exactly if a read failed in this call [device]; otherwise it is `NoMemory`: memory ran
    /// out for the words [other].
    pub fn has_words<R: Read>(
        &mut self,
        reader: &mut Watched<R>,
        count: usize,
    ) -> Result<bool, SearchFault>
        requires few { count ≤ MAX_SIZE }
        requires went { has_failed reader.old ≡ false }
        ensures kept { OnOk result (Keeps (ahead self.old (R.remaining (watched_inner reader.old))) (ahead self.new (R.remaining (watched_inner reader.new)))) }
        ensures longer { OnOk result (length self.old ≤ length self.new) }
        ensures answer { IfOk result (λ has. has ≡ nat_le count (length self.new)) }
        ensures end { IfOk result (λ has. has ≡ false → IsAtEnd (R.remaining (watched_inner reader.new))) }
        ensures device { IsErrOf result SearchFault.Device ↔ (has_failed reader.new ≡ true) }
        ensures other { IfErr result (λ fault. (fault ≡ SearchFault.Device) ⊎ (fault ≡ SearchFault.NoMemory)) }
    {
        if self.words.len() - self.at < count {
            self.words.drain(..self.at);
            self.at = 0;
            read_on(&mut self.words, reader, count)?;
        }
        Ok(self.words.len() - self.at >= count)
    }

    /// Returns how many words the segment has that begins here: that many are ahead, and have a valid header [size].
    /// None if no segment begins here: the words that it would have by its own size word have no valid header [none].
    /// The words ahead, followed by what the reader has left, do not change [kept], and there are still 16 words ahead
    /// [still].
    ///
    /// The fault is `Device` exactly if a read failed in this call [device]; otherwise it is `NoMemory`: memory ran
    /// out for its words [other].
    pub fn segment_size<R: Read>(
        &mut self,
        reader: &mut Watched<R>,
    ) -> Result<Option<usize>, SearchFault>
        requires header { 16 ≤ length self.old }
        requires went { has_failed reader.old ≡ false }
        ensures kept { OnOk result (Keeps (ahead self.old (R.remaining (watched_inner reader.old))) (ahead self.new (R.remaining (watched_inner reader.new)))) }
        ensures still { OnOk result (16 ≤ length self.new) }
        ensures size { IfOk result (λ size. IfSome size (λ n. (n ≤ length self.new) × (is_ok (header_of (take n self.new)) ≡ true))) }
        ensures none { IfOk result (λ size. IfNone size (IfSome (ahead self.old (R.remaining (watched_inner reader.old)))
            (λ words. is_ok (header_of (said_words words)) ≡ false))) }
        ensures device { IsErrOf result SearchFault.Device ↔ (has_failed reader.new ≡ true) }
        ensures other { IfErr result (λ fault. (fault ≡ SearchFault.Device) ⊎ (fault ≡ SearchFault.NoMemory)) }
    {
        let words = self.words();
        let size = words[SIZE_WORD];
        if words[COOKIE_WORD] != SEGMENT_COOKIE || size > MAX_SIZE {
            return Ok(None);
        }
        let size = size as usize;
        if !self.has_words(reader, size)? {
            return Ok(None);
        }
        match header(&self.words()[..size]) {
            Ok(_) => Ok(Some(size)),
            Err(_) => Ok(None),
        }
    }

    /// Moves past the word here.
    pub fn pass(&mut self)
        requires { 1 ≤ length self.old }
        ensures { self.new ≡ drop 1 self.old }
    {
        self.at += 1;
    }

    /// Returns the segment of `size` words that begins here.
    pub fn into_image(self, size: usize) -> Image
        requires { is_ok (header_of (take size self)) ≡ true }
        ensures { result ≡ take size self }
    {
        let mut words = self.words;
        words.drain(..self.at);
        words.truncate(size);
        Image::of(words)
    }
}
