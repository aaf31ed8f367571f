//! A reader or a writer that remembers whether it failed, and whether it is flushed.

ghost use Rattle.std.specs.Prelude.{◌≡◌, ◌||◌, true, false, is_err, is_ok, OnOk};
ghost use Rattle.std.specs.Io.{ReadsAtMost, WritesAtMost};
ghost use Rattle.std.specs.Io.KnownBytes.{Appends, Consumes, Keeps, ReadConsumes, WriteAppends};

use std::io;
use std::io::{Read, Write};

/// Passes reads and writes on, and remembers whether one of them failed, and whether a flush succeeded after the last
/// write.
#[derive(Drop)]
pub struct Watched<T> {
    inner: T,
    failed: bool,
    flushed: bool,
}

impl<T> Watched<T> {
    ghost use Rattle.segment_image.specs.Watched.{has_failed, is_flushed, watched_inner};

    /// Watches this reader or writer from here on [inner]. It has not failed yet [failed], and is not flushed
    /// [flushed].
    pub fn new(inner: T) -> Watched<T>
        ensures inner { watched_inner result ≡ inner }
        ensures failed { has_failed result ≡ false }
        ensures flushed { is_flushed result ≡ false }
    {
        Watched {
            inner,
            failed: false,
            flushed: false,
        }
    }

    /// Returns whether a read, a write or a flush that was passed on has failed.
    pub fn failed(&self) -> bool
        ensures { result ≡ has_failed self.now }
    {
        self.failed
    }

    /// Returns whether the last write or flush that was passed on was a flush, and succeeded. Reads make no
    /// difference.
    pub fn flushed(&self) -> bool
        ensures { result ≡ is_flushed self.now }
    {
        self.flushed
    }

    // Remembers whether a call failed, and passes its outcome on.
    fn watch<X>(&mut self, outcome: io::Result<X>) -> io::Result<X>
        ensures outcome { result ≡ outcome }
        ensures inner { watched_inner self.new ≡ watched_inner self.old }
        ensures failed { has_failed self.new ≡ (has_failed self.old || is_err outcome) }
        ensures flushed { is_flushed self.new ≡ is_flushed self.old }
    {
        if outcome.is_err() {
            self.failed = true;
        }
        outcome
    }

    /// Returns the reader or the writer itself.
    pub fn into_inner(self) -> T
        ensures { result ≡ watched_inner self }
    {
        self.inner
    }
}

impl<R: Read> Read for Watched<R> {
    ghost use Rattle.segment_image.specs.Watched.{has_failed, is_flushed, watched_inner};

    ghost remaining = { λ watched. R.remaining (watched_inner watched) };

    /// Reads into an array as the reader does: at most as many bytes as it has room for [bound], which are the next
    /// that the reader had left [bytes]. It has failed from then on if the read failed [failed]. Whether it is
    /// flushed does not change [flushed].
    fn read(&mut self, buf: &mut [u8]) -> io::Result<usize>
        ensures bound { ReadsAtMost result buf.new }
        ensures bytes { ReadConsumes (R.remaining (watched_inner self.old)) (R.remaining (watched_inner self.new)) result buf.new }
        ensures failed { has_failed self.new ≡ (has_failed self.old || is_err result) }
        ensures flushed { is_flushed self.new ≡ is_flushed self.old }
    {
        let read = self.inner.read(buf);
        self.watch(read)
    }

    /// Fills an array as the reader does. On `Ok` the bytes are the next that the reader had left [bytes]. It has
    /// failed from then on if the read failed [failed]. Whether it is flushed does not change [flushed].
    fn read_exact(&mut self, buf: &mut [u8]) -> io::Result<()>
        ensures bytes { OnOk result (Consumes (R.remaining (watched_inner self.old)) (R.remaining (watched_inner self.new)) buf.new) }
        ensures failed { has_failed self.new ≡ (has_failed self.old || is_err result) }
        ensures flushed { is_flushed self.new ≡ is_flushed self.old }
    {
        let filled = self.inner.read_exact(buf);
        self.watch(filled)
    }
}

impl<W: Write> Write for Watched<W> {
    ghost use Rattle.segment_image.specs.Watched.{has_failed, is_flushed, watched_inner};

    ghost contents = { λ watched. W.contents (watched_inner watched) };

    /// Writes as the writer does: at most the bytes that are given [bound], and what the writer holds grew by those
    /// that it took [bytes]. It has failed from then on if the write failed [failed], and it is not flushed
    /// [flushed].
    fn write(&mut self, buf: &[u8]) -> io::Result<usize>
        ensures bound { WritesAtMost result buf.now }
        ensures bytes { WriteAppends (W.contents (watched_inner self.old)) (W.contents (watched_inner self.new)) result buf.now }
        ensures failed { has_failed self.new ≡ (has_failed self.old || is_err result) }
        ensures flushed { is_flushed self.new ≡ false }
    {
        self.flushed = false;
        let written = self.inner.write(buf);
        self.watch(written)
    }

    /// Flushes the writer; what it holds does not change [bytes]. It has failed from then on if the flush failed
    /// [failed], and it is flushed exactly if the flush succeeded [flushed].
    fn flush(&mut self) -> io::Result<()>
        ensures bytes { Keeps (W.contents (watched_inner self.old)) (W.contents (watched_inner self.new)) }
        ensures failed { has_failed self.new ≡ (has_failed self.old || is_err result) }
        ensures flushed { is_flushed self.new ≡ is_ok result }
    {
        let flushed = self.inner.flush();
        self.flushed = flushed.is_ok();
        self.watch(flushed)
    }

    /// Writes all bytes as the writer does: on `Ok` what it holds grew by exactly these [bytes]. It has failed from
    /// then on if the write failed [failed], and it is not flushed [flushed].
    fn write_all(&mut self, buf: &[u8]) -> io::Result<()>
        ensures bytes { OnOk result (Appends (W.contents (watched_inner self.old)) (W.contents (watched_inner self.new)) buf.now) }
        ensures failed { has_failed self.new ≡ (has_failed self.old || is_err result) }
        ensures flushed { is_flushed self.new ≡ false }
    {
        self.flushed = false;
        let sent = self.inner.write_all(buf);
        self.watch(sent)
    }
}
