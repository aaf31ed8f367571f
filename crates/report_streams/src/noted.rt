//! A reader or a writer that keeps why it failed, where it leads, and, if this is asked for, what was read.

ghost use Rattle.std.specs.Prelude.{◌≡◌, false};
ghost use Rattle.segment_image.specs.Watched.{has_failed};

use fault_texts::{Origin, Source};
use segment_image::Watched;
use std::io;
use std::io::{Read, Write};

/// What a command reads or writes. The library sees whether it failed, the program also why and where.
pub type Stream<'a, T> = Watched<Noted<'a, T>>;

/// Passes reads and writes on. It keeps the last failure, and puts the bytes that were read into a copy if it has one.
#[derive(Drop)]
pub struct Noted<'a, T> {
    inner: T,
    origin: Origin<'a>,
    reason: Option<io::Error>,
    // None also if there was no memory for the copy.
    copy: Option<Vec<u8>>,
    is_used: bool,
}

impl<'a, T> Noted<'a, T> {
    /// Returns a stream that leads there and has not failed. What is read is put into the copy, if there is one.
    pub fn stream(inner: T, origin: Origin<'a>, copy: Option<Vec<u8>>) -> Stream<'a, T>
        ensures { has_failed result ≡ false }
    {
        Watched::new(Noted {
            inner,
            origin,
            reason: None,
            copy,
            is_used: false,
        })
    }

    /// Where it leads.
    pub fn origin(&self) -> Origin<'a> {
        self.origin
    }

    /// The last failure.
    pub fn reason(&self) -> Option<io::Error> {
        self.reason
    }

    /// Whether anything was asked of it.
    pub fn is_used(&self) -> bool {
        self.is_used
    }

    /// Where it leads, and the bytes that were read, if a copy was kept.
    pub fn source(&self) -> Source<'a, '_> {
        Source {
            origin: self.origin,
            bytes: self.copy.as_deref().unwrap_or_default(),
        }
    }

    /// The reader or the writer itself.
    pub fn into_inner(self) -> T {
        self.inner
    }

    // Puts bytes after those that were read.
    fn put(&mut self, bytes: &[u8]) {
        let kept = match &mut self.copy {
            Some(copy) => copy.extend_from_slice(bytes).is_ok(),
            None => true,
        };
        if !kept {
            self.copy = None;
        }
    }

    // Notes how a call ended, and passes it on.
    fn note<X>(&mut self, outcome: io::Result<X>) -> io::Result<X>
        ensures { result ≡ outcome }
    {
        if let Err(error) = &outcome {
            self.reason = Some(*error);
        }
        outcome
    }
}

impl<T: Drop> Noted<'_, T> {
    /// The bytes that were read, if a copy was kept.
    pub fn into_copy(self) -> Option<Vec<u8>> {
        self.copy
    }
}

impl<R: Read> Read for Noted<'_, R> {
    fn read(&mut self, buf: &mut [u8]) -> io::Result<usize> {
        self.is_used = true;
        let outcome = self.inner.read(buf);
        if let Ok(count) = outcome {
            self.put(buf.get(..count).unwrap_or_default());
        }
        self.note(outcome)
    }
}

impl<W: Write> Write for Noted<'_, W> {
    fn write(&mut self, buf: &[u8]) -> io::Result<usize> {
        self.is_used = true;
        let outcome = self.inner.write(buf);
        self.note(outcome)
    }

    fn flush(&mut self) -> io::Result<()> {
        self.is_used = true;
        let outcome = self.inner.flush();
        self.note(outcome)
    }

    fn write_all(&mut self, buf: &[u8]) -> io::Result<()> {
        self.is_used = true;
        let outcome = self.inner.write_all(buf);
        self.note(outcome)
    }
}
