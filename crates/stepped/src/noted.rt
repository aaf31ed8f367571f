//! A reader or a writer that notes why it failed, and what was read if this is asked for.

ghost use Rattle.std.specs.Prelude.{◌≡◌};

use std::cell::Cell;
use std::io;
use std::io::{Read, Write};

/// Passes reads and writes on. The last failure is put into the cell that it refers to, and the bytes that were read
/// into the copy, if there is one.
#[derive(Drop)]
pub struct Noted<'n, T> {
    pub inner: T,
    pub reason: &'n Cell<Option<io::Error>>,
    // None also if there was no memory for the copy.
    pub copy: Option<Vec<u8>>,
}

impl<T> Noted<'_, T> {
    // Puts bytes after those that were read.
    fn put(&mut self, bytes: &[u8]) {
        let kept = match &mut self.copy {
            Some(copy) => copy.extend_from_slice(bytes).is_ok(),
            None => true,
        };
        if !kept {
            self.copy = None;
        }
    }

    // Notes how a call ended, and passes it on.
    fn note<X>(&self, outcome: io::Result<X>) -> io::Result<X>
        ensures { result ≡ outcome }
    {
        if let Err(error) = &outcome {
            self.reason.set(Some(*error));
        }
        outcome
    }
}

impl<R: Read> Read for Noted<'_, R> {
    fn read(&mut self, buf: &mut [u8]) -> io::Result<usize> {
        let outcome = self.inner.read(buf);
        if let Ok(count) = outcome {
            self.put(buf.get(..count).unwrap_or_default());
        }
        self.note(outcome)
    }
}

impl<W: Write> Write for Noted<'_, W> {
    fn write(&mut self, buf: &[u8]) -> io::Result<usize> {
        let outcome = self.inner.write(buf);
        self.note(outcome)
    }

    fn flush(&mut self) -> io::Result<()> {
        let outcome = self.inner.flush();
        self.note(outcome)
    }
}
