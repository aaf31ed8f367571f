//! A reader whose first bytes were looked at.

use std::alloc::{AllocError, Global};
use std::collections::VecDeque;
use std::io;
use std::io::Read;
use sum_commands::{FRONT, InputKind, kind_of};

/// A reader whose first bytes were looked at. It gives all of them again, and then what came after them, such as the
/// end or a failure.
#[derive(Drop)]
pub struct Peeked<T> {
    front: VecDeque<u8>,
    ended: Option<io::Result<()>>,
    inner: T,
}

impl<T> Peeked<T> {
    /// Returns a reader whose first bytes were not looked at.
    pub fn unread(alloc: Global, inner: T) -> Peeked<T> {
        Peeked {
            front: VecDeque::new(alloc),
            ended: None,
            inner,
        }
    }
}

impl<T: Read + Drop> Peeked<T> {
    /// Reads the first bytes of a reader, and returns what begins with them.
    pub fn of(alloc: Global, mut inner: T) -> Result<(InputKind, Peeked<T>), AllocError> {
        let mut bytes = [0; FRONT];
        let mut count = 0;
        let mut ended = None;
        for _ in 0..FRONT {
            let Some(rest) = bytes.get_mut(count..) else {
                break
            };
            if rest.is_empty() {
                break;
            }
            match inner.read(rest) {
                Ok(0) => {
                    ended = Some(Ok(()));
                    break;
                }
                Ok(more) => count = count.saturating_add(more),
                Err(error) => {
                    ended = Some(Err(error));
                    break;
                }
            }
        }
        let front = bytes.get(..count).unwrap_or_default();
        let kind = kind_of(front);
        let front = VecDeque::from(Vec::from_slice(alloc, front)?);
        Ok((
            kind,
            Peeked {
                front,
                ended,
                inner,
            },
        ))
    }
}

impl<T: Read> Read for Peeked<T> {
    fn read(&mut self, buf: &mut [u8]) -> io::Result<usize> {
        if !self.front.is_empty() {
            return self.front.read(buf);
        }
        match self.ended.take() {
            Some(Ok(())) => Ok(0),
            Some(Err(error)) => Err(error),
            None => self.inner.read(buf),
        }
    }
}
