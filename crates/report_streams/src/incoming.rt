//! What a command reads: a file, a part of one, or standard input.

use crate::part::Part;
use std::io;
use std::io::Read;

/// What a command reads.
#[derive(Drop)]
pub enum Incoming<F, I> {
    /// A file.
    File(F),
    /// A part of a file.
    Part(Part<F>),
    /// Standard input.
    Standard(I),
}

impl<F: Read, I: Read> Read for Incoming<F, I> {
    fn read(&mut self, buf: &mut [u8]) -> io::Result<usize> {
        match self {
            Incoming::File(file) => file.read(buf),
            Incoming::Part(part) => part.read(buf),
            Incoming::Standard(input) => input.read(buf),
        }
    }
}
