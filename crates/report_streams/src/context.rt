//! What a command runs with.

ghost use Rattle.std.specs.Prelude.{◌≡◌, false};
ghost use Rattle.segment_image.specs.Watched.{has_failed};

use crate::noted::{Noted, Stream};
use fault_texts::Origin;
use std::alloc::Global;
use std::io;
use std::io::Printer;

/// What a command runs with.
#[derive(Drop)]
pub struct Context<'r, R> {
    /// The system.
    pub rt: &'r R,
    /// Whether faults are explained.
    pub explains: bool,
}

impl<R: AllocGlobal> Context<'_, R> {
    /// Returns the allocator.
    pub fn alloc(&self) -> Global {
        self.rt.alloc()
    }

    /// Returns an empty copy, into which a stream puts what is read, if faults are explained.
    pub fn copy(&self) -> Option<Vec<u8>> {
        if self.explains {
            Some(Vec::new(self.rt.alloc()))
        } else {
            None
        }
    }
}

impl<'r, R: Print> Context<'r, R> {
    /// Returns standard output, which has not failed.
    pub fn output(&self) -> Stream<'static, Printer<'r, R>>
        ensures { has_failed result ≡ false }
    {
        Noted::stream(io::writer(self.rt), Origin::Output, None)
    }
}
