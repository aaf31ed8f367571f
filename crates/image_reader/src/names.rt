//! The names of the histograms that are read.

ghost use Rattle.std.specs.Prelude.{◌≡◌, ◌||◌, ◌<◌, ℕ, List, true, false, not, length, IfOk, OnOk};
ghost use Rattle.std.specs.Str.{bytes_eq};
ghost use Rattle.bucket_ranges.specs.Reading.{is_name};
ghost use Rattle.image_reader.specs.Names.{prefix_of};

use byteorder::{BigEndian, ByteOrder};
use std::alloc::{AllocError, Global};
use std::collections::BTreeSet;

// The first eight bytes of a name as a number, or all bytes of a shorter name.
fn prefix(name: &[u8]) -> u64
    requires { 0 < length name.now }
    ensures { result ≡ prefix_of name.now }
{
    BigEndian::read_uint(name, name.len().min(8))
}

/// Names in an ordered set. A name is kept as a number made from its first eight bytes, and the bytes after them. No
/// byte of a name is 0, so the number determines these bytes, and a name of up to eight bytes needs no memory of its
/// own.
#[derive(Drop)]
pub(crate) struct Names {
    set: BTreeSet<(u64, Vec<u8>)>,
}

impl Names {
    ghost use Rattle.image_reader.specs.Names.{holds, AreKeys};

    /// No names.
    pub(crate) fn new(alloc: Global) -> Names
        ensures holds { (name : List ℕ) → holds result name ≡ false }
        ensures keys { AreKeys result }
    {
        Names {
            set: BTreeSet::new(alloc),
        }
    }

    /// Adds a name, and returns whether it is new.
    pub(crate) fn insert(&mut self, alloc: Global, name: &[u8]) -> Result<bool, AllocError>
        requires keys { AreKeys self.old }
        requires lawful { is_name name.now ≡ true }
        ensures new { IfOk result (λ new. new ≡ not (holds self.old name.now)) }
        ensures holds { OnOk result ((other : List ℕ) → holds self.new other ≡ (holds self.old other || bytes_eq other name.now)) }
        ensures keys { OnOk result (AreKeys self.new) }
    {
        let rest = Vec::from_slice(alloc, &name[name.len().min(8)..])?;
        Ok(self.set.insert((prefix(name), rest))?)
    }
}
