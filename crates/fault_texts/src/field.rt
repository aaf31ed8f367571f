//! What may be in a field of a script.

ghost use Rattle.std.specs.Prelude.{◌≡◌};
ghost use Rattle.fault_texts.specs.Field.{is_kind, is_word, may_stand};

use persist_report_core::{long_number, signed_number, unsigned_number};
use std::fmt;

/// What may be in a field of a script.
#[derive(Clone, Copy, PartialEq, Eq)]
pub enum Wanted {
    /// The word with which a record begins.
    Word,
    /// A kind of histogram.
    Kind,
    /// A number below 2^32.
    Unsigned,
    /// A number below 2^64.
    Long,
    /// A number from -2^31 to 2^31 - 1.
    Signed,
}

// Whether it is a word with which a record begins.
fn is_word(field: &[u8]) -> bool
    ensures { result ≡ is_word field.now }
{
    field == b"segment".as_slice()
        || field == b"hist".as_slice()
        || field == b"add".as_slice()
        || field == b"delta".as_slice()
}

// Whether it is a kind of histogram.
fn is_kind(field: &[u8]) -> bool
    ensures { result ≡ is_kind field.now }
{
    field == b"boolean".as_slice()
        || field == b"linear".as_slice()
        || field == b"custom".as_slice()
        || field == b"sparse".as_slice()
}

impl Wanted {
    /// Returns whether a field is allowed there.
    pub fn allows(self, field: &[u8]) -> bool
        ensures { result ≡ may_stand self field.now }
    {
        match self {
            Wanted::Word => is_word(field),
            Wanted::Kind => is_kind(field),
            Wanted::Unsigned => unsigned_number(field).is_some(),
            Wanted::Long => long_number(field).is_some(),
            Wanted::Signed => signed_number(field).is_some(),
        }
    }
}

impl fmt::Display for Wanted {
    fn fmt<W: fmt::Write>(&self, f: &mut fmt::Formatter<W>) -> fmt::Result {
        f.write_str(match self {
            Wanted::Word => "records begin with segment, hist, add, delta",
            Wanted::Kind => "kinds are boolean, linear, custom, sparse",
            Wanted::Unsigned => "it has to be a number from 0 to 4294967295",
            Wanted::Long => "it has to be a number from 0 to 18446744073709551615",
            Wanted::Signed => "it has to be a number from -2147483648 to 2147483647",
        })
    }
}
