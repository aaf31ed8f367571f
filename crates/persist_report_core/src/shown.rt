//! Bytes of a file as text for a terminal.

use std::fmt;

// How many bytes of a field are shown.
const MOST_BYTES: usize = 64;

/// Bytes of a file: printable ASCII as it is, any other byte, backquotes and backslashes by their number. Of a long
/// field, the first 64 alone.
#[derive(Clone, Copy)]
pub struct Shown<'a>(pub &'a [u8]);

// Whether a byte is shown as it is.
fn is_plain(byte: u8) -> bool {
    (0x20..0x7f).contains(&byte) && byte != b'`' && byte != b'\\'
}

impl fmt::Display for Shown<'_> {
    fn fmt<W: fmt::Write>(&self, f: &mut fmt::Formatter<W>) -> fmt::Result {
        for byte in self.0.iter().take(MOST_BYTES) {
            if is_plain(*byte) {
                f.write_char(char::from(*byte))?;
            } else {
                write!(f, "\\x{byte:02x}")?;
            }
        }
        if self.0.len() > MOST_BYTES {
            f.write_str("...")?;
        }
        Ok(())
    }
}
