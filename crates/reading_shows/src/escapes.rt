//! A name as text of a page.

ghost use Rattle.std.specs.Prelude.{◌≡◌, ◌++◌, true, IfOk, OnOk};
ghost use Rattle.std.specs.List.{list_all};
ghost use Rattle.reading_shows.specs.Escapes.{escaped_byte, escaped as escaped_of, is_inert};

use std::alloc::{AllocError, Global};

// Puts a byte of a name, escaped if it has to be.
pub(crate) fn put_byte(text: &mut Vec<u8>, byte: u8) -> Result<(), AllocError>
    ensures { OnOk result (text.new.items ≡ text.old.items ++ escaped_byte byte) }
{
    match byte {
        b'&' => text.extend_from_slice(b"&amp;")?,
        b'<' => text.extend_from_slice(b"&lt;")?,
        b'>' => text.extend_from_slice(b"&gt;")?,
        b'"' => text.extend_from_slice(b"&quot;")?,
        b'\'' => text.extend_from_slice(b"&#39;")?,
        32..=126 => text.push(byte)?,
        _ => text.extend_from_slice(&[239, 191, 189])?,
    }
    Ok(())
}

// A name as a page writes it, also one of a forged image: nothing in it opens or ends a tag or a value in quotes.
pub(crate) fn escaped(alloc: Global, name: &[u8]) -> Result<Vec<u8>, AllocError>
    ensures text { IfOk result (λ text. text.items ≡ escaped_of name.now) }
    ensures inert { IfOk result (λ text. list_all is_inert text.items ≡ true) }
{
    let mut text = Vec::new(alloc);
    for byte in name {
        put_byte(&mut text, *byte)?;
    }
    Ok(text)
}
