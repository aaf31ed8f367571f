//! Parts of a text, in order.

ghost use Rattle.std.specs.Prelude.{◌≡◌, ◌++◌, map, OnOk};
ghost use Rattle.reading_texts.specs.Exporting.{joined};

use std::alloc::AllocError;

/// Appends parts to a text, one after the other. The only error is that memory runs out.
pub fn put_parts(text: &mut Vec<u8>, parts: &[&[u8]]) -> Result<(), AllocError>
    ensures { OnOk result (text.new.items ≡ text.old.items ++ joined (map (λ part. part.now) parts.now)) }
{
    for part in parts {
        text.extend_from_slice(part)?;
    }
    Ok(())
}
