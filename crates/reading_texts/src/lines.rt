//! Lines of comma-separated fields, in memory.

ghost use Rattle.std.specs.Prelude.{◌≡◌, ◌∷◌, ◌++◌, map, OnOk};
ghost use Rattle.reading_texts.specs.Text.{line};

use std::alloc::AllocError;

// Puts the line of a first field and others.
pub(crate) fn put_line(text: &mut Vec<u8>, first: &[u8], others: &[&[u8]]) -> Result<(), AllocError>
    ensures { OnOk result (text.new.items ≡ text.old.items ++ line (first.now ∷ map (λ field. field.now) others.now)) }
{
    text.extend_from_slice(first)?;
    for field in others {
        text.push(b',')?;
        text.extend_from_slice(field)?;
    }
    text.push(b'\n')?;
    Ok(())
}
