//! Texts in columns.

ghost use Rattle.std.specs.Prelude.{◌≡◌, [], ◌∷◌, ◌++◌, OnOk};
ghost use Rattle.reading_shows.specs.Columns.{times, at_left, at_right};

use std::alloc::AllocError;

// Appends a piece to a text `count` times.
pub(crate) fn put_times(text: &mut Vec<u8>, count: usize, piece: &[u8]) -> Result<(), AllocError>
    ensures { OnOk result (text.new.items ≡ text.old.items ++ times count piece.now) }
{
    for _i in 0..count {
        text.extend_from_slice(piece)?;
    }
    Ok(())
}

// Appends a byte to a text `count` times.
pub(crate) fn put_bytes(text: &mut Vec<u8>, count: usize, byte: u8) -> Result<(), AllocError>
    ensures { OnOk result (text.new.items ≡ text.old.items ++ times count (byte ∷ [])) }
{
    let Some(len) = text.len().checked_add(count) else {
        return Err(AllocError);
    };
    text.resize(len, byte)?;
    Ok(())
}

// Appends a column to a text, with a piece at its left end.
pub(crate) fn put_at_left(text: &mut Vec<u8>, width: usize, piece: &[u8]) -> Result<(), AllocError>
    ensures { OnOk result (text.new.items ≡ text.old.items ++ at_left width piece.now) }
{
    text.extend_from_slice(piece)?;
    put_bytes(text, width.saturating_sub(piece.len()), b' ')
}

// Appends a column to a text, with a piece at its right end.
pub(crate) fn put_at_right(text: &mut Vec<u8>, width: usize, piece: &[u8]) -> Result<(), AllocError>
    ensures { OnOk result (text.new.items ≡ text.old.items ++ at_right width piece.now) }
{
    put_bytes(text, width.saturating_sub(piece.len()), b' ')?;
    text.extend_from_slice(piece)?;
    Ok(())
}
