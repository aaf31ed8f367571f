//! What is asked of a text beside what it shows: labels that its lines may have, and when its output is opened.

ghost use Rattle.std.specs.Prelude.{◌≡◌, false, IfOk, IfSome};
ghost use Rattle.segment_image.specs.Watched.{has_failed};

use crate::texts::Out;
use reading_shows::{Exported, has_line_labels, has_prefix};
use report_asks::{DASH, Wrong};
use report_requests::Ask;
use report_sources::Opened;
use report_streams::{Context, Failure, System, open_out};
use std::alloc::Global;

/// Refuses an export of which a line could not have the prefix or the labels, with `Usage`.
pub fn check_exported(alloc: Global, exported: &Exported<'_>) -> Result<(), Failure> {
    if !has_prefix(exported) {
        return Err(Failure::Usage(Wrong::NoPrefix));
    }
    if !has_line_labels(alloc, exported)? {
        return Err(Failure::Usage(Wrong::NoLabels));
    }
    Ok(())
}

/// Opens the output of a text, if it is opened before anything is read: if one image is read, which is no look. On `Ok`
/// it has not failed.
pub fn open_before<'a, 'r, R: System, F, I>(
    context: &Context<'r, R>,
    ask: &Ask<'a>,
    opened: &Opened<'_, F, I>,
) -> Result<Option<Out<'a, 'r, R>>, Failure>
    ensures { IfOk result (λ out. IfSome out (λ writer. has_failed writer ≡ false)) }
{
    if !opened.is_one() {
        return Ok(None);
    }
    match open_out(context, ask.to.unwrap_or(DASH)) {
        Ok(writer) => Ok(Some(writer)),
        Err(failure) => Err(failure),
    }
}

/// Opens the output of a text, if it is not open yet: everything is read. On `Ok` it has not failed.
pub fn open_after<'a, 'r, R: System>(
    context: &Context<'r, R>,
    ask: &Ask<'a>,
    before: Option<Out<'a, 'r, R>>,
) -> Result<Out<'a, 'r, R>, Failure>
    requires { IfSome before (λ writer. has_failed writer ≡ false) }
    ensures { IfOk result (λ writer. has_failed writer ≡ false) }
{
    match before {
        Some(writer) => Ok(writer),
        None => open_out(context, ask.to.unwrap_or(DASH)),
    }
}

/// Leaves OUT unchanged, of a text that is not written.
pub fn give_up<R: System>(context: &Context<'_, R>, out: Option<Out<'_, '_, R>>) {
    if let Some(writer) = out {
        writer.into_inner().into_inner().discard(context.rt);
    }
}
