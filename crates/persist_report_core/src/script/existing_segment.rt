//! Scripts for an existing segment.

ghost use Rattle.std.specs.Prelude.{◌≡◌, ◌≤◌, ◌↔◌, true, false, length, option_map, Ok, IfOk, IfSome, OnOk, IsErrOf, MatchResult};
ghost use Rattle.std.specs.Io.KnownBytes.{IsAtEnd};
ghost use Rattle.segment_image.specs.Watched.{has_failed, watched_inner};
ghost use Rattle.persist_report_core.specs.Request.{request_in, request_view};
ghost use Rattle.persist_report_core.specs.Script.{IsFaultOfBytes, first_record, names_segment, script_for, script_view};

use crate::rows::next_fields;
use crate::script::reading::{bytes_of, script_in};
use crate::script::request::{ScriptRequest, read_request};
use crate::script::{Script, ScriptFault};
use csv::{ByteRecord, ReaderBuilder};
use segment_image::{Shape, Watched};
use std::alloc::{AllocError, Global};
use std::io::Read;

// Whether a record names the segment of this shape and id.
fn is_of_segment(request: Option<ScriptRequest<'_>>, shape: Shape, id: u64) -> bool
    ensures { result ≡ names_segment shape id (option_map request_view request.entry) }
{
    let Some(
        ScriptRequest::Segment {
            size,
            page,
            id: named,
        },
    ) = request
    else {
        return false;
    };
    u64::from(size) == shape.size() && u64::from(page) == shape.page() && named == id
}

// Whether the first record of bytes names the segment of this shape and id.
fn names(alloc: Global, bytes: &[u8], shape: Shape, id: u64) -> Result<bool, AllocError>
    ensures { IfOk result (λ named. named ≡ names_segment shape id (request_in (first_record bytes.now))) }
{
    let mut reader = ReaderBuilder::new()
        .has_headers(false)
        .flexible(true)
        .from_reader(alloc, bytes);
    let mut fields = ByteRecord::new(alloc);
    if !next_fields(&mut reader, &mut fields)? {
        return Ok(false);
    }
    Ok(is_of_segment(read_request(alloc, &fields)?, shape, id))
}

/// Reads the script that the reader has left, for the segment of this shape and id. Its `add` records may take as many
/// units as the pool has.
///
/// On `Ok` it is exactly the script of the bytes. The faults are those of [`read_script`](crate::read_script), but
/// `BadLine` of record 1 is also returned if that record names another segment [answer]. `Read` is returned exactly if
/// a read failed [read]. On `Ok` the reader is at its end [end].
pub fn read_script_for<R: Read>(
    alloc: Global,
    reader: &mut Watched<R>,
    shape: Shape,
    id: u64,
    pool: u64,
) -> Result<Script, ScriptFault>
    requires { has_failed reader.old ≡ false }
    ensures answer { IfSome (R.remaining (watched_inner reader.old)) (λ bytes. MatchResult result
        (λ script. (length bytes ≤ 16777216) × (script_for shape id pool bytes ≡ Ok (script_view script))) (IsFaultOfBytes (script_for shape id pool bytes) bytes)) }
    ensures read { IsErrOf result ScriptFault.Read ↔ (has_failed reader.new ≡ true) }
    ensures end { OnOk result (IsAtEnd (R.remaining (watched_inner reader.new))) }
{
    let bytes = bytes_of(alloc, reader)?;
    if !names(alloc, &bytes, shape, id)? {
        return Err(ScriptFault::BadLine(1));
    }
    script_in(alloc, &bytes, pool)
}
