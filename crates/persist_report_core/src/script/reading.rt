//! From bytes to a script.

ghost use Rattle.std.specs.Prelude.{◌≡◌, ◌≢◌, ◌↔◌, ◌≤◌, ℕ, List, true, false, length, Ok, IfOk, IfErr, IfSome, OnOk, IsErrOf, MatchResult};
ghost use Rattle.std.specs.Io.KnownBytes.{IsAtEnd};
ghost use Rattle.segment_image.specs.Transfer.{TakesAtMost};
ghost use Rattle.segment_image.specs.Watched.{has_failed, watched_inner};
ghost use Rattle.persist_report_core.specs.Script.{IsFaultOfBytes, IsScriptFault, script_of, script_view};

use crate::rows::next_fields;
use crate::script::draft::open_draft;
use crate::script::request::read_request;
use crate::script::{Script, ScriptFault};
use csv::{ByteRecord, ReaderBuilder};
use segment_image::{ReadFault, Watched, read_bytes};
use std::alloc::Global;
use std::io::Read;

/// The most bytes that a script has, and a schedule: 16 MiB.
pub const MAX_SCRIPT_BYTES: usize = 16_777_216;

/// The script that the bytes are.
pub(crate) fn script_in(alloc: Global, bytes: &[u8], pool: u64) -> Result<Script, ScriptFault>
    requires { length bytes.now ≤ 16777216 }
    ensures answer { MatchResult result (λ script. script_of pool bytes.now ≡ Ok (script_view script)) (IsScriptFault pool bytes.now) }
    ensures other { IfErr result (λ fault. fault ≢ ScriptFault.Read) }
{
    let mut reader = ReaderBuilder::new()
        .has_headers(false)
        .flexible(true)
        .from_reader(alloc, bytes);
    let mut fields = ByteRecord::new(alloc);
    if !next_fields(&mut reader, &mut fields)? {
        return Err(ScriptFault::BadLine(1));
    }
    let mut draft = open_draft(alloc, read_request(alloc, &fields)?, pool)?;
    let mut number = 1;
    'records: while next_fields(&mut reader, &mut fields)? {
        number += 1;
        draft.put(alloc, number, read_request(alloc, &fields)?)?;
    }
    Ok(draft.script)
}

/// All bytes that the reader has left.
pub(crate) fn bytes_of<R: Read>(
    alloc: Global,
    reader: &mut Watched<R>,
) -> Result<Vec<u8>, ScriptFault>
    requires { has_failed reader.old ≡ false }
    ensures bytes { IfSome (R.remaining (watched_inner reader.old)) (λ bytes. MatchResult result (λ read. (read.items ≡ bytes) × (length bytes ≤ 16777216)) (λ fault. (meaning : _) → IsFaultOfBytes meaning bytes fault)) }
    ensures within { IfOk result (λ read. length read.items ≤ 16777216) }
    ensures read { IsErrOf result ScriptFault.Read ↔ (has_failed reader.new ≡ true) }
    ensures end { OnOk result (IsAtEnd (R.remaining (watched_inner reader.new))) }
    ensures taken { TakesAtMost 16777217 (R.remaining (watched_inner reader.old)) (R.remaining (watched_inner reader.new)) }
{
    match read_bytes(alloc, reader, MAX_SCRIPT_BYTES) {
        Ok(bytes) => Ok(bytes),
        Err(ReadFault::NoMemory) => Err(ScriptFault::NoMemory),
        Err(ReadFault::TooLong) => Err(ScriptFault::TooLong),
        Err(ReadFault::Device) => Err(ScriptFault::Read),
        Err(ReadFault::NotWords) => unreachable!(),
    }
}

/// Reads the script that the reader has left. Its `add` records may take as many units as the pool has. The reader has
/// not failed before, and is read whole before any record is looked at.
///
/// On `Ok` it is exactly the script of the bytes. `TooLong` is returned only if there are more than 16,777,216 bytes.
/// Otherwise the first record with a fault is reported by its number: `BadLine` if it is malformed or out of order, or
/// has a number out of range, an invalid shape or an unknown name; otherwise `ZeroCount` if an `add` record adds no
/// unit, and `NoUnits` if it passes the pool. A script without records is `BadLine` of record 1. `NoMemory` is returned
/// if memory runs out [answer]. Names and specs of `hist` records are taken as they are, valid or not.
///
/// `Read` is returned exactly if a read failed [read]. On `Ok` the reader is at its end [end], and at most one byte
/// more than 16,777,216 is taken from it [taken].
pub fn read_script<R: Read>(
    alloc: Global,
    reader: &mut Watched<R>,
    pool: u64,
) -> Result<Script, ScriptFault>
    requires { has_failed reader.old ≡ false }
    ensures answer { IfSome (R.remaining (watched_inner reader.old)) (λ bytes. MatchResult result
        (λ script. (length bytes ≤ 16777216) × (script_of pool bytes ≡ Ok (script_view script))) (IsScriptFault pool bytes)) }
    ensures read { IsErrOf result ScriptFault.Read ↔ (has_failed reader.new ≡ true) }
    ensures end { OnOk result (IsAtEnd (R.remaining (watched_inner reader.new))) }
    ensures taken { TakesAtMost 16777217 (R.remaining (watched_inner reader.old)) (R.remaining (watched_inner reader.new)) }
{
    let bytes = bytes_of(alloc, reader)?;
    script_in(alloc, &bytes, pool)
}
