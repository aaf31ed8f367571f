//! The scripts that commands take.

ghost use Rattle.std.specs.Prelude.{◌≡◌, ◌≢◌, ◌↔◌, ◌≤◌, false, true, length, Ok, Err, IfOk, IfErr, IfSome, IsErrOf};
ghost use Rattle.segment_image.specs.Watched.{has_failed, watched_inner};
ghost use Rattle.persist_report_core.specs.Script.{script_for, script_of, script_view};
ghost use Rattle.persist_commands.specs.Run.{IsFaultOfRun, IsFaultOfScript, fault_of_script};
ghost use Rattle.persist_commands.specs.Stop.{TellsWant};

use bucket_ranges::limits::MAX_UNITS;
use persist_report_core::{CliFault, Script, ScriptFault, read_script, read_script_for};
use segment_calls::Refusal;
use segment_image::{SegmentHead, Watched};
use std::alloc::Global;
use std::io::Read;

// What a command returns for a script that was read, or was not.
fn taken(read: Result<Script, ScriptFault>) -> Result<Script, CliFault>
    ensures script { IfOk result (λ script. read ≡ Ok script) }
    ensures fault { IfErr result (λ fault. (why : _) × (read ≡ Err why) × (fault ≡ fault_of_script why)) }
    ensures read { IsErrOf result CliFault.Read ↔ IsErrOf read ScriptFault.Read }
    ensures other { IfErr result (λ fault. fault ≢ CliFault.Write) }
    ensures tells { IfErr result TellsWant }
{
    match read {
        Ok(script) => Ok(script),
        Err(ScriptFault::Read) => Err(CliFault::Read),
        Err(ScriptFault::TooLong) => Err(CliFault::TooLong),
        Err(ScriptFault::NoMemory) => Err(CliFault::NoMemory),
        Err(ScriptFault::BadLine(number)) => Err(CliFault::BadLine(number)),
        Err(ScriptFault::ZeroCount(number)) => {
            let why = Refusal::ZeroCount;
            Err(CliFault::Refused { number, why })
        }
        Err(ScriptFault::NoUnits(number)) => {
            let why = Refusal::NoUnits;
            Err(CliFault::Refused { number, why })
        }
    }
}

/// The script that the reader has left, for a new segment, or its first fault.
pub(crate) fn take_script<S: Read>(
    alloc: Global,
    reader: &mut Watched<S>,
) -> Result<Script, CliFault>
    requires { has_failed reader.old ≡ false }
    ensures script { IfOk result (λ script. IfSome (S.remaining (watched_inner reader.old)) (λ bytes. (length bytes ≤ 16777216) × (script_of 4294967295 bytes ≡ Ok (script_view script)))) }
    ensures cause { IfErr result (λ fault. IfSome (S.remaining (watched_inner reader.old)) (λ bytes. IsFaultOfRun bytes fault)) }
    ensures read { IsErrOf result CliFault.Read ↔ (has_failed reader.new ≡ true) }
    ensures other { IfErr result (λ fault. fault ≢ CliFault.Write) }
    ensures tells { IfErr result TellsWant }
{
    taken(read_script(alloc, reader, MAX_UNITS))
}

/// The script that the reader has left, for the segment of a header with this number of units; or its first fault.
pub(crate) fn take_script_for<S: Read>(
    alloc: Global,
    reader: &mut Watched<S>,
    head: &SegmentHead,
    units: u32,
) -> Result<Script, CliFault>
    requires { has_failed reader.old ≡ false }
    ensures script { IfOk result (λ script. IfSome (S.remaining (watched_inner reader.old)) (λ bytes. (length bytes ≤ 16777216) × (script_for head.now.shape head.now.id units bytes ≡ Ok (script_view script)))) }
    ensures cause { IfErr result (λ fault. IfSome (S.remaining (watched_inner reader.old)) (λ bytes. IsFaultOfScript (script_for head.now.shape head.now.id units bytes) bytes fault)) }
    ensures read { IsErrOf result CliFault.Read ↔ (has_failed reader.new ≡ true) }
    ensures other { IfErr result (λ fault. fault ≢ CliFault.Write) }
    ensures tells { IfErr result TellsWant }
{
    taken(read_script_for(alloc, reader, head.shape, head.id, units as u64))
}
