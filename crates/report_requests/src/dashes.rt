//! Where a command line may name `-`: it is standard input as an input, and standard output as OUT.

ghost use Rattle.std.specs.Prelude.{IfErr, IsOk, ◌↔◌};
ghost use Rattle.report_requests.specs.Dashes.{DashesFit, IsDashMistake};

use crate::task::Task;
use report_asks::{DASH, Wrong};

/// Refuses a task that names `-` where it must not: as two inputs, as a file that is read three times, or as OUT if it
/// also writes a report. It is `Ok` exactly if it names none there [fits]. The error says where it names one [mistake].
pub fn check_dashes(task: &Task<'_>) -> Result<(), Wrong>
    ensures fits { IsOk result ↔ DashesFit task.now }
    ensures mistake { IfErr result (IsDashMistake task.now) }
{
    match *task {
        Task::Run { out, .. } if out == DASH => Err(Wrong::TwoOutputs),
        Task::Resume { out, .. } if out == DASH => Err(Wrong::TwoOutputs),
        Task::Resume { base, script, .. } if base == DASH && script == DASH => {
            Err(Wrong::TwoInputs)
        }
        Task::Merge { base, dead, .. } if base == DASH && dead == DASH => Err(Wrong::TwoInputs),
        Task::Look { file, .. } if file == DASH => Err(Wrong::NoFile),
        _ => Ok(()),
    }
}
