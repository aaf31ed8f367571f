//! Why the program did not do what it was asked to, and its exit status then.

ghost use Rattle.std.specs.Prelude.{◌≡◌, ◌<◌, ◌↔◌, true, IsNone, IfOk};
ghost use Rattle.report_streams.specs.Failure.{EndsRounds, IsReported, failure_status, fault_status, input_status};
ghost use Rattle.report_streams.specs.declared.failure.Failure.TheVariants.{Fault, Usage};
ghost use Rattle.persist_report_core.specs.declared.fault.CliFault.TheVariants.{NoMemory};

use crate::reported::Reported;
use crate::sentence::Sentence;
use bucket_ranges::SpecFault;
use fault_texts::Shown;
use persist_report_core::CliFault;
use report_asks::Wrong;
use std::alloc::{AllocError, Global};
use std::fmt;
use sum_commands::InputFault;

/// Why the program did not do what it was asked to. Its text is whole lines for the error stream.
#[derive(Drop)]
pub enum Failure {
    /// The command line has this mistake.
    Usage(Wrong),
    /// What it asks for failed.
    Fault(CliFault),
    /// It failed, and these lines follow the line of the fault.
    Explained(CliFault, String),
    /// Another process has the lock of the file that it writes, or folds kept ending while it read a folder. These
    /// lines follow, if there are any.
    Busy(String),
    /// The scale that it asks for has this fault. These lines follow, if there are any.
    Scale(SpecFault, String),
    /// An input of several has this fault. These lines follow, if there are any.
    Input {
        fault: InputFault,
        name: String,
        lines: String,
    },
    /// The sum that is to be subtracted has more of a name, or another spec of it. These lines follow, if there are
    /// any.
    Since {
        fault: &'static str,
        name: Vec<u8>,
        lines: String,
    },
    /// The difference of two sums does not fit. These lines follow, if there are any.
    TooMany(String),
    /// One of several images is not whole, and has to be. These lines follow, if there are any.
    NotWhole(String),
    /// Some inputs were left out, as was reported.
    Left,
    /// What failed was reported, and has this exit status.
    Reported(Reported),
}

impl Failure {
    /// Returns the exit status [status]: 2 for `Usage`, 4 for `Busy`, 3 for `Scale`, `Since`, `TooMany`, `NotWhole` and
    /// `Left`, else that of the fault, or the one that was kept. It is never 0 [failed].
    pub fn status(&self) -> u8
        ensures status { result ≡ failure_status self.now }
        ensures failed { 0 < result }
    {
        match self {
            Failure::Usage(_) => 2,
            Failure::Fault(fault) | Failure::Explained(fault, _) => fault_status(fault),
            Failure::Busy(_) => 4,
            Failure::Scale(_, _) => 3,
            Failure::Input { fault, .. } => input_status(fault),
            Failure::Since { .. } | Failure::TooMany(_) => 3,
            Failure::NotWhole(_) | Failure::Left => 3,
            Failure::Reported(reported) => reported.status,
        }
    }

    /// Returns whether it ends a command that writes its text again and again: a mistake in the command line, or a fault
    /// of what is written.
    pub fn ends_rounds(&self) -> bool
        ensures { (result ≡ true) ↔ EndsRounds self.now }
    {
        match self {
            Failure::Usage(_) => true,
            Failure::Fault(fault) | Failure::Explained(fault, _) => is_write(fault),
            _ => false,
        }
    }

    // Whether it was reported, so that nothing is said of it.
    fn is_reported(&self) -> bool
        ensures { (result ≡ true) ↔ IsReported self.now }
    {
        matches!(self, Failure::Left | Failure::Reported(_))
    }

    /// Returns the sentence for the error stream; none exactly if it was reported. The only error is that memory runs
    /// out.
    pub fn sentence(&self, alloc: Global) -> Result<Option<Sentence>, AllocError>
        ensures { IfOk result (λ sentence. IsNone sentence ↔ IsReported self.now) }
    {
        if self.is_reported() {
            return Ok(None);
        }
        let text: String = format!(in alloc; "{self}")?;
        let sentence = Sentence::of(alloc, text.as_str())?;
        Ok(Some(sentence))
    }
}

// Whether a fault is that of a write.
fn is_write(fault: &CliFault) -> bool
    ensures { (result ≡ true) ↔ (fault.now ≡ CliFault.Write) }
{
    *fault == CliFault::Write
}

// The exit status of a fault of an input: that of its image, or 3.
fn input_status(fault: &InputFault) -> u8
    ensures status { result ≡ input_status fault.now }
    ensures failed { 0 < result }
{
    match fault {
        InputFault::Image(fault) => fault_status(fault),
        InputFault::BadTotals(_) | InputFault::TooMany => 3,
    }
}

/// Returns the exit status of a fault: 3 if the bytes are no image or no script, what they ask for is refused, or what
/// they should have is not there; 4 if a device failed; 5 if a thread could not be started or memory ran out.
fn fault_status(fault: &CliFault) -> u8
    ensures status { result ≡ fault_status fault.now }
    ensures failed { 0 < result }
{
    match fault {
        CliFault::TooLong | CliFault::NotWords | CliFault::Image(_) => 3,
        CliFault::BadLine(_) | CliFault::Refused { .. } => 3,
        CliFault::Gate | CliFault::Merge { .. } | CliFault::Adopt(_) => 3,
        CliFault::NoSegment | CliFault::Changed => 3,
        CliFault::NoHistogram(_) | CliFault::Bad { .. } | CliFault::Stopped(_) => 3,
        CliFault::Clash { .. } => 3,
        CliFault::Read | CliFault::Write => 4,
        CliFault::NoThread | CliFault::NoMemory => 5,
    }
}

impl From<CliFault> for Failure {
    ghost from_gives = { λ fault failure. failure ≡ Fault fault };

    fn from(fault: CliFault) -> Failure {
        Failure::Fault(fault)
    }
}

impl From<AllocError> for Failure {
    ghost from_gives = { λ _ failure. failure ≡ Fault NoMemory };

    fn from(_error: AllocError) -> Failure {
        Failure::Fault(CliFault::NoMemory)
    }
}

impl From<Wrong> for Failure {
    ghost from_gives = { λ wrong failure. failure ≡ Usage wrong };

    fn from(wrong: Wrong) -> Failure {
        Failure::Usage(wrong)
    }
}

impl fmt::Display for Failure {
    fn fmt<W: fmt::Write>(&self, f: &mut fmt::Formatter<W>) -> fmt::Result {
        match self {
            Failure::Usage(wrong) => writeln!(f, "persist_report: {wrong}"),
            Failure::Fault(fault) => writeln!(f, "persist_report: {fault}"),
            Failure::Explained(fault, lines) => write!(f, "persist_report: {fault}\n{lines}"),
            Failure::Busy(lines) => write!(f, "persist_report: Busy\n{lines}"),
            Failure::Scale(fault, lines) => write!(f, "persist_report: {fault}\n{lines}"),
            Failure::Input { fault, name, lines } => {
                write!(f, "persist_report: {fault}: {name}\n{lines}")
            }
            Failure::Since { fault, name, lines } => {
                write!(f, "persist_report: {fault} {}\n{lines}", Shown(name))
            }
            Failure::TooMany(lines) => write!(f, "persist_report: TooMany\n{lines}"),
            Failure::NotWhole(lines) => write!(f, "persist_report: NotWhole\n{lines}"),
            Failure::Left | Failure::Reported(_) => Ok(()),
        }
    }
}
