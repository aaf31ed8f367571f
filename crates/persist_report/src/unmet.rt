//! What the program reports if it did not do what it was asked to, and its exit status then.

ghost use Rattle.std.specs.Prelude.{◌≡◌};
ghost use Rattle.persist_report.specs.Unmet.{IsNoUsage, IsToldAs, UsageIsMistake, unmet_status};
ghost use Rattle.report_streams.specs.declared.failure.Failure.TheVariants.{Usage};
ghost use Rattle.report_asks.specs.declared.wrong.Wrong.{Wrong};

use persist_report_core::CliFault;
use report_requests::error_of;
use report_streams::Failure;
use std::alloc::Global;
use std::fmt;

/// Why the program did not do what it was asked to. Its text is whole lines for the error stream.
#[derive(Drop)]
pub enum Unmet {
    /// The command line is not one that the program supports. The text is that of the parser, with the usage.
    Usage(clap::Error),
    /// What it asks for failed.
    Failed(Failure),
}

impl Unmet {
    /// Returns what is reported of a failure. A mistake is reported as the parser reports its own, with the kind of that
    /// mistake, or that memory ran out for its text [usage]; any other failure is reported itself [same]. So `Usage` is
    /// never help, the version or lack of memory [mistake].
    pub fn of(alloc: Global, failure: Failure) -> Unmet
        ensures usage { (wrong : Wrong) → failure ≡ Usage wrong → IsToldAs wrong result }
        ensures same { IsNoUsage failure → result ≡ Unmet.Failed failure }
        ensures mistake { UsageIsMistake result }
    {
        match failure {
            Failure::Usage(wrong) => match error_of(alloc, wrong) {
                Ok(error) => Unmet::Usage(error),
                Err(_) => Unmet::Failed(Failure::Fault(CliFault::NoMemory)),
            },
            failure => Unmet::Failed(failure),
        }
    }

    /// Returns the exit status: 2 for `Usage`, else that of the failure.
    pub fn status(&self) -> u8
        ensures { result ≡ unmet_status self.now }
    {
        match self {
            Unmet::Usage(_) => 2,
            Unmet::Failed(failure) => failure.status(),
        }
    }
}

impl fmt::Display for Unmet {
    fn fmt<W: fmt::Write>(&self, f: &mut fmt::Formatter<W>) -> fmt::Result {
        match self {
            Unmet::Usage(error) => write!(f, "{error}"),
            Unmet::Failed(failure) => write!(f, "{failure}"),
        }
    }
}
