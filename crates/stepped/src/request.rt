//! What the command line asks for.

ghost use Rattle.std.specs.Prelude.{◌≡◌, IfOk};
ghost use Rattle.clap.specs.Words.{kind_of};

use clap::error::ErrorKind;
use clap::{Arg, ArgAction, ArgMatches, Command, Error, value_parser};
use std::alloc::{AllocError, Global};
use std::convert::AsStr;

// What `--help` says of the program. `clap` does not wrap lines, so each text has its line ends.
const LONG_ABOUT: &str =
    "Replay a schedule of calls on a segment, one atomic step at a time; the segment
is new, or continues an image. It prints a line for each begin of a call, each
step and each answer, unless an option says otherwise.";

// What a schedule is.
const SCHEDULE: &str = "Schedule, as CSV records in this order:
world,SIZE,PAGE,ID,ACTORS,VERSION    a new segment,
adopt,FILE,ACTORS                    or that of an image;
hist,ACTOR,NAME,KIND,..              then who begins a call; KIND and
add,ACTOR,NAME,VALUE,COUNT           the others are as in a script
batch,ACTOR,NAME,SUM,VALUE,COUNT,..
delta,ACTOR,NAME
snapshot,ACTOR,NAME
set_corrupt,ACTOR
step,ACTOR,TIMES                     and who does TIMES steps next,
look,COPY,WORD                       or a load of a look: COPY 1 to 3";

// Examples that work in an empty folder, one after the other.
const EXAMPLES: &str = "Examples:
  printf '%s\\n' world,128,64,7,2,2 hist,0,A,boolean hist,1,A,boolean \\
      step,0,9 step,1,99 step,0,99 > race.csv
  stepped race.csv --show
  stepped race.csv --stop 20 --report

The first makes a schedule in which two actors ask for one name at once. In the
picture an exchange that fails shows what it wanted and what it found.

With PERSIST_REPORT_EXPLAIN=1 in the environment every error is explained, as by
--explain: for cron, systemd, containers and CI.";

// What `-h` has after the options.
const SHORT_EXAMPLE: &str = "Example:
  stepped race.csv --show

With PERSIST_REPORT_EXPLAIN=1 in the environment every error is explained, as by
--explain: for cron, systemd, containers and CI.";

/// What is shown of a world.
#[derive(Clone, Copy)]
pub enum Show {
    /// A line for each begin, each event and each answer.
    Lines,
    /// The same as a picture, with a column for each actor and what the words mean.
    Picture,
    /// The report of the segment as it is at the end.
    Report,
    /// The words of the segment as they are at the end, eight bytes for each.
    Image,
    /// The words of the look that the records have taken, with eight bytes for each.
    Look,
}

/// What the program is asked to do.
#[derive(Clone, Copy)]
pub struct ReplayRequest<'a> {
    /// The file with the schedule.
    pub schedule: &'a str,
    /// After how many events it ends at the latest.
    pub events: u64,
    /// What it shows.
    pub show: Show,
    /// Whether faults are to be explained.
    pub explains: bool,
}

fn stop_argument<'a>(alloc: Global) -> Arg<'a> {
    Arg::new(alloc, "stop")
        .long("stop")
        .value_name("EVENTS")
        .value_parser(value_parser!(u64))
        .help("End after EVENTS events")
}

fn flag<'a>(alloc: Global, name: &'a str, help: &'a str) -> Arg<'a> {
    Arg::new(alloc, name)
        .long(name)
        .action(ArgAction::SetTrue)
        .help(help)
}

// Adds the options that say what is printed, of which at most one is given, and where a schedule stops.
fn with_outputs<'a>(alloc: Global, command: Command<'a>) -> Result<Command<'a>, AllocError> {
    let picture = flag(alloc, "show", "Draw the steps as a picture for people");
    let report = flag(
        alloc,
        "report",
        "Print the report of the segment at the end,\nor where --stop ended",
    );
    let image = flag(
        alloc,
        "image",
        "Write the words of the segment at the end,\nor where --stop ended, as an image",
    );
    let look = flag(
        alloc,
        "look",
        "Write the look that the records take, put\ntogether at the end, as an image",
    );
    command
        .arg(
            picture
                .conflicts_with("report")?
                .conflicts_with("image")?
                .conflicts_with("look")?,
        )?
        .arg(stop_argument(alloc))?
        .arg(report.conflicts_with("image")?.conflicts_with("look")?)?
        .arg(image.conflicts_with("look")?)?
        .arg(look)
}

fn command<'a>(alloc: Global) -> Result<Command<'a>, AllocError> {
    let schedule = Arg::new(alloc, "SCHEDULE")
        .required(true)
        .help("Schedule of calls and steps, as CSV")
        .long_help(SCHEDULE);
    let explain = flag(
        alloc,
        "explain",
        "Explain errors (on by default in a terminal)",
    )
    .long_help("Explain errors: file, line, reason and what to do (on by default in a\nterminal)");
    let command = Command::new(alloc, "stepped")
        .version("0.9.0")
        .about("Replay a schedule of calls on a segment, one atomic step at a time")
        .long_about(LONG_ABOUT)
        .after_help(SHORT_EXAMPLE)
        .after_long_help(EXAMPLES)
        .arg(schedule)?;
    with_outputs(alloc, command)?.arg(explain)
}

fn show_of(matches: &ArgMatches<'_>) -> Show {
    if matches.get_flag("show") {
        Show::Picture
    } else if matches.get_flag("report") {
        Show::Report
    } else if matches.get_flag("image") {
        Show::Image
    } else if matches.get_flag("look") {
        Show::Look
    } else {
        Show::Lines
    }
}

impl<'a> ReplayRequest<'a> {
    /// The request of a command line, whose first word is the program's name.
    ///
    /// The error says what is wrong with the words, or has the help or the version that they ask for.
    pub fn of<S: AsStr>(alloc: Global, words: &'a [S]) -> Result<ReplayRequest<'a>, Error> {
        let mut command = command(alloc)?;
        let matches = command.try_get_matches_from_mut(words)?;
        match matches.get_str("SCHEDULE") {
            Some(schedule) => Ok(ReplayRequest {
                schedule,
                events: matches.get_one::<u64>("stop").unwrap_or(u64::MAX),
                show: show_of(&matches),
                explains: matches.get_flag("explain"),
            }),
            None => Err(command.error(
                ErrorKind::MissingRequiredArgument,
                "a schedule is required",
            )?),
        }
    }
}

/// Returns what is wrong with a command line in which an argument is not UTF-8 text: a mistake in a value. The one
/// error is that memory runs out.
pub fn not_text(alloc: Global) -> Result<Error, AllocError>
    ensures { IfOk result (λ error. kind_of error ≡ ErrorKind.ValueValidation) }
{
    command(alloc)?.error(
        ErrorKind::ValueValidation,
        "invalid UTF-8 was detected in one or more arguments",
    )
}
