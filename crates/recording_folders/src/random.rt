//! Names that end with a random text.

ghost use Rattle.std.specs.Prelude.{◌≡◌};
ghost use Rattle.std.specs.Bool.{Decides};
ghost use Rattle.recording_folders.specs.Names.{IsRandom, IsProcess, IsProcessAndRandom, IsSpareName, IsNewMarkName};

// What the name of a mark begins with before it has its own name.
const NEW_MARK: &[u8] = b"recording-";

// What the name of a spare begins with.
const SPARE: &[u8] = b"spare-";

// How many hexadecimal digits a random text has.
const RANDOM: usize = 16;

// The most digits of the number of a process.
const MOST_DIGITS: usize = 18;

// Whether a text is of random digits.
fn is_random(text: &[u8]) -> bool
    ensures { Decides result (IsRandom text.now) }
{
    text.len() == RANDOM
        && text
            .iter()
            .all(|byte| matches!(*byte, b'0'..=b'9' | b'a'..=b'f'))
}

// Whether a text is the number of a process.
fn is_process(text: &[u8]) -> bool
    ensures { Decides result (IsProcess text.now) }
{
    match text {
        [first, ..] => {
            *first != b'0'
                && text.len() <= MOST_DIGITS
                && text.iter().all(|byte| byte.is_ascii_digit())
        }
        [] => false,
    }
}

/// Returns whether a name is that of a mark which has not got its own name.
pub(crate) fn is_new_mark(name: &[u8]) -> bool
    ensures { Decides result (IsNewMarkName name.now) }
{
    match name.strip_prefix(NEW_MARK) {
        Some(random) => is_random(random),
        None => false,
    }
}

// Whether a text is the number of a process, a hyphen and random digits.
fn is_process_and_random(text: &[u8]) -> bool
    ensures { Decides result (IsProcessAndRandom text.now) }
{
    if text.len() < RANDOM {
        return false;
    }
    let (front, random) = text.split_at(text.len() - RANDOM);
    match front.strip_suffix(b"-") {
        Some(process) => is_process(process) && is_random(random),
        None => false,
    }
}

/// Returns whether a name is that of a spare.
pub(crate) fn is_spare(name: &[u8]) -> bool
    ensures { Decides result (IsSpareName name.now) }
{
    match name.strip_prefix(SPARE) {
        Some(behind) => is_process_and_random(behind),
        None => false,
    }
}
