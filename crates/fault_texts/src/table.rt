//! What each fault means, and what to do. `docs/FAULTS.md` is made of this table, and `explain` prints it.

ghost use Rattle.std.specs.Prelude.{◌≡◌, IfSome};

use crate::c_table::C_TEXTS;
use crate::text_table::TEXT_FAULTS;
use crate::world_table::WORLD_TEXTS;
use std::fmt;

/// What a fault means, and what to do.
#[derive(Clone, Copy)]
pub struct FaultText<'a> {
    /// The name, as the line of a fault or of a report has it.
    pub name: &'a str,
    /// What it means.
    pub meaning: &'a str,
    /// What to do.
    pub remedy: &'a str,
}

impl fmt::Display for FaultText<'_> {
    fn fmt<W: fmt::Write>(&self, f: &mut fmt::Formatter<W>) -> fmt::Result {
        writeln!(f, "{}: {}\n  {}", self.name, self.meaning, self.remedy)
    }
}

// Writes the texts of a table, one after the other.
fn write_table<W: fmt::Write>(
    f: &mut fmt::Formatter<W>,
    table: &[(&str, &str, &str)],
) -> fmt::Result {
    for entry in table {
        writeln!(f, "{}: {}\n  {}", entry.0, entry.1, entry.2)?;
    }
    Ok(())
}

/// The texts of all faults, one after the other: those of `TEXTS`, of texts of several inputs, of `stepped`, and of C.
#[derive(Clone, Copy)]
pub struct AllTexts;

impl fmt::Display for AllTexts {
    fn fmt<W: fmt::Write>(&self, f: &mut fmt::Formatter<W>) -> fmt::Result {
        write_table(f, &TEXTS)?;
        write_table(f, &TEXT_FAULTS)?;
        write_table(f, &WORLD_TEXTS)?;
        write_table(f, &C_TEXTS)
    }
}

// The text of a name in a table.
fn find_text<'a>(table: &'a [(&'a str, &'a str, &'a str)], name: &str) -> Option<FaultText<'a>>
    ensures { IfSome result (λ text. text.name.now ≡ name.now) }
{
    for entry in table {
        if entry.0 == name {
            return Some(FaultText {
                name: entry.0,
                meaning: entry.1,
                remedy: entry.2,
            });
        }
    }
    None
}

/// Returns the text of a fault of a world of `stepped` by its name, if there is one; it has that name.
pub fn world_text(name: &str) -> Option<FaultText<'static>>
    ensures { IfSome result (λ text. text.name.now ≡ name.now) }
{
    find_text(&WORLD_TEXTS, name)
}

/// Returns the text of a fault by its name, if there is one in `TEXTS` or `TEXT_FAULTS`; it has that name.
pub fn fault_text(name: &str) -> Option<FaultText<'static>>
    ensures { IfSome result (λ text. text.name.now ≡ name.now) }
{
    match find_text(&TEXTS, name) {
        Some(text) => Some(text),
        None => find_text(&TEXT_FAULTS, name),
    }
}

/// Each fault by its name, with what it means and what to do: those of the program, of the header of an image, of what
/// is refused, of specs, and of the lines of a report that begin with `!`.
pub const TEXTS: [(&str, &str, &str); 55] = [
    (
        "Read",
        "An input cannot be opened, or a read of it failed.",
        "Look at the system's reason: is the path right, and may you read the file?",
    ),
    (
        "Write",
        "An output cannot be opened, locked or written, no new file can be made in OUT's folder, or that file cannot take OUT's name.",
        "Look at the system's reason: is the device full, and may you write in OUT's folder? A file OUT is unchanged.",
    ),
    (
        "Busy",
        "Another process holds the lock of OUT, since it counts in that file or writes it; or that of a folder, which it folds. The lock was tried for 100 ms, and nothing was read or written. Of a recording's folder that is read: sixteen times a fold ended meanwhile.",
        "Let that process end, or give OUT another name. To read a file that a program counts in, take a look at it: `look FILE OUT`. For a folder try again: a fold that is at work does the same.",
    ),
    (
        "TooLong",
        "An image has more than 8,388,608 bytes, or a script or a schedule more than 16,777,216; or 2^64 bytes were searched.",
        "Is it the right file? Split a long script in two, and add up the reports.",
    ),
    (
        "NotWords",
        "The number of bytes of an image is not a multiple of eight.",
        "The file was cut short, or it is no image: copy it again from where it was written.",
    ),
    (
        "Image",
        "The header of an image has the fault that is named after it.",
        "Look that name up: `explain NAME`.",
    ),
    (
        "BadLine",
        "A record of the script or the schedule is malformed, out of order, or names an unknown histogram; with `resume`, also: its segment differs from BASE. The number counts records; empty lines are none.",
        "Correct the record.",
    ),
    (
        "Refused",
        "What a record of the script asks for is refused. The reason follows the number of the record.",
        "Look the reason up: `explain NAME`.",
    ),
    (
        "Gate",
        "A gate refused a call. Only programs that pass their own gate to the library can see this.",
        "See why your gate refused it.",
    ),
    (
        "Merge",
        "A merge stopped at a histogram. Its name and the reason follow.",
        "Look the reason up: `explain NAME`.",
    ),
    (
        "NoThread",
        "A worker could not be started.",
        "Use fewer workers, or allow yourself more threads.",
    ),
    (
        "NoMemory",
        "Out of memory: for what was read, for what was to be written, or for the work between.",
        "Close other programs, or allow this one more memory.",
    ),
    (
        "Adopt",
        "Recording cannot continue in this image: the reason follows.",
        "Look that name up: `explain NAME`.",
    ),
    (
        "NoSegment",
        "The file that was searched has fewer than N segments. A segment is a valid header with all its words before the end.",
        "Leave --nth out, to see whether there is any. Was the file written completely, and while the segment was in use?",
    ),
    (
        "Changed",
        "Between the three reads of a look another segment took the place of the one in the file: its cookie, version, size, page or id is another.",
        "Look once more.",
    ),
    (
        "NoHistogram",
        "No histogram of the image has the name that follows. Those of the other names are shown.",
        "Look at the name. `--match PART` shows the histograms whose name contains PART.",
    ),
    (
        "Bad",
        "With --whole: the record at the word that follows has the fault that is named after it. All else is in the text.",
        "Look that name up: `explain NAME`. Without --whole it is a line of the text, and no fault.",
    ),
    (
        "Stopped",
        "With --whole: the list of records stops before its end, and the reason follows. All before that is in the text.",
        "Look that name up: `explain NAME`. Without --whole it is a line of the text, and no fault.",
    ),
    (
        "TooShort",
        "An image has fewer than 16 words, those of its header.",
        "The file was cut short, or it is no image: copy it again from where it was written.",
    ),
    (
        "BadCookie",
        "Word 0 of an image is not 0x408305DC, with which every image begins.",
        "Is this a Povundiri image? Files that Chromium wrote are not read.",
    ),
    (
        "BadVersion",
        "Word 1 of an image is neither 1 nor 2, the versions of the format.",
        "Use a program that reads this version, if there is one.",
    ),
    (
        "TooSmall",
        "Of `segment_sizes`: a block has fewer than five words, which no block has.",
        "Ask for the words that a record or its counts have.",
    ),
    (
        "NoSize",
        "Of `segment_sizes`: the blocks may take more words than a segment can have, 1,048,576.",
        "Record into two segments, and add up the reports.",
    ),
    (
        "BadPage",
        "Word 3 of an image is no valid number of words of a page: a multiple of 16, from 64 to 65,536.",
        "The image is damaged: copy it again from where it was written.",
    ),
    (
        "BadSize",
        "Word 2 of an image is not the number of its words; or these are no whole pages, or more than 1,048,576.",
        "The file was cut short, or something follows its end: copy it again from where it was written.",
    ),
    (
        "NotReady",
        "Word 5 of an image is not 1: the segment was never made ready.",
        "Write an image of a segment that was closed.",
    ),
    (
        "Deleted",
        "Word 5 of an image is 2: the segment was deleted.",
        "Use another image: this one is not meant to be read any more.",
    ),
    (
        "BadFree",
        "Word 7 of the header, the index of the first free word, is below 16 or beyond the end.",
        "The image is damaged: copy it again from where it was written.",
    ),
    (
        "BadQueue",
        "Words 12 to 14 of an image, where the list of records begins, are not 4, 1 and 0.",
        "The image is damaged: copy it again from where it was written.",
    ),
    (
        "OldVersion",
        "Recording cannot continue in an image of version 1: some of its units may be lost between two words.",
        "Merge it with the image of a script that has only a `segment` record: the result is of version 2, and has what no delta took.",
    ),
    (
        "Damaged",
        "Recording cannot continue in this image, because no segment can have its words: a bad record, a list that stops early, blocks that overlap, or a word that should be 0.",
        "Copy it again from where it was written. A report shows what can be read of it, and a merge takes that into a new image.",
    ),
    (
        "BadCursors",
        "More than eight shared cursors are asked for. Only programs that open a segment by the libraries can see this.",
        "Ask for eight or fewer.",
    ),
    (
        "BadName",
        "A name is not 1 to 128 bytes from 0x21 to 0x7E without comma and quotation mark, or it begins with an exclamation mark.",
        "Use another name. In a report, this record is damaged, and the others are not affected.",
    ),
    (
        "BadSpec",
        "A spec is invalid: the reason follows. In a report it is the spec of a record.",
        "Look that name up: `explain NAME`. In a report, this record is damaged, and the others are not affected.",
    ),
    (
        "ZeroCount",
        "A sample or an `add` record has the count 0.",
        "Give it a count of 1 or more, or leave it out.",
    ),
    (
        "NoUnits",
        "A recorder has used up its share of units. Or more are asked for than the segment has left: it has 4,294,967,295 in its whole life, also when recording continues in its image.",
        "Lend the recorder more, and join recorders that are done: the segment has their rest again. If the segment has too few, record into two segments, and add up the reports.",
    ),
    (
        "TooMany",
        "The segment has 256 recorders that are not joined, and no more at once. Of a sum: with an input that is named, or less OLD, a total would not fit. Of a spec: a linear one has more than 1,000 buckets or more than MAX - MIN + 2, or a custom one more than 999 values, or a scale more than 999 values or 8 bits.",
        "Join a recorder before you ask for the next one. Of a spec: use fewer buckets, values or bits.",
    ),
    (
        "TooLarge",
        "The record of a histogram or its counts have more words than a page. A record has 15 and one for each 8 bytes of the name, rounded up; of a custom histogram also one for each value. Counts have 4 and 2 for each bucket.",
        "Use larger pages, fewer buckets or a shorter name. For a merge, let BASE be the image with the larger pages.",
    ),
    (
        "Corrupt",
        "The segment was marked as corrupt when a block was to be claimed; or recording cannot continue in the image of such a segment.",
        "Make a new segment, and look at what the old one has by a report.",
    ),
    (
        "Full",
        "The segment has no room for another block.",
        "Use a larger SIZE. For a merge, let BASE be the larger image. An image in which recording continues keeps its size: merge it into a larger one first.",
    ),
    (
        "OtherSpec",
        "One name has two specs. With --minus: OLD has the histogram that is named, and no input has it with that spec.",
        "Give both the same spec, or one of them another name.",
    ),
    (
        "BadMin",
        "The minimum of a linear spec or of a scale is 0.",
        "Use 1 or more: lower values have a bucket of their own.",
    ),
    (
        "BadMax",
        "The maximum of a linear spec or of a scale is not above its minimum, or it is above 2,147,483,646.",
        "Use a maximum between these.",
    ),
    (
        "TooFew",
        "A linear spec has fewer than 3 buckets; or a scale has 0 bits.",
        "Use 3 buckets or more: one below the minimum, one from the maximum on, and one between. For a scale use 1 to 8 bits.",
    ),
    (
        "BadRange",
        "A value of a custom spec is above 2,147,483,646.",
        "Leave it out: a sample above that counts as 2,147,483,646.",
    ),
    (
        "Empty",
        "No value of a custom spec is above 0.",
        "Give one or more: buckets begin at these values.",
    ),
    (
        "BadKind",
        "In a report: a histogram's record is too short, or of an unknown kind.",
        "This record is damaged, and the others are not affected.",
    ),
    (
        "BadCounts",
        "In a report: a record has no valid block of counts, or a bucket with 4,294,967,296 units or more.",
        "This record is damaged, and the others are not affected.",
    ),
    (
        "BadSingle",
        "In a report: the single word of a record, which holds the units of one bucket, has no valid form.",
        "This record is damaged, and the others are not affected.",
    ),
    (
        "BadMark",
        "In a report: a record says that deltas took more of a bucket than it has.",
        "This record is damaged, and the others are not affected.",
    ),
    (
        "BadSum",
        "In a report: a sum of a record is larger than samples can make it.",
        "This record is damaged, and the others are not affected.",
    ),
    (
        "BadSample",
        "In a report: a record of a sparse value is invalid, or names no sparse histogram before it.",
        "This record is damaged, and the others are not affected.",
    ),
    (
        "BadRef",
        "In a report: the list of records stopped at a reference where no block can be.",
        "The image is damaged: the records before it were read.",
    ),
    (
        "BadBlock",
        "In a report: the list of records stopped at a reference where no valid block is.",
        "The image is damaged: the records before it were read.",
    ),
    (
        "Loop",
        "In a report: the list of records stopped at a record that it had visited before.",
        "The image is damaged: the records before it were read.",
    ),
];
