//! What a command does.

use crate::ask::Ask;
use crate::nth::Nth;
use crate::scale::Scale;
use crate::size::SizeTask;
use report_asks::Workers;

/// What a command does.
#[derive(Drop)]
pub enum Task<'a> {
    /// Write a text of images, of totals or of what a recording has counted.
    Text(Ask<'a>),
    /// Run a script by workers, and write the image to a file and its report to standard output.
    Run {
        script: &'a str,
        out: &'a str,
        workers: Workers,
    },
    /// Continue from an image and run a script on it by workers. Write the new image to a file and its report to
    /// standard output.
    Resume {
        base: &'a str,
        script: &'a str,
        out: &'a str,
        workers: Workers,
    },
    /// Merge two images into a new segment, and write its image to a file.
    Merge {
        base: &'a str,
        dead: &'a str,
        out: &'a str,
    },
    /// Look at the segment in a file that is in use, which begins at a byte if one is named. Write its image to another
    /// file, or to standard output if there is none.
    Look {
        file: &'a str,
        at: Option<u64>,
        out: Option<&'a str>,
    },
    /// Add the segments of a recording's folder that are final to its totals, and remove them.
    Fold {
        folder: &'a str,
    },
    /// Find a segment in a file. Write its image to another, and to the error stream where it was.
    Extract {
        file: &'a str,
        out: &'a str,
        nth: Nth,
    },
    /// Say how large a segment has to be for histograms.
    Size(SizeTask<'a>),
    /// Write the record of a script for a histogram of a name, whose values are those of a scale.
    Scale {
        name: &'a str,
        scale: Scale,
    },
    /// Write what the fault of a name means, or what each means if there is no name.
    Explain {
        name: Option<&'a str>,
    },
}
