//! What is wrong with a command line whose words the parser takes.

use std::fmt;

/// What is wrong with a command line whose words the parser takes. Its text is one line, without its end.
#[derive(Clone, Copy, PartialEq, Eq)]
pub enum Wrong {
    /// Two inputs are standard input.
    TwoInputs,
    /// An image and a report would both go to standard output.
    TwoOutputs,
    /// The file that is read three times is standard input, or none is named.
    NoFile,
    /// An argument is not UTF-8 text.
    NotText,
    /// No fault has the name that is asked for. One that is like it has this name, if there is one.
    NoFault(Option<&'static str>),
    /// No name of a metric may begin with the prefix.
    NoPrefix,
    /// No line may have the labels.
    NoLabels,
    /// The overview of a sum is asked for, which has no header.
    NoOverview,
    /// No page has so many words.
    NoPage,
    /// What is to be a histogram is none.
    NoHist,
}

impl fmt::Display for Wrong {
    fn fmt<W: fmt::Write>(&self, f: &mut fmt::Formatter<W>) -> fmt::Result {
        match self {
            Wrong::TwoInputs => f.write_str(
                "only one input can be -, which is standard input; ./- is the file of that name",
            ),
            Wrong::TwoOutputs => f.write_str(
                "OUT cannot be -, since the report goes to standard output; ./- is the file of that name",
            ),
            Wrong::NoFile => f.write_str(
                "FILE cannot be -, since it is read three times; ./- is the file of that name",
            ),
            Wrong::NotText => f.write_str("invalid UTF-8 was detected in one or more arguments"),
            Wrong::NoFault(None) => f.write_str("no fault has this name"),
            Wrong::NoFault(Some(name)) => {
                write!(f, "no fault has this name; did you mean {name}?")
            }
            Wrong::NoPrefix => {
                f.write_str("a prefix has letters, digits and _ alone, and no digit first")
            }
            Wrong::NoLabels => f.write_str(
                "a label is KEY=VALUE: KEY has letters, digits and _ alone, no digit first, no __, is none of le, name, value, kind, histogram and flag, and comes once; VALUE is not empty",
            ),
            Wrong::NoOverview => f.write_str("an overview is of one image, and not of a sum"),
            Wrong::NoPage => f.write_str("a page has a multiple of 16 words"),
            Wrong::NoHist => f.write_str(
                "a histogram is NAME,linear,MIN,MAX,BUCKETS or NAME,boolean or NAME,custom,VALUE,.. or NAME,sparse",
            ),
        }
    }
}
