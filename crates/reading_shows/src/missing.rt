//! Names that are asked for and that no histogram has.

ghost use Rattle.std.specs.Prelude.{◌≡◌, ◌↔◌, IsNone};
ghost use Rattle.image_reader.specs.Views.{reading_view};
ghost use Rattle.reading_shows.specs.Missing.{is_there as is_there_in, names_of as names_of_choice, first_missing as first_missing_of, AreAllThere};

use image_reader::Reading;
use text_styles::Choice;

// Whether a histogram of a reading has this name.
fn is_there(reading: &Reading, name: &str) -> bool
    ensures { result ≡ is_there_in (reading_view reading.now) name.entry }
{
    for hist in &reading.hists {
        if name.as_bytes() == hist.name.as_slice() {
            return true;
        }
    }
    false
}

// The names that a choice asks for.
fn names_of<'c, 'a>(choice: &'c Choice<'a>) -> &'c [&'a str]
    ensures { result.now ≡ names_of_choice choice.now }
{
    match choice {
        Choice::Named(names) => names.as_slice(),
        Choice::All | Choice::Part(_) => &[],
    }
}

/// Returns the first name that a choice asks for and that no histogram of a reading has [first]. None exactly if each
/// name that is asked for is that of a histogram; a choice of all, or by a part of a name, asks for no names [none].
pub fn first_missing<'a>(choice: &Choice<'a>, reading: &Reading) -> Option<&'a str>
    ensures first { result ≡ first_missing_of choice.now (reading_view reading.now) }
    ensures none { IsNone result ↔ AreAllThere choice.now (reading_view reading.now) }
{
    for name in names_of(choice) {
        if !is_there(reading, name) {
            return Some(*name);
        }
    }
    None
}
