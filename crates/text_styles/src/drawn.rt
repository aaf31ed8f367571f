//! What a text for people is asked for.

use crate::choice::Choice;
use crate::style::Style;

/// What a text, a list or a page for people is asked for: which histograms, and how they are drawn.
#[derive(Drop)]
pub struct Drawn<'a> {
    /// How a histogram is drawn. A list has lines of its width and numbers as it says, and a page as many sparse values.
    pub style: Style,
    /// Whether the lines of a list are sorted by units, the most first, and not by name.
    pub is_by_units: bool,
    /// Which histograms are shown.
    pub choice: Choice<'a>,
}
