//! How a histogram is drawn.

/// How a histogram is drawn.
#[derive(Clone, Copy, PartialEq, Eq)]
pub struct Style {
    /// The cells of a line, if its values and numbers leave room for a bar.
    pub width: u16,
    /// Whether bars are made of `#`, and not of blocks in eighths of a cell.
    pub is_ascii: bool,
    /// Whether numbers have a comma between thousands.
    pub is_human: bool,
    /// Whether bars are proportional to the logarithms of units, and not to the units.
    pub is_log: bool,
    /// Whether each value of a sparse histogram may have a line, and not only the 20 with the most units.
    pub shows_all: bool,
    /// Whether a line gives the redundant count of a histogram, if it differs from its units.
    pub shows_redundant: bool,
    /// Whether a line marks each histogram whose redundant count differs from its units: in a look at a running segment
    /// its counts may be from different moments.
    pub marks_meanwhile: bool,
}
