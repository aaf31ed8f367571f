//! What an export is asked for.

/// A label that all lines of an export get.
#[derive(Clone, Copy)]
pub struct LineLabel<'a> {
    pub key: &'a str,
    pub value: &'a str,
}

/// What an export is asked for.
#[derive(Drop)]
pub struct Exported<'a> {
    /// The bytes that the names of all metrics begin with.
    pub prefix: &'a [u8],
    /// The labels that all lines get.
    pub labels: Vec<LineLabel<'a>>,
    /// Whether there is a family for each histogram, named after it.
    pub has_families: bool,
}
