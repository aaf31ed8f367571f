//! Which histograms are shown.

/// Which histograms are shown.
#[derive(Drop)]
pub enum Choice<'a> {
    /// All of them.
    All,
    /// Those with one of these names.
    Named(Vec<&'a str>),
    /// Those whose name contains this part.
    Part(&'a str),
}
