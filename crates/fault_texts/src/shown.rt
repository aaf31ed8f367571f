//! A spec as text for a terminal.

use bucket_ranges::Spec;
use std::fmt;

// How many values of a custom spec are shown.
const MOST_VALUES: usize = 16;

/// A spec as the fields of a script have it. Of many custom values, the first 16 alone.
#[derive(Clone, Copy)]
pub struct ShownSpec<'a>(pub &'a Spec);

impl fmt::Display for ShownSpec<'_> {
    fn fmt<W: fmt::Write>(&self, f: &mut fmt::Formatter<W>) -> fmt::Result {
        match self.0 {
            Spec::Linear { min, max, n } => write!(f, "linear,{min},{max},{n}"),
            Spec::Boolean => f.write_str("boolean"),
            Spec::Sparse => f.write_str("sparse"),
            Spec::Custom(values) => {
                f.write_str("custom")?;
                for value in values.as_slice().iter().take(MOST_VALUES) {
                    write!(f, ",{value}")?;
                }
                if values.as_slice().len() > MOST_VALUES {
                    f.write_str(",...")?;
                }
                Ok(())
            }
        }
    }
}
