//! The call `hist`: it finds the histogram of a name, or makes it.

pub(crate) mod answer;
pub(crate) mod comparison;
pub(crate) mod known_names;
pub(crate) mod new_record;
pub(crate) mod opening;
pub(crate) mod search;
