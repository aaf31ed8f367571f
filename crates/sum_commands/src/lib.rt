//! Sums of the inputs of a command: images and totals, one after the other.
//!
//! [`kind_of`] says what an input begins as. [`add_image`] and [`add_totals`] add up one input after the other, in
//! their order. The images that were read are numbered from 0 on, including those of a totals. Sums of parts of a list
//! become that of the whole list: `specs/Inputs.antt` says of which readings a sum is. An input that cannot be read
//! leaves the sum unchanged. [`sum_of_inputs`] does this with all inputs of a [`Source`], with any number of workers,
//! which make no difference ([`workers_are_nothing`]): `specs/Sources.antt` says of which inputs a sum is.
#![tactic(auto)]

mod fault;
mod kind;
mod laws;
mod summing;
mod sums;
mod working;

pub use fault::InputFault;
pub use kind::{FRONT, InputKind, kind_of};
pub use laws::workers_are_nothing;
pub use summing::{Left, OpenInput, Progress, Source, Summed};
pub use sums::{add_image, add_totals, any_fault_may_come, append_next, nothing_is_added};
pub use working::{Manner, sum_of_inputs};
