//! Schedules of the stepped world: which actor begins which call, and which one continues by how many events.
//!
//! A schedule is a CSV text. It is read whole and is then a value, or its first faulty record: `specs/Schedule.antt`.
#![tactic(auto)]

mod call;
mod fault;
mod fields;
mod order;
mod reading;

pub use fault::ScheduleFault;
pub use order::{NewWorld, Opening, Order, OrderKind};
pub use reading::{Schedule, read_schedule};
