//! From bytes to a schedule.

ghost use Rattle.std.specs.Prelude.{◌≡◌, ◌≢◌, ◌↔◌, ◌≤◌, ◌⊎◌, Some, None, true, false, length, map, IfOk, IfErr, IfSome, OnOk, IsErrOf, MatchResult};
ghost use Rattle.std.specs.Io.KnownBytes.{IsAtEnd};
ghost use Rattle.csv.specs.Records.{fields_of};
ghost use Rattle.segment_image.specs.Transfer.{TakesAtMost};
ghost use Rattle.segment_image.specs.Watched.{has_failed, watched_inner};
ghost use Rattle.schedule.specs.declared.fault.ScheduleFault.TheVariants.{BadLine, NoMemory};
ghost use Rattle.schedule.specs.Order.{order_in, order_view};
ghost use Rattle.schedule.specs.Schedule.{AreOrders, IsLaterFault, IsReadAs, IsRowFault, IsScheduleFault, IsScheduleOf};

use crate::fault::ScheduleFault;
use crate::order::{Opening, Order, read_opening, read_order};
use csv::ByteRecord;
use persist_report_core::{MAX_SCRIPT_BYTES, read_rows};
use segment_image::{ReadFault, Watched, read_bytes};
use std::alloc::Global;
use std::io::Read;

/// What is to be done in a world, in order.
#[derive(Drop)]
pub struct Schedule {
    /// The world: record 1.
    pub opening: Opening,
    /// What its actors are to do: the records from 2 on.
    pub orders: Vec<Order>,
}

// The order of a record of a number.
fn order_of(alloc: Global, fields: &ByteRecord, number: u64) -> Result<Order, ScheduleFault>
    ensures { MatchResult result (λ order. order_in (fields_of fields.now) ≡ Some (order_view order)) (λ fault. (fault ≡ NoMemory) ⊎ ((fault ≡ BadLine number) × (order_in (fields_of fields.now) ≡ None))) }
{
    match read_order(alloc, fields)? {
        Some(order) => Ok(order),
        None => Err(ScheduleFault::BadLine(number)),
    }
}

// The orders that later records are.
fn orders_of(alloc: Global, later: &[ByteRecord]) -> Result<Vec<Order>, ScheduleFault>
    requires { length later.now ≤ 16777216 }
    ensures { MatchResult result (λ orders. AreOrders (map fields_of later.now) orders.items) (IsLaterFault (map fields_of later.now)) }
{
    let mut orders = Vec::with_capacity(alloc, later.len())?;
    for i in 0..later.len() {
        orders.push_reserved(order_of(alloc, &later[i], i as u64 + 2)?);
    }
    Ok(orders)
}

// The schedule that records are.
fn schedule_of(alloc: Global, rows: &[ByteRecord]) -> Result<Schedule, ScheduleFault>
    requires { length rows.now ≤ 16777216 }
    ensures { MatchResult result (IsReadAs (map fields_of rows.now)) (IsRowFault (map fields_of rows.now)) }
{
    let Some((first, later)) = rows.split_first() else {
        return Err(ScheduleFault::BadLine(1));
    };
    let Some(opening) = read_opening(alloc, first)? else {
        return Err(ScheduleFault::BadLine(1));
    };
    let orders = orders_of(alloc, later)?;
    Ok(Schedule { opening, orders })
}

// All bytes that the reader has left.
fn bytes_of<R: Read>(alloc: Global, reader: &mut Watched<R>) -> Result<Vec<u8>, ScheduleFault>
    requires { has_failed reader.old ≡ false }
    ensures bytes { IfSome (R.remaining (watched_inner reader.old)) (λ bytes. MatchResult result (λ read. (read.items ≡ bytes) × (length bytes ≤ 16777216)) (IsScheduleFault bytes)) }
    ensures within { IfOk result (λ read. length read.items ≤ 16777216) }
    ensures read { IsErrOf result ScheduleFault.Read ↔ (has_failed reader.new ≡ true) }
    ensures end { OnOk result (IsAtEnd (R.remaining (watched_inner reader.new))) }
    ensures taken { TakesAtMost 16777217 (R.remaining (watched_inner reader.old)) (R.remaining (watched_inner reader.new)) }
{
    match read_bytes(alloc, reader, MAX_SCRIPT_BYTES) {
        Ok(bytes) => Ok(bytes),
        Err(ReadFault::NoMemory) => Err(ScheduleFault::NoMemory),
        Err(ReadFault::TooLong) => Err(ScheduleFault::TooLong),
        Err(ReadFault::Device) => Err(ScheduleFault::Read),
        Err(ReadFault::NotWords) => unreachable!(),
    }
}

/// Reads the schedule that the reader has left, which is CSV: `world,SIZE,PAGE,ID,ACTORS,VERSION` or
/// `adopt,FILE,ACTORS` first, and then what the actors are to do.
///
/// On `Ok` it is exactly the schedule that the bytes are: its world, a new one or one that continues from a file, and
/// each later record in order. `TooLong` comes only if there are more than 16,777,216 bytes. `BadLine` comes with
/// the number of the first record without a valid form, or with a number out of its type; a schedule without records
/// is `BadLine` of record 1. `NoMemory` comes if memory runs out [answer]. Shapes, files, actors, names and specs
/// are taken as they are, valid or not.
///
/// The reader has not failed before. It is read whole before any record is looked at: on `Ok` it is at its end [end],
/// and at most one byte more than these is taken from it [taken]. `Read` comes exactly if a read failed [read].
pub fn read_schedule<R: Read>(
    alloc: Global,
    reader: &mut Watched<R>,
) -> Result<Schedule, ScheduleFault>
    requires { has_failed reader.old ≡ false }
    ensures answer { IfSome (R.remaining (watched_inner reader.old)) (λ bytes. MatchResult result (IsScheduleOf bytes) (IsScheduleFault bytes)) }
    ensures read { IsErrOf result ScheduleFault.Read ↔ (has_failed reader.new ≡ true) }
    ensures end { OnOk result (IsAtEnd (R.remaining (watched_inner reader.new))) }
    ensures taken { TakesAtMost 16777217 (R.remaining (watched_inner reader.old)) (R.remaining (watched_inner reader.new)) }
{
    let bytes = bytes_of(alloc, reader)?;
    let rows = read_rows(alloc, &bytes)?;
    schedule_of(alloc, &rows)
}
