//! What a record of a schedule asks for, by its fields.

ghost use Rattle.std.specs.Prelude.{◌≡◌, IfOk, option_map, drop};
ghost use Rattle.csv.specs.Records.{fields_of};
ghost use Rattle.schedule.specs.Fields.{texts};
ghost use Rattle.schedule.specs.Order.{image_in, kind_in, kind_view, new_world_in, opening_in, opening_view, order_in, order_view, times_in, word_in};

use crate::call::read_call;
use crate::fields::list_fields;
use csv::ByteRecord;
use persist_report_core::long_number;
use segment_calls::Call;
use std::alloc::{AllocError, Global};

/// What a world starts with: the first record.
#[derive(Drop)]
pub enum Opening {
    /// A new segment.
    New(NewWorld),
    /// The image in a file of this name, whether there is one or not, with this many actors, valid or not.
    Adopt(Vec<u8>, usize),
}

/// How a world of a new segment is made.
#[derive(Clone, Copy, PartialEq, Eq)]
pub struct NewWorld {
    /// How many words its segment has, valid or not.
    pub size: u64,
    /// How many words a page has, valid or not.
    pub page: u64,
    /// The segment's id.
    pub id: u64,
    /// How many actors it has, valid or not.
    pub actors: usize,
    /// The version of the format, valid or not.
    pub version: u64,
}

/// What an actor is to do, or a load of a look: a later record.
#[derive(Drop)]
pub struct Order {
    /// The number of the actor, from 0, or of the copy that is loaded, from 1; whether there is one or not.
    pub actor: usize,
    /// What it is to do.
    pub kind: OrderKind,
}

/// What an actor is to do.
#[derive(Drop)]
pub enum OrderKind {
    /// It begins a call.
    Begin(Call),
    /// It continues its call by this many events, or fewer if the call ends; by one at least.
    Step(u64),
    /// No actor does anything: the word of this number, whether there is one or not, is loaded into a copy.
    Look(usize),
}

// The world of a new segment that these fields ask for.
fn new_world_of(fields: &[&[u8]]) -> Option<NewWorld>
    ensures { result ≡ new_world_in (texts fields.now) }
{
    let [word, size, page, id, actors, version] = fields else {
        return None;
    };
    if *word != b"world".as_slice() {
        return None;
    }
    Some(NewWorld {
        size: long_number(size)?,
        page: long_number(page)?,
        id: long_number(id)?,
        actors: long_number(actors)? as usize,
        version: long_number(version)?,
    })
}

// The file of an image, and how many actors.
fn image_of<'a>(fields: &[&'a [u8]]) -> Option<(&'a [u8], usize)>
    ensures { option_map (λ image. (image.0.now, image.1)) result ≡ image_in (texts fields.now) }
{
    let [word, file, actors] = fields else {
        return None;
    };
    if *word != b"adopt".as_slice() {
        return None;
    }
    let actors = long_number(actors)? as usize;
    Some((file, actors))
}

/// The world that the first record asks for, or nothing if it has no valid form.
pub(crate) fn read_opening(
    alloc: Global,
    csv_record: &ByteRecord,
) -> Result<Option<Opening>, AllocError>
    ensures { IfOk result (λ opening. option_map opening_view opening ≡ opening_in (fields_of csv_record.now)) }
{
    let fields = list_fields(alloc, csv_record)?;
    if let Some(segment) = new_world_of(&fields) {
        return Ok(Some(Opening::New(segment)));
    }
    match image_of(&fields) {
        Some((file, actors)) => Ok(Some(Opening::Adopt(Vec::from_slice(alloc, file)?, actors))),
        None => Ok(None),
    }
}

// How many events: one or more.
fn times_of(behind: &[&[u8]]) -> Option<u64>
    ensures { result ≡ times_in (texts behind.now) }
{
    let [times] = behind else {
        return None;
    };
    let times = long_number(times)?;
    if times == 0 { None } else { Some(times) }
}

// The number of a word.
fn word_of(behind: &[&[u8]]) -> Option<usize>
    ensures { result ≡ word_in (texts behind.now) }
{
    let [word] = behind else {
        return None;
    };
    Some(long_number(word)? as usize)
}

// What an actor is to do, by a word and the fields after the actor.
fn read_kind(
    alloc: Global,
    word: &[u8],
    behind: &[&[u8]],
    csv_record: &ByteRecord,
) -> Result<Option<OrderKind>, AllocError>
    requires { texts behind.now ≡ drop 2 (fields_of csv_record.now) }
    ensures { IfOk result (λ kind. option_map kind_view kind ≡ kind_in word.now (texts behind.now)) }
{
    if word == b"step".as_slice() {
        Ok(times_of(behind).map(OrderKind::Step))
    } else if word == b"look".as_slice() {
        Ok(word_of(behind).map(OrderKind::Look))
    } else {
        Ok(read_call(alloc, word, behind, csv_record)?.map(OrderKind::Begin))
    }
}

/// What a later record asks for, or nothing if it has no valid form.
pub(crate) fn read_order(
    alloc: Global,
    csv_record: &ByteRecord,
) -> Result<Option<Order>, AllocError>
    ensures { IfOk result (λ order. option_map order_view order ≡ order_in (fields_of csv_record.now)) }
{
    let fields = list_fields(alloc, csv_record)?;
    let [word, actor, behind @ ..] = fields.as_slice() else {
        return Ok(None);
    };
    match (
        long_number(actor),
        read_kind(alloc, word, behind, csv_record)?,
    ) {
        (Some(actor), Some(kind)) => Ok(Some(Order {
            actor: actor as usize,
            kind,
        })),
        _ => Ok(None),
    }
}
