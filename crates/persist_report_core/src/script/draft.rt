//! A script while it is read, record by record.

ghost use Rattle.std.specs.Prelude.{◌≡◌, ◌<◌, length, option_map};
ghost use Rattle.persist_report_core.specs.Request.{Add, Delta, Hist, request_view};
ghost use Rattle.persist_report_core.specs.Script.{script_view};
ghost use Rattle.persist_report_core.specs.Draft.{IsDraft, FindsPlace, Opens, Puts};

use crate::script::names::{Names, insert_first};
use crate::script::request::ScriptRequest;
use crate::script::{CallKind, Script, ScriptCall, ScriptFault, ScriptHist};
use bucket_ranges::Spec;
use segment_image::Shape;
use std::alloc::Global;
use std::collections::HashMap;

/// The script that the records so far make.
#[derive(Drop)]
pub(crate) struct Draft {
    pub(crate) script: Script,
    // The index of the first `hist` record of each name.
    names: Names,
    // The units that the `add` records may take, and those that they have taken.
    pool: u64,
    taken: u64,
}

// The fault of a record that is malformed, out of place, or names no histogram.
fn bad_line(number: u32) -> ScriptFault
    ensures { result ≡ ScriptFault.BadLine number }
{
    ScriptFault::BadLine(number)
}

/// The script that the first record begins, by what it asks for.
pub(crate) fn open_draft(
    alloc: Global,
    request: Option<ScriptRequest<'_>>,
    pool: u64,
) -> Result<Draft, ScriptFault>
    ensures { Opens pool (option_map request_view request.entry) result }
{
    let Some(ScriptRequest::Segment { size, page, id }) = request else {
        return Err(bad_line(1));
    };
    let Ok(shape) = Shape::of(u64::from(size), u64::from(page)) else {
        return Err(bad_line(1));
    };
    Ok(Draft {
        script: Script {
            shape,
            id,
            hists: Vec::new(alloc),
            calls: Vec::new(alloc),
        },
        names: HashMap::new(alloc),
        pool,
        taken: 0,
    })
}

impl Draft {
    // The index of the first `hist` record of a name.
    fn place(&self, number: u32, name: &[u8]) -> Result<u32, ScriptFault>
        requires { IsDraft self.now }
        ensures { FindsPlace (script_view self.now.script).hists name.now number result }
    {
        match self.names.get(name) {
            Some(place) => Ok(*place),
            None => Err(bad_line(number)),
        }
    }

    // Puts an `add` record.
    fn put_add(
        &mut self,
        number: u32,
        name: &[u8],
        value: i32,
        count: u32,
    ) -> Result<(), ScriptFault>
        requires { IsDraft self.old }
        ensures { Puts self.old self.new number (Some (Add name.now value count)) result }
    {
        let hist = self.place(number, name)?;
        if count == 0 {
            return Err(ScriptFault::ZeroCount(number));
        }
        if u64::from(count) > self.pool - self.taken {
            return Err(ScriptFault::NoUnits(number));
        }
        self.taken += u64::from(count);
        let kind = CallKind::Add { value, count };
        match self.script.calls.push(ScriptCall { hist, kind, number }) {
            Ok(()) => Ok(()),
            Err(_) => Err(ScriptFault::NoMemory),
        }
    }

    // Puts a `delta` record.
    fn put_delta(&mut self, number: u32, name: &[u8]) -> Result<(), ScriptFault>
        requires { IsDraft self.old }
        ensures { Puts self.old self.new number (Some (Delta name.now)) result }
    {
        let hist = self.place(number, name)?;
        let kind = CallKind::Delta;
        match self.script.calls.push(ScriptCall { hist, kind, number }) {
            Ok(()) => Ok(()),
            Err(_) => Err(ScriptFault::NoMemory),
        }
    }

    // Puts a `hist` record.
    fn put_hist(
        &mut self,
        alloc: Global,
        number: u32,
        name: &[u8],
        spec: Spec,
    ) -> Result<(), ScriptFault>
        requires draft { IsDraft self.old }
        requires few { length self.old.script.hists.items < number }
        ensures { Puts self.old self.new number (Some (Hist name.now spec)) result }
    {
        if !self.script.calls.is_empty() {
            return Err(bad_line(number));
        }
        let place = self.script.hists.len() as u32;
        insert_first(alloc, &mut self.names, name, place)?;
        let name = Vec::from_slice(alloc, name)?;
        match self.script.hists.push(ScriptHist { name, spec, number }) {
            Ok(()) => Ok(()),
            Err(_) => Err(ScriptFault::NoMemory),
        }
    }

    /// Puts a record that is not the first, by what it asks for.
    pub(crate) fn put(
        &mut self,
        alloc: Global,
        number: u32,
        request: Option<ScriptRequest<'_>>,
    ) -> Result<(), ScriptFault>
        requires draft { IsDraft self.old }
        requires few { length self.old.script.hists.items < number }
        ensures { Puts self.old self.new number (option_map request_view request.entry) result }
    {
        match request {
            Some(ScriptRequest::Add { name, value, count }) => self.put_add(
                number, name, value, count,
            ),
            Some(ScriptRequest::Delta { name }) => self.put_delta(number, name),
            Some(ScriptRequest::Hist { name, spec }) => self.put_hist(alloc, number, name, spec),
            Some(ScriptRequest::Segment { .. }) | None => Err(bad_line(number)),
        }
    }
}
