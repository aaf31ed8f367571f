//! The words of a segment, and the actors that call on it.

use crate::actor_run::{ActorRun, Running};
use crate::call::{Answer, Begun, Stepped};
use crate::call_entries::{are_some, batch_cost};
use crate::fault::WorldFault;
use bucket_ranges::Spec;
use bucket_ranges::limits::MAX_UNITS;
use image_adoption::Adoptable;
use segment_calls::{Asked, BatchRefusal, Call, Refusal};
use segment_image::{Shape, header, ready_header};
use std::alloc::{AllocError, Global};

/// The words of a segment, and the actors that call on it.
#[derive(Drop)]
pub(crate) struct WorldState {
    pub(crate) alloc: Global,
    pub(crate) shape: Shape,
    pub(crate) version: u64,
    pub(crate) words: Vec<u64>,
    pub(crate) actor_runs: Vec<ActorRun>,
    // The units that no ended call has spent and no running call holds.
    pub(crate) units: u64,
}

ghost use Rattle.std.specs.Prelude.{◌≡◌, IfOk, All, vec_len};
ghost use Rattle.alloc_core.specs.Layout.{render, fresh};
ghost use Rattle.hist_core.specs.ActorRun.{IsFreshRun};
ghost use Rattle.hist_core.specs.declared.call.Answer.TheVariants.{BatchRefused};

// The words of a new segment.
fn new_words(alloc: Global, shape: Shape, version: u64, id: u64) -> Result<Vec<u64>, AllocError>
    ensures { IfOk result (λ words. words.items ≡ render shape (fresh shape version id)) }
{
    let size = shape.size() as usize;
    let mut words = Vec::with_capacity(alloc, size)?;
    words.extend_from_slice(&ready_header(shape, version, id))?;
    words.resize(size, 0)?;
    Ok(words)
}

// This many actors that have done nothing.
fn new_actor_runs(alloc: Global, actors: usize) -> Result<Vec<ActorRun>, AllocError>
    ensures count { IfOk result (λ actor_runs. vec_len actor_runs ≡ actors) }
    ensures new { IfOk result (λ actor_runs. All IsFreshRun actor_runs.items) }
{
    let mut actor_runs = Vec::with_capacity(alloc, actors)?;
    for _ in 0..actors {
        actor_runs.push(ActorRun::new(alloc))?;
    }
    Ok(actor_runs)
}

// The answer of a batch of which nothing is counted.
fn refused_batch(why: Refusal) -> Answer
    ensures { result ≡ BatchRefused (record { added = 0; why = why }) }
{
    Answer::BatchRefused(BatchRefusal { added: 0, why })
}

impl WorldState {
    ghost use Rattle.std.specs.Prelude.{◌<◌, ◌≤◌, Ok, Err, IfNone, IfSome, IsOk, MatchOption, ⊤};
    ghost use mathlib.Core.Option.{some, none};
    ghost use Rattle.segment_image.specs.Checks.{first_fault};
    ghost use Rattle.segment_machine.specs.State.{State};
    ghost use Rattle.image_adoption.specs.Checking.{IsAdoption};
    ghost use Rattle.hist_core.specs.Start.{Start};
    ghost use Rattle.hist_core.specs.WorldState.{IsAdoptedWorldState, IsNewWorldState, IsReachable, IsReachedAs, StepsTo, IsBusy, KnowsHistAt, IsResting, IsThere, OthersStay, HistBegins, AddBegins, BatchBegins, DeltaBegins, SnapshotBegins, SetCorruptBegins, Says};
    ghost use Rattle.hist_core.specs.Left.{LeavesLess};
    ghost use Rattle.hist_core.specs.World.{BeginsCall, BeginSays, TakesMemory, name_checks, named_by, rest_checks};

    // A new segment with this many actors.
    pub(crate) fn new(
        alloc: Global,
        shape: Shape,
        version: u64,
        id: u64,
        actors: usize,
    ) -> Result<WorldState, AllocError>
        ensures { IfOk result (λ world_state. IsNewWorldState shape version id actors world_state) }
    {
        Ok(WorldState {
            alloc,
            shape,
            version,
            words: new_words(alloc, shape, version, id)?,
            actor_runs: new_actor_runs(alloc, actors)?,
            units: MAX_UNITS,
        })
    }

    // An image that may be adopted, with this many actors.
    pub(crate) fn adopt(
        alloc: Global,
        words: &[u64],
        adoptable: &Adoptable,
        actors: usize,
    ) -> Result<WorldState, AllocError>
        requires adoption { IsAdoption words.now 0 adoptable.now }
        ensures { IfOk result (λ world_state. IsAdoptedWorldState words.now actors world_state) }
    {
        let Ok(head) = header(words) else {
            unreachable!()
        };
        Ok(WorldState {
            alloc,
            shape: head.shape,
            version: head.version,
            words: Vec::from_slice(alloc, words)?,
            actor_runs: new_actor_runs(alloc, actors)?,
            units: MAX_UNITS - adoptable.used,
        })
    }

    // An actor that is there.
    pub(crate) fn run(&self, actor: usize) -> Option<&ActorRun>
        ensures there { IfSome result (λ actor_run. IsThere self.now actor actor_run.now) }
        ensures none { IfNone result (vec_len self.now.actor_runs ≤ actor) }
    {
        if actor >= self.actor_runs.len() {
            return None;
        }
        Some(&self.actor_runs[actor])
    }

    // An actor that is there and rests.
    fn resting(&self, actor: usize) -> Result<&ActorRun, WorldFault>
        ensures faults { MatchOption (first_fault (rest_checks self.now actor)) (IsOk result) (λ fault. result ≡ Err fault) }
        ensures rests { IfOk result (λ actor_run. IsResting self.now actor actor_run.now) }
    {
        let Some(actor_run) = self.run(actor) else {
            return Err(WorldFault::NoActor);
        };
        if actor_run.running.is_some() {
            return Err(WorldFault::Busy);
        }
        Ok(actor_run)
    }

    // The place of the histogram of a name among those that an actor knows, which is there and rests.
    fn known_place(&self, actor: usize, name: &[u8]) -> Result<usize, WorldFault>
        ensures faults { MatchOption (first_fault (name_checks self.now actor (some name.now))) (IsOk result) (λ fault. result ≡ Err fault) }
        ensures ready { IfOk result (KnowsHistAt self.now actor name.now) }
    {
        let Some(place) = self.resting(actor)?.place_of(name) else {
            return Err(WorldFault::Unknown);
        };
        Ok(place)
    }

    // An actor begins a call, or the call returns at once.
    pub(crate) fn begin(&mut self, actor: usize, call: &Call) -> Result<Begun, WorldFault>
        requires reached { ∥ IsReachable self.old ∥₁ }
        ensures { BeginsCall actor (named_by call.now) (TakesMemory call.now) (BeginSays actor call.now self.old self.new) self.old result self.new }
    {
        match call {
            Call::Hist(name, spec) => self.begin_hist(actor, name, spec),
            Call::Add(name, value, count) => self.begin_add(actor, name, *value, *count),
            Call::Delta(name) => self.begin_delta(actor, name),
            Call::Snapshot(name) => self.begin_snapshot(actor, name),
            Call::Batch(name, items, sum) => self.begin_batch(actor, name, items, *sum),
            Call::SetCorrupt => self.begin_set_corrupt(actor),
        }
    }

    // It sets the corrupt flag.
    fn begin_set_corrupt(&mut self, actor: usize) -> Result<Begun, WorldFault>
        requires reached { ∥ IsReachable self.old ∥₁ }
        ensures { BeginsCall actor none ⊥ (SetCorruptBegins actor self.new) self.old result self.new }
    {
        self.resting(actor)?;
        let actor_run = &mut self.actor_runs[actor];
        actor_run.running = Some(Running::SetCorrupt);
        Ok(Begun::Going)
    }

    // It asks for a histogram of a name and a spec.
    fn begin_hist(&mut self, actor: usize, name: &[u8], spec: &Spec) -> Result<Begun, WorldFault>
        requires reached { ∥ IsReachable self.old ∥₁ }
        ensures { BeginsCall actor none ⊤ (λ said. HistBegins actor name.now spec.now self.old self.new (Ok said)) self.old result self.new }
    {
        self.resting(actor)?;
        match Asked::of(self.alloc, self.shape, name, spec) {
            Ok(asked) => {
                let actor_run = &mut self.actor_runs[actor];
                Ok(actor_run.begin_hist(self.shape, asked)?)
            }
            Err(Refusal::NoMemory) => Err(WorldFault::NoMemory),
            Err(why) => Ok(Begun::Ended(Answer::Refused(why))),
        }
    }

    // It counts `count` units of a value in a histogram that it knows. They are taken from the pool.
    fn begin_add(
        &mut self,
        actor: usize,
        name: &[u8],
        value: i32,
        count: u32,
    ) -> Result<Begun, WorldFault>
        requires reached { ∥ IsReachable self.old ∥₁ }
        ensures { BeginsCall actor (some name.now) ⊤ (AddBegins actor name.now value count self.old self.new) self.old result self.new }
    {
        let place = self.known_place(actor, name)?;
        if count == 0 {
            return Ok(Begun::Ended(Answer::Refused(Refusal::ZeroCount)));
        }
        if u64::from(count) > self.units {
            return Ok(Begun::Ended(Answer::Refused(Refusal::NoUnits)));
        }
        let actor_run = &mut self.actor_runs[actor];
        actor_run.begin_add(self.alloc, self.shape, self.version, place, value, count)?;
        self.units -= u64::from(count);
        Ok(Begun::Going)
    }

    // It counts the items of a batch in a histogram that it knows. Their units are taken from the pool.
    fn begin_batch(
        &mut self,
        actor: usize,
        name: &[u8],
        items: &[(i32, u32)],
        sum: i64,
    ) -> Result<Begun, WorldFault>
        requires reached { ∥ IsReachable self.old ∥₁ }
        ensures { BeginsCall actor (some name.now) ⊤ (BatchBegins actor name.now items.now sum self.old self.new) self.old result self.new }
    {
        let place = self.known_place(actor, name)?;
        if !are_some(items) {
            return Ok(Begun::Ended(refused_batch(Refusal::ZeroCount)));
        }
        let cost = batch_cost(items, sum);
        if cost > self.units {
            return Ok(Begun::Ended(refused_batch(Refusal::NoUnits)));
        }
        if cost == 0 {
            return Ok(Begun::Ended(Answer::Added));
        }
        let actor_run = &mut self.actor_runs[actor];
        actor_run.begin_batch(
            self.alloc,
            self.shape,
            self.version,
            place,
            items,
            sum,
            cost as u32,
        )?;
        self.units -= cost;
        Ok(Begun::Going)
    }

    // It takes a snapshot of a histogram that it knows.
    fn begin_snapshot(&mut self, actor: usize, name: &[u8]) -> Result<Begun, WorldFault>
        requires reached { ∥ IsReachable self.old ∥₁ }
        ensures { BeginsCall actor (some name.now) ⊤ (SnapshotBegins actor name.now self.old self.new) self.old result self.new }
    {
        let place = self.known_place(actor, name)?;
        let actor_run = &mut self.actor_runs[actor];
        actor_run.begin_snapshot(self.alloc, self.shape, self.version, place)?;
        Ok(Begun::Going)
    }

    // It takes a delta of a histogram that it knows.
    fn begin_delta(&mut self, actor: usize, name: &[u8]) -> Result<Begun, WorldFault>
        requires reached { ∥ IsReachable self.old ∥₁ }
        ensures { BeginsCall actor (some name.now) ⊤ (DeltaBegins actor name.now self.old self.new) self.old result self.new }
    {
        let place = self.known_place(actor, name)?;
        let actor_run = &mut self.actor_runs[actor];
        actor_run.begin_delta(self.alloc, self.shape, self.version, place)?;
        Ok(Begun::Going)
    }

    // An actor performs the next event of its call.
    pub(crate) fn step(&mut self, actor: usize) -> Stepped
        requires reached { ∥ IsReachable self.old ∥₁ }
        requires near { actor < vec_len self.old.actor_runs }
        requires busy { IsBusy self.old actor }
        ensures steps { (start : Start) (state : State) → IsReachedAs start self.old state → StepsTo self.old actor start state self.new result }
        ensures others { OthersStay actor self.old self.new }
        ensures says { Says actor self.old self.new result }
        ensures less { LeavesLess actor self.old self.new result }
    {
        let actor_run = &mut self.actor_runs[actor];
        let held = actor_run.held();
        let said = actor_run.advance(&mut self.words);
        self.units += said.returned(held);
        said
    }
}
