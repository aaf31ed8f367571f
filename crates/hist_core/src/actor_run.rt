//! One actor of a world, with the call that it runs.

use crate::add::{Add, AddStep};
use crate::batch::{Batch, BatchStep};
use crate::call::{Answer, Begun, Stepped};
use crate::call_entries::{batch_entries, entry_of, new_items};
use crate::delta_call::{DeltaCall, DeltaCallStep};
use crate::drawing::{draw, draw_sum};
use crate::entry::{Entry, Taken};
use crate::hist::{Hist, HistStep, KnownHist};
use crate::keys::key_of;
use crate::snapshot_call::{SnapshotCall, SnapshotCallStep};
use alloc_core::Attempt;
use alloc_core::event::set_bits;
use bucket_ranges::amount_of;
use segment_calls::{Asked, Delta, Refusal, Snapshot};
use segment_image::Shape;
use segment_image::layout::{FLAG_CORRUPT, FLAGS_WORD};
use std::alloc::{AllocError, Global};

/// A running call, with what it does next.
#[derive(Drop)]
pub(crate) enum Running {
    /// It sets the corrupt flag.
    SetCorrupt,
    /// It asks for a histogram.
    Hist(Hist),
    /// It counts a value.
    Add(Add),
    /// It takes a delta of a histogram. Until its first event it holds what it will be shown as.
    Delta(DeltaCall, Option<Taken>),
    /// It takes a snapshot of a histogram.
    Snapshot(SnapshotCall),
    /// It counts the items of a batch.
    Batch(Batch),
}

/// An actor: what it has counted and taken, and the call that it runs.
#[derive(Drop)]
pub(crate) struct ActorRun {
    // The entries of its ended calls, then those of the running one.
    pub(crate) entries: Vec<Entry>,
    // How many of these are of ended calls, and how many have begun.
    pub(crate) ended: usize,
    pub(crate) begun: usize,
    // What its deltas took; a running one is last, from its first event on. Until then there is room for it.
    pub(crate) taken: Vec<Taken>,
    // The histograms that its calls of `hist` returned. While one is running, there is room for one more.
    pub(crate) known: Vec<KnownHist>,
    pub(crate) running: Option<Running>,
}

impl ActorRun {
    ghost use Rattle.std.specs.Prelude.{◌≡◌, ◌≤◌, ◌<◌, ◌+◌, ◌^◌, ℕ, List, length, true, Option, Some, None, IsSome, IfSome, IfNone, IfOk, OnErr, vec_len, vec_capacity};
    ghost use mathlib.Core.Option.{some};
    ghost use Rattle.std.specs.List.{All, Contains};
    ghost use lib.ListN.{get_elem?};
    ghost use Rattle.hist_core.specs.declared.hist.KnownHist.{KnownHist};
    ghost use Rattle.hist_core.specs.declared.entry.Taken.{Taken};
    ghost use Rattle.hist_core.specs.declared.delta_call.DeltaCall.{DeltaCall};
    ghost use Rattle.hist_core.specs.declared.actor_run.Running.TheVariants as runs;
    ghost use Rattle.bucket_ranges.specs.Ranges.{AreBoundaries, boundaries_of};
    ghost use Rattle.bucket_ranges.specs.Spec.{spec_fault};
    ghost use Rattle.segment_image.specs.Shape.{Dimensions};
    ghost use Rattle.segment_machine.specs.declared.actor.Actor.{Actor};
    ghost use Rattle.hist_core.specs.declared.hist.HistStep.TheVariants.{Done};
    ghost use Rattle.hist_core.specs.Batch.{added_of};
    ghost use Rattle.hist_core.specs.Exchanging.{running_attempt};
    ghost use Rattle.hist_core.specs.Left.{RunningLowers};
    ghost use Rattle.hist_core.specs.Loading.{running_load};
    ghost use Rattle.hist_core.specs.StepsBy.{WalksInOrder};
    ghost use Rattle.hist_core.specs.ActorRun.{IsFreshRun, IsActorRunOf, IsSomeRun, NoneHasName, IsKnownAt, KnowsAt, IsKnownAnswer, BeginsHist, HasRoomForHist, AsksForOne, IsHistAnnounced, IsAddAnnounced, RunsAdd, BeginsAdd, IsBatchAnnounced, BeginsBatch, BeginsSnapshot, BeginsDelta, IsNowShown, TakesOfOne, HasEndedDelta, HasDraftRoom, IsDeltaAnnounced, LooksAtOne, IsSnapshotAnnounced, IsAsItWas, held_by, Advances, Answers};

    // An actor that has done nothing.
    pub(crate) fn new(alloc: Global) -> ActorRun
        ensures { IsFreshRun result }
    {
        ActorRun {
            entries: Vec::new(alloc),
            ended: 0,
            begun: 0,
            taken: Vec::new(alloc),
            known: Vec::new(alloc),
            running: None,
        }
    }

    // The place of the histogram of a name among those that it knows.
    pub(crate) fn place_of(&self, name: &[u8]) -> Option<usize>
        ensures found { IfSome result (λ i. IsKnownAt self.now.known.items i name.now) }
        ensures none { IfNone result (NoneHasName self.now.known.items name.now) }
    {
        for (i, known) in self.known.iter().enumerate() {
            if known.name.as_slice() == name {
                return Some(i);
            }
        }
        None
    }

    // What a `hist` of a histogram that it knows returns.
    fn known_answer(&self, i: usize, asked: &Asked) -> Answer
        requires { IsKnownAt self.now.known.items i asked.now.name.items }
        ensures { IsKnownAnswer self.now.known.items asked.now.name.items asked.now.spec result }
    {
        let known = &self.known[i];
        if known.spec.is_same(&asked.spec) {
            Answer::Hist(known.reference)
        } else {
            Answer::Refused(Refusal::OtherSpec)
        }
    }

    // The histogram that it knows at a place.
    fn known_at(&self, i: usize) -> &KnownHist
        requires { KnowsAt self.now i }
        ensures at { get_elem? self.now.known.items i ≡ some result.now }
        ensures lawful { spec_fault result.now.spec ≡ None }
        ensures ranges { result.now.ranges ≡ boundaries_of result.now.spec }
        ensures bounds { AreBoundaries result.now.ranges }
    {
        &self.known[i]
    }

    // It begins to ask for a histogram. If it knows one of that name, the call returns at once.
    pub(crate) fn begin_hist(&mut self, shape: Shape, asked: Asked) -> Result<Begun, AllocError>
        ensures { BeginsHist shape asked self.old self.new result }
    {
        if let Some(i) = self.place_of(&asked.name) {
            return Ok(Begun::Ended(self.known_answer(i, &asked)));
        }
        self.known.reserve(1)?;
        self.running = Some(Running::Hist(Hist::start(shape, asked)));
        Ok(Begun::Going)
    }

    // The units of the pool that its running call would give back.
    pub(crate) fn held(&self) -> u64
        ensures units { result ≡ held_by self.now.running }
        ensures few { result < 2 ^ 32 }
    {
        match &self.running {
            Some(Running::Add(add)) => u64::from(add.units),
            Some(Running::Batch(batch)) => u64::from(batch.left),
            Some(Running::SetCorrupt | Running::Hist(_) | Running::Delta(..) | Running::Snapshot(_))
            | None => 0,
        }
    }

    // It begins to count `units` units of a value in a histogram that it knows.
    pub(crate) fn begin_add(
        &mut self,
        alloc: Global,
        shape: Shape,
        version: u64,
        i: usize,
        value: i32,
        units: u32,
    ) -> Result<(), AllocError>
        requires { KnowsAt self.old i }
        ensures begins { IfOk result (λ _. (known : KnownHist) → get_elem? self.old.known.items i ≡ some known → BeginsAdd shape version known value units self.old self.new) }
        ensures fails { OnErr result (IsAsItWas self.old self.new) }
    {
        let known = self.known_at(i);
        let amount = amount_of(&known.ranges, value, units);
        let add = Add::start(shape, version, known, value, units, amount);
        let entry = entry_of(alloc, known, key_of(&known.ranges, value), units, amount)?;
        self.entries.push(entry)?;
        self.running = Some(Running::Add(add));
        Ok(())
    }

    // It begins to count the items of a batch in a histogram that it knows, and then to add its sum.
    pub(crate) fn begin_batch(
        &mut self,
        alloc: Global,
        shape: Shape,
        version: u64,
        i: usize,
        items: &[(i32, u32)],
        sum: i64,
        cost: u32,
    ) -> Result<(), AllocError>
        requires { KnowsAt self.old i }
        ensures begins { IfOk result (λ _. (known : KnownHist) → get_elem? self.old.known.items i ≡ some known → BeginsBatch shape version known items.now sum cost self.old self.new) }
        ensures fails { OnErr result (IsAsItWas self.old self.new) }
    {
        let known = self.known_at(i);
        let batch = Batch {
            histogram: known.reference,
            items: new_items(alloc, shape, version, known, items)?,
            added: 0,
            sum,
            cost,
            left: cost,
        };
        let mut entries = batch_entries(alloc, known, items, sum)?;
        self.entries.append(&mut entries)?;
        self.running = Some(Running::Batch(batch));
        Ok(())
    }

    // How a step of its `add` changes it.
    fn after_add(&mut self, said: AddStep) -> Stepped
        requires within { self.old.ended ≤ vec_len self.old.entries }
        ensures { IsAddAnnounced self.old said self.new result }
    {
        self.begun = self.entries.len();
        match said {
            AddStep::More => Stepped::More,
            AddStep::Done => {
                self.ended = self.entries.len();
                self.running = None;
                Stepped::Done(Answer::Added)
            }
            AddStep::Refused(why) => {
                self.entries.truncate(self.ended);
                self.begun = self.ended;
                self.running = None;
                Stepped::Done(Answer::Refused(why))
            }
        }
    }

    // How a step of its `batch` changes it.
    fn after_batch(&mut self, said: BatchStep) -> Stepped
        requires within { self.old.ended + added_of said ≤ vec_len self.old.entries }
        ensures { IsBatchAnnounced self.old said self.new result }
    {
        self.begun = self.entries.len();
        match said {
            BatchStep::More => Stepped::More,
            BatchStep::Done => {
                self.ended = self.begun;
                self.running = None;
                Stepped::Done(Answer::Added)
            }
            BatchStep::Refused(refusal) => {
                self.ended += refusal.added;
                self.entries.truncate(self.ended);
                self.begun = self.ended;
                self.running = None;
                Stepped::Done(Answer::BatchRefused(refusal))
            }
        }
    }

    // The histogram that its `hist` asked for is known, and the call has ended.
    fn know(&mut self) -> Stepped
        requires room { HasRoomForHist self.old.running (vec_len self.old.known) (vec_capacity self.old.known) }
        requires asks { AsksForOne self.old.running }
        ensures { IsHistAnnounced self.old Done self.new result }
    {
        let Some(Running::Hist(hist)) = self.running.take() else {
            return Stepped::More;
        };
        let Hist {
            asked: KnownHist {
                name,
                spec,
                ranges,
                ..
            },
            reference,
            ..
        } = hist;
        self.known
            .push(KnownHist {
                name,
                spec,
                ranges,
                reference,
            })
            .unwrap();
        Stepped::Done(Answer::Hist(reference))
    }

    // How a step of its `hist` changes it.
    fn after_hist(&mut self, said: HistStep) -> Stepped
        requires room { HasRoomForHist self.old.running (vec_len self.old.known) (vec_capacity self.old.known) }
        requires asks { AsksForOne self.old.running }
        ensures { IsHistAnnounced self.old said self.new result }
    {
        match said {
            HistStep::More => Stepped::More,
            HistStep::Done => self.know(),
            HistStep::Refused(why) => {
                self.running = None;
                Stepped::Done(Answer::Refused(why))
            }
        }
    }

    // It begins to take a delta of a histogram that it knows.
    pub(crate) fn begin_delta(
        &mut self,
        alloc: Global,
        shape: Shape,
        version: u64,
        i: usize,
    ) -> Result<(), AllocError>
        requires { KnowsAt self.old i }
        ensures begins { IfOk result (λ _. (known : KnownHist) → get_elem? self.old.known.items i ≡ some known → BeginsDelta shape version known self.old self.new) }
        ensures fails { OnErr result (IsAsItWas self.old self.new) }
    {
        let known = self.known_at(i);
        let delta_call = DeltaCall::start(alloc, shape, version, known)?;
        let fresh = Taken {
            name: Vec::from_slice(alloc, &known.name)?,
            counts: Vec::with_capacity(alloc, delta_call.counts.capacity())?,
            sum: 0,
        };
        self.taken.reserve(1)?;
        self.running = Some(Running::Delta(delta_call, Some(fresh)));
        Ok(())
    }

    // From its first event on, its running delta is the last of what its deltas took.
    fn show(&mut self)
        requires room { (delta_call : DeltaCall) (fresh : Taken) → self.old.running ≡ Some (runs.Delta delta_call (Some fresh)) → vec_len self.old.taken < vec_capacity self.old.taken }
        ensures { (delta_call : DeltaCall) (fresh : Option Taken) → self.old.running ≡ Some (runs.Delta delta_call fresh) → IsNowShown delta_call fresh self.old self.new }
    {
        if let Some(Running::Delta(_, fresh)) = &mut self.running {
            if let Some(taken) = fresh.take() {
                self.taken.push_reserved(taken);
            }
        }
    }

    // Its delta has ended, with this of the sum, and returns what it listed.
    fn end_delta(&mut self, sum: i64) -> Stepped
        requires takes { TakesOfOne self.old.running }
        requires some { 0 < vec_len self.old.taken }
        ensures { (delta_call : DeltaCall) (fresh : Option Taken) → self.old.running ≡ Some (runs.Delta delta_call fresh) → HasEndedDelta delta_call sum self.old self.new result }
    {
        draw_sum(&mut self.taken, sum);
        let Some(Running::Delta(delta_call, _)) = self.running.take() else {
            return Stepped::More;
        };
        let DeltaCall { counts, .. } = delta_call;
        Stepped::Done(Answer::Delta(Delta { counts, sum }))
    }

    // How a step of its `delta` changes it.
    fn after_delta(&mut self, said: DeltaCallStep) -> Stepped
        requires place { HasDraftRoom said self.old.running self.old.taken }
        ensures { (delta_call : DeltaCall) (fresh : Option Taken) → self.old.running ≡ Some (runs.Delta delta_call fresh) → IsDeltaAnnounced delta_call fresh self.old said self.new result }
    {
        self.show();
        match said {
            DeltaCallStep::More => Stepped::More,
            DeltaCallStep::Took(key, units) => {
                draw(&mut self.taken, key, units);
                Stepped::More
            }
            DeltaCallStep::Done(sum) => self.end_delta(sum),
        }
    }

    // It begins to take a snapshot of a histogram that it knows.
    pub(crate) fn begin_snapshot(
        &mut self,
        alloc: Global,
        shape: Shape,
        version: u64,
        i: usize,
    ) -> Result<(), AllocError>
        requires { KnowsAt self.old i }
        ensures begins { IfOk result (λ _. (known : KnownHist) → get_elem? self.old.known.items i ≡ some known → BeginsSnapshot shape version known self.old self.new) }
        ensures fails { OnErr result (self.new ≡ self.old) }
    {
        let snapshot_call = SnapshotCall::start(alloc, shape, version, self.known_at(i))?;
        self.running = Some(Running::Snapshot(snapshot_call));
        Ok(())
    }

    // How a step of its `snapshot` changes it.
    fn after_snapshot(&mut self, said: SnapshotCallStep) -> Stepped
        requires looks { LooksAtOne self.old.running }
        ensures { IsSnapshotAnnounced self.old said self.new result }
    {
        let SnapshotCallStep::Done { sum, redundant } = said else {
            return Stepped::More;
        };
        let Some(Running::Snapshot(snapshot_call)) = self.running.take() else {
            return Stepped::More;
        };
        let SnapshotCall { totals, .. } = snapshot_call;
        Stepped::Done(Answer::Snapshot(Snapshot {
            counts: totals,
            sum,
            redundant,
        }))
    }

    // The exchange that the next event of the running call is, if it is one.
    pub(crate) fn next_exchange(&self) -> Option<Attempt>
        ensures { result ≡ running_attempt self.now.running }
    {
        match &self.running {
            Some(Running::Hist(hist)) => hist.next_exchange(),
            Some(Running::Add(add)) => add.next_exchange(),
            Some(Running::Batch(batch)) => batch.next_exchange(),
            Some(Running::SetCorrupt | Running::Delta(..) | Running::Snapshot(_)) | None => None,
        }
    }

    // The word that the next event of the running call loads, if it is a load.
    pub(crate) fn next_load(&self) -> Option<usize>
        ensures { result ≡ running_load self.now.running }
    {
        match &self.running {
            Some(Running::Hist(hist)) => hist.next_load(),
            Some(Running::Add(add)) => add.next_load(),
            Some(Running::Batch(batch)) => batch.next_load(),
            Some(Running::Delta(delta_call, _)) => delta_call.next_load(),
            Some(Running::Snapshot(snapshot_call)) => snapshot_call.next_load(),
            Some(Running::SetCorrupt) | None => None,
        }
    }

    // Performs the next event of the running call.
    pub(crate) fn advance(&mut self, words: &mut [u64]) -> Stepped
        requires runs { IsSome self.old.running }
        requires stands { ∥ IsSomeRun (length words.old) self.old ∥₁ }
        ensures advances { (shape : Dimensions) (version : ℕ) (a : Actor) → shape.size ≡ length words.old → WalksInOrder a → IsActorRunOf shape version self.old a → Advances shape version self.old words.old self.new words.new result a }
        ensures answers { Answers self.old words.old self.new words.new result }
        ensures less { RunningLowers self.old.running words.old self.new.running words.new result }
    {
        match &mut self.running {
            Some(Running::SetCorrupt) => {
                set_bits(words, FLAGS_WORD, FLAG_CORRUPT);
                self.running = None;
                Stepped::Done(Answer::Flagged)
            }
            Some(Running::Hist(hist)) => {
                let said = hist.step(words);
                self.after_hist(said)
            }
            Some(Running::Add(add)) => {
                let said = add.step(words);
                self.after_add(said)
            }
            Some(Running::Delta(delta_call, _)) => {
                let said = delta_call.step(words);
                self.after_delta(said)
            }
            Some(Running::Snapshot(snapshot_call)) => {
                let said = snapshot_call.step(words);
                self.after_snapshot(said)
            }
            Some(Running::Batch(batch)) => {
                let said = batch.step(words);
                self.after_batch(said)
            }
            None => Stepped::More,
        }
    }
}
