//! A segment and the actors that call on it, as plain data: one event a step.

use crate::call::{Begun, Move, Stepped};
use crate::entry::{Entry, Taken};
use crate::fault::WorldFault;
use crate::world_state::WorldState;
use alloc_core::Attempt;
use image_adoption::{Adoptable, check};
use segment_calls::Call;
use segment_image::Shape;
use segment_image::layout::{VERSION_FROZEN, VERSION_MOVING};
use std::alloc::{AllocError, Global};

/// The most actors of a world.
pub const MAX_ACTORS: usize = 64;

/// A segment with its actors. Each actor runs at most one call, and each step is one event of it. So a world can be
/// looked at after any event of any interleaving: what it shows is a state that the machine reaches.
#[derive(Drop)]
pub struct World {
    world_state: WorldState,
    ghost reached: { ∥ IsReachable world_state ∥₁ },
}

ghost use Rattle.hist_core.specs.WorldState.{IsReachable};

impl World {
    ghost use Rattle.std.specs.Prelude.{◌≡◌, ◌≢◌, ◌≤◌, ◌<◌, ◌⊎◌, ℕ, true, Ok, Err, OnOk, OnErr, IfOk, IfErr, IsOk, MatchOption, MatchResult, vec_len};
    ghost use Rattle.std.specs.List.{All};
    ghost use Rattle.segment_image.specs.Checks.{first_fault};
    ghost use Rattle.segment_image.specs.Head.{head_of, header_of};
    ghost use Rattle.alloc_core.specs.Layout.{IsShape};
    ghost use Rattle.segment_machine.specs.State.{State};
    ghost use Rattle.segment_promises.specs.Calls.{AreUnits};
    ghost use Rattle.image_adoption.specs.Checking.{IsAdoption};
    ghost use Rattle.hist_core.specs.Start.{Start};
    ghost use Rattle.hist_core.specs.WorldState.{IsReachedAs, IsReachedFromImage, IsReachedFromNew, IsAdoptedWorldState, IsNewWorldState, BeginsFrom, HoldsNoPointer, StepsTo, IsAsBefore, OthersStay, Says, IsConsistentAs, ReadsBack, MayBeAdopted, AreKnownFirst};
    ghost use Rattle.hist_core.specs.Transit.{MoveTheirOwn};
    ghost use Rattle.hist_core.specs.Exchanging.{next_attempt};
    ghost use Rattle.hist_core.specs.Left.{LeavesLess};
    ghost use Rattle.hist_core.specs.Loading.{next_load};
    ghost use Rattle.hist_core.specs.Moves.{Makes, MakesAll, FaultsAt, StopsAtMove};
    ghost use Rattle.hist_core.specs.World.{actor_checks, world_checks, IsAdoptFault, begin_checks, TakesMemory, BeginSays, step_checks, ChangesOneWord, ended_of, begun_of, taken_of};

    /// Returns a world with a new segment of `size` words in pages of `page` words, of version 1 or 2, and `actors`
    /// actors that have done nothing. Or the first fault: `BadShape` if page or size is not valid, the actors are not 1
    /// to 64, or the version is another; or `NoMemory` [world]. The machine reaches this world from a new segment
    /// [starts].
    pub fn new(
        alloc: Global,
        size: u64,
        page: u64,
        id: u64,
        actors: usize,
        version: u64,
    ) -> Result<World, WorldFault>
        ensures world { MatchOption (first_fault (world_checks size page actors version)) (MatchResult result (λ world. IsNewWorldState (record { size = size; page = page }) version id actors world.world_state) (λ fault. fault ≡ WorldFault.NoMemory)) (λ fault. result ≡ Err fault) }
        ensures starts { IfOk result (λ world. ∥ IsReachedFromNew (record { size = size; page = page }) version id world.world_state ∥₁) }
    {
        let Ok(shape) = Shape::of(size, page) else {
            return Err(WorldFault::BadShape);
        };
        if actors == 0 || actors > MAX_ACTORS {
            return Err(WorldFault::BadShape);
        }
        if version != VERSION_MOVING && version != VERSION_FROZEN {
            return Err(WorldFault::BadShape);
        }
        World::open(alloc, shape, id, actors, version).map_err(|_| WorldFault::NoMemory)
    }

    // The world of a new segment of this shape.
    fn open(
        alloc: Global,
        shape: Shape,
        id: u64,
        actors: usize,
        version: u64,
    ) -> Result<World, AllocError>
        requires shaped { IsShape shape }
        requires few { actors ≤ 64 }
        requires versioned { (version ≡ 1) ⊎ (version ≡ 2) }
        ensures world { IfOk result (λ world. IsNewWorldState shape version id actors world.world_state) }
        ensures starts { IfOk result (λ world. ∥ IsReachedFromNew shape version id world.world_state ∥₁) }
    {
        Ok(World {
            world_state: WorldState::new(alloc, shape, version, id, actors)?,
        })
    }

    /// Returns a world that continues from the words of an image, with `actors` actors that have done nothing and know
    /// no histogram. Its names, counts, sums, marks and free space are the image's, as are its shape and its version,
    /// and its pool has the units that the image has not used. Or the first fault: `BadShape` if the actors are not 1
    /// to 64; then `Adopt` with the first fault of the image, in the order of `AdoptFault`; or `NoMemory`, also if
    /// memory ran out before all was checked [world]. The machine reaches this world from the image: its opener stands
    /// for all that the image counts [starts].
    ///
    /// - `words`: those of an image of version 2. They are copied, and may be any.
    pub fn adopt(alloc: Global, words: &[u64], actors: usize) -> Result<World, WorldFault>
        ensures world { MatchOption (first_fault (actor_checks actors)) (MatchResult result (λ world. IsAdoptedWorldState words.now actors world.world_state) (IsAdoptFault words.now)) (λ fault. result ≡ Err fault) }
        ensures starts { IfOk result (λ world. ∥ IsReachedFromImage words.now world.world_state ∥₁) }
    {
        if actors == 0 || actors > MAX_ACTORS {
            return Err(WorldFault::BadShape);
        }
        let adoptable = check(alloc, words, 0)?;
        World::open_image(alloc, words, &adoptable, actors).map_err(|_| WorldFault::NoMemory)
    }

    // The world that continues from an image.
    fn open_image(
        alloc: Global,
        words: &[u64],
        adoptable: &Adoptable,
        actors: usize,
    ) -> Result<World, AllocError>
        requires adoption { IsAdoption words.now 0 adoptable.now }
        requires few { actors ≤ 64 }
        ensures world { IfOk result (λ world. IsAdoptedWorldState words.now actors world.world_state) }
        ensures starts { IfOk result (λ world. ∥ IsReachedFromImage words.now world.world_state ∥₁) }
    {
        Ok(World {
            world_state: WorldState::adopt(alloc, words, adoptable, actors)?,
        })
    }

    /// Returns the words of the segment [words]. Their header has no fault [header].
    ///
    /// - The machine reaches the world from a new segment, or from an image that may be adopted; the opener's entries,
    ///   deltas and answers are still those of the start [reached].
    /// - Each state that the words stand for is consistent in all eight parts, relative to the words of the start
    ///   [consistent].
    /// - The words read back as exactly the published histograms, each once. No bucket holds a unit that was not
    ///   begun. A bucket holds every unit of ended calls, except, in version 1, units that are just being moved out
    ///   of the single word. What an image counted is there too: its units, sums, marks and redundant counts continue
    ///   [reads].
    /// - In version 2, unless the corrupt flag is set, the words may be adopted: any stop can be continued by
    ///   [`World::adopt`] [adoptable].
    /// - A histogram that an actor between two calls knows is the first of its name on the list, with the same spec
    ///   [names].
    /// - An actor that has disabled a single word and has its units to move runs an `Add` or a `Batch` of that
    ///   histogram [moves].
    pub fn words(&self) -> &[u64]
        ensures words { result.now ≡ self.now.world_state.words.items }
        ensures header { header_of self.now.world_state.words.items ≡ Ok (head_of self.now.world_state.words.items) }
        ensures reached { ∥ IsReachable self.now.world_state ∥₁ }
        ensures consistent { IsConsistentAs self.now.world_state }
        ensures reads { ReadsBack self.now.world_state }
        ensures adoptable { MayBeAdopted self.now.world_state }
        ensures names { AreKnownFirst self.now.world_state }
        ensures moves { MoveTheirOwn self.now.world_state }
    {
        self.world_state.words.as_slice()
    }

    /// Returns the entries of an actor's ended calls and, from its first event on, those of its running call. An
    /// actor that is not there has none.
    pub fn begun(&self, actor: usize) -> &[Entry]
        ensures { result.now ≡ begun_of self.now.world_state actor }
    {
        let Some(actor_run) = self.world_state.run(actor) else {
            return &[];
        };
        &actor_run.entries[..actor_run.begun]
    }

    /// Returns the entries of an actor's ended calls, in order. An actor that is not there has none.
    pub fn ended(&self, actor: usize) -> &[Entry]
        ensures { result.now ≡ ended_of self.now.world_state actor }
    {
        let Some(actor_run) = self.world_state.run(actor) else {
            return &[];
        };
        &actor_run.entries[..actor_run.ended]
    }

    /// An actor begins a call, which asks for a histogram, counts a value or a batch, takes a delta or a snapshot of a
    /// histogram, or marks the segment as corrupt.
    ///
    /// `NoActor` if there is no such actor, then `Busy` if a call of it is running, then `Unknown` if the call is of a
    /// histogram and no `Hist` of the actor returned one of that name; only for these causes. The one other fault is
    /// `NoMemory`, and never of a `SetCorrupt` [faults]. After a fault the world is unchanged; only its lists may have
    /// more room [fault].
    ///
    /// No word of the segment changes [words], and no other actor [others]. The world stands for the same state as
    /// before, or for one in which the opener has lent the actor the units of its call [begins]. The actor holds no
    /// free pointer: one that its call holds later was loaded by that call [loads].
    ///
    /// What a begin says [says]:
    ///
    /// - A `Hist` runs. Or it has ended, refused for `BadName`, `BadSpec` or `TooLarge`; or, if none of these holds,
    ///   with what the actor knows of the name: its reference, or `OtherSpec`.
    /// - An `Add` runs: its entry is pending, nothing of it has begun, and its units are out of the pool. Or it is
    ///   refused: `ZeroCount` if it has no units, `NoUnits` if it has more than the pool.
    /// - A `Batch` runs in the same way, with an entry for each item and one for the sum unless that is 0, or is
    ///   refused in the same way, with no item counted. It costs the units of its items, or the size of its sum divided
    ///   by 2^31 and rounded up, if that is more. A batch of no items and sum 0 has ended, `Added`, and no other has.
    /// - A `Delta` and a `Snapshot` run, with a histogram of the name that the actor knows. A snapshot has done no
    ///   event yet.
    /// - A `SetCorrupt` runs, and never returns at once.
    ///
    /// All actors draw on one pool, of 4,294,967,295 units in a new segment: a call takes its units when it begins, and
    /// if it is refused later, it gives back those that it has not spent.
    pub fn begin(&mut self, actor: usize, call: &Call) -> Result<Begun, WorldFault>
        ensures faults { MatchOption (first_fault (begin_checks self.old.world_state actor call.now)) (IfErr result (λ fault. (fault ≡ WorldFault.NoMemory) × TakesMemory call.now)) (λ fault. result ≡ Err fault) }
        ensures fault { OnErr result (IsAsBefore self.old.world_state self.new.world_state) }
        ensures words { self.new.world_state.words.items ≡ self.old.world_state.words.items }
        ensures begins { (start : Start) (state : State) → IsReachedAs start self.old.world_state state → BeginsFrom start state actor self.new.world_state }
        ensures others { OthersStay actor self.old.world_state self.new.world_state }
        ensures loads { OnOk result (HoldsNoPointer actor self.old.world_state) }
        ensures says { IfOk result (λ said. BeginSays actor call.now self.old.world_state self.new.world_state said) }
    {
        self.world_state.begin(actor, call)
    }

    /// Returns the exchange that the next event of an actor's call is, if it is one: its word, and the value that it
    /// expects there. It follows from the stage of the call and, in an allocation or a publish, from their own next
    /// event. An actor that is not there, or that runs no call, has none.
    pub fn next_exchange(&self, actor: usize) -> Option<Attempt>
        ensures { result ≡ next_attempt self.now.world_state actor }
    {
        self.world_state.run(actor)?.next_exchange()
    }

    /// Returns the word that the next event of an actor's call loads, if it is a load. It follows from the stage of the
    /// call and, in an allocation, a publish or a walk, from their own next event. An actor that is not there, or that
    /// runs no call, has none.
    pub fn next_load(&self, actor: usize) -> Option<usize>
        ensures { result ≡ next_load self.now.world_state actor }
    {
        self.world_state.run(actor)?.next_load()
    }

    /// An actor performs the next event of its call. `NoActor` if there is no such actor, then `Idle` if no call of it
    /// is running, only for these causes; else it succeeds [faults]. After a fault the world is unchanged [fault]. It
    /// takes no memory.
    ///
    /// It is one event of the machine; if the call was refused, the units that it has not spent go back to the pool
    /// after that event. What the call returns is as promised [steps]:
    ///
    /// - A `Snapshot` has what the actor saw since the first event of the call. That event sets where this begins, and
    ///   no later event of the call changes it. The values of a sparse histogram ascend, each with a count above 0.
    /// - A `Delta` took all that the actor saw since the call began. Of each key the snapshot, or all deltas
    ///   together, have at least what the actor had accepted and seen before, with the one exception of version 1
    ///   that `deltas_take_accepted` names.
    /// - If the actor holds a free pointer after the event, it held the same one before, or the event has loaded it
    ///   from the segment. So each free pointer that a call holds was loaded by that call.
    /// - `Full`: the actor held a free pointer from which the block that the call needs passes the end of the segment,
    ///   and has set the full flag for that with this event. The block is the record of a `Hist`; of an `Add` or a
    ///   `Batch` the counts of the histogram, or the sample of a value. `Corrupt`: with this event it has loaded flags
    ///   with the corrupt one. In neither case has the event claimed or published anything, and the flag is set.
    ///   Nothing that an earlier call saw or set is a cause. `OtherSpec`: the actor has seen that the first record of
    ///   the name has another spec.
    /// - A `Hist` that is refused `Full` or `Corrupt` has seen the list to its end: the next of the last record that
    ///   its actor has visited was the end of the list when the actor loaded it. None of the records that the actor has
    ///   visited has the name.
    /// - A refused `Add`, or the next item of a refused `Batch`, needed its block. With buckets: its actor has seen a
    ///   single word that is not off and cannot take the units, and has loaded a counts reference that was 0. Sparse:
    ///   its actor has seen the list to its end, and of the records that it has visited there, none after the
    ///   histogram's is a sample of the value.
    /// - A refused `Add` or `Batch` has moved no units of other calls. They are moved only after the actor has found
    ///   counts, and of its histogram, if that has buckets, the actor has found none.
    /// - `Flagged`: the actor has set the corrupt flag. Once it has, no event of it claims a block.
    /// - No event sets the corrupt flag except that of a `SetCorrupt`, and none sets the full flag except one that
    ///   ends with the refusal `Full`. So by `consistent` of [`World::words`] the flags in the words change with
    ///   these alone.
    /// - A record that an event links holds what the call is for: the name and the spec with which a `Hist` began, or
    ///   a value that an `Add` or a `Batch` counts in its sparse histogram. The other calls link none.
    /// - An event raises the free pointer only for the block that its call needs, of exactly that many words: the
    ///   record of a `Hist`; of an `Add` or a `Batch` the counts of its histogram, or a sample. The actor has seen
    ///   before that it needs that block, just like an actor whose call is refused it. By the rules of the machine the
    ///   event claims the block, or wastes the rest of a page that is too short for it: no page is passed over that has
    ///   room for it. The other calls do not raise it.
    ///
    /// At most one word changes [word], and no other actor [others].
    ///
    /// What becomes of the actor's lists, and which answer fits which call [says]:
    ///
    /// - From the first event of a call on all its entries have begun. `Added` puts them at the end of `ended`.
    ///   `BatchRefused` puts the entries of the first items there, as many as it says, and their units are spent.
    ///   Nothing else changes `ended`.
    /// - From its first event on a delta is last in `taken`. It lists what its events take, and in the end it is what
    ///   the call returns. Nothing else changes `taken`.
    /// - A histogram that a `Hist` returns is known from then on. `Flagged` has set the corrupt flag.
    /// - A `SetCorrupt` ends with its first event, as `Flagged`, which nothing else does. Only a `Hist` or an `Add`
    ///   ends as `Refused`, and only a `Batch` as `BatchRefused`. No `Snapshot` and no `Delta` is refused.
    ///
    /// If the call continues, less is left of it than before the event [less]. What is left are numbers that are read off
    /// the words and the call: the items of a batch, the stage, the words after the free pointer, the records ahead of a
    /// walk, and what is left of a part. So only an event of another actor can make it more, by a word that it changes; and
    /// a call that is stepped alone ends, by the law [`left_ends`](crate::laws::left_ends).
    pub fn step(&mut self, actor: usize) -> Result<Stepped, WorldFault>
        ensures faults { MatchOption (first_fault (step_checks self.old.world_state actor)) (IsOk result) (λ fault. result ≡ Err fault) }
        ensures fault { OnErr result (self.new.world_state ≡ self.old.world_state) }
        ensures steps { IfOk result (λ said. (start : Start) (state : State) → IsReachedAs start self.old.world_state state → StepsTo self.old.world_state actor start state self.new.world_state said) }
        ensures others { OnOk result (OthersStay actor self.old.world_state self.new.world_state) }
        ensures word { OnOk result (∥ ChangesOneWord self.old.world_state.words.items self.new.world_state.words.items ∥₁) }
        ensures says { IfOk result (λ said. Says actor self.old.world_state self.new.world_state said) }
        ensures less { IfOk result (λ said. LeavesLess actor self.old.world_state self.new.world_state said) }
    {
        let Some(actor_run) = self.world_state.run(actor) else {
            return Err(WorldFault::NoActor);
        };
        if actor_run.running.is_none() {
            return Err(WorldFault::Idle);
        }
        Ok(self.world_state.step(actor))
    }

    // Makes a move: an actor begins a call, or performs the next event of its call.
    fn make(&mut self, step: &Move) -> Result<(), WorldFault>
        ensures makes { OnOk result (Makes step.now self.old.world_state self.new.world_state) }
        ensures faults { IfErr result (FaultsAt step.now self.old.world_state) }
    {
        match step {
            Move::Begin(actor, call) => {
                self.begin(*actor, call)?;
            }
            Move::Step(actor) => {
                self.step(*actor)?;
            }
        }
        Ok(())
    }

    // Makes moves, one after the other, up to the first fault.
    fn make_all(&mut self, moves: &[Move]) -> Result<(), WorldFault>
        ensures makes { OnOk result (MakesAll moves.now self.old.world_state self.new.world_state) }
        ensures stops { IfErr result (StopsAtMove moves.now self.old.world_state) }
    {
        for step in moves {
            self.make(step)?;
        }
        Ok(())
    }

    /// Returns what an actor's deltas took, in order [items]. A running one is last from its first event on, with what
    /// it has taken so far. The keys of each ascend, at every moment [ascending]. An actor that is not there took
    /// nothing.
    pub fn taken(&self, actor: usize) -> &[Taken]
        ensures items { result.now ≡ taken_of self.now.world_state actor }
        ensures ascending { ∥ All (λ taken. AreUnits taken.counts.items) result.now ∥₁ }
    {
        let Some(actor_run) = self.world_state.run(actor) else {
            return &[];
        };
        actor_run.taken.as_slice()
    }
}

ghost use Rattle.std.specs.Prelude.{IfOk, IfErr};
ghost use Rattle.hist_core.specs.Moves.{LeadsOn, LeadsTo, StopsOn, MovesStopWith};

/// Returns the world after these moves, one after the other, none with a fault [world]. Or the first fault, that of
/// [`World::new`] or of a move after moves without one [fault].
pub fn run_schedule(
    alloc: Global,
    size: u64,
    page: u64,
    id: u64,
    actors: usize,
    version: u64,
    moves: &[Move],
) -> Result<World, WorldFault>
    ensures world { IfOk result (λ world. LeadsTo size page id actors version moves.now world.world_state) }
    ensures fault { IfErr result (MovesStopWith size page id actors version moves.now) }
{
    let mut world = World::new(alloc, size, page, id, actors, version)?;
    world.make_all(moves)?;
    Ok(world)
}

/// Returns the world after these moves, one after the other, from one that continues from the words of an image, none
/// with a fault [world]. Or the first fault, that of [`World::adopt`] or of a move after moves without one [fault].
pub fn run_schedule_on(
    alloc: Global,
    words: &[u64],
    actors: usize,
    moves: &[Move],
) -> Result<World, WorldFault>
    ensures world { IfOk result (λ world. LeadsOn words.now actors moves.now world.world_state) }
    ensures fault { IfErr result (StopsOn words.now actors moves.now) }
{
    let mut world = World::adopt(alloc, words, actors)?;
    world.make_all(moves)?;
    Ok(world)
}
