//! A schedule as it is replayed.

ghost use Rattle.std.specs.Prelude.{◌≡◌};

use crate::fault::ReplayFault;
use crate::form::Form;
use crate::lines::{Change, Effect, LinePlace, Load, Miss};
use crate::look::Copies;
use crate::meaning::word;
use hist_core::{Begun, Call, Stepped, World};
use schedule::{NewWorld, Order, OrderKind};
use std::alloc::{AllocError, Global};
use std::io;
use std::io::Write;

/// A world in which a schedule is replayed, to its end or to where it is to stop.
#[derive(Drop)]
pub struct Replay {
    /// The world as it is.
    world: World,
    // Its words before the next event.
    before: Vec<u64>,
    // How many events are left.
    left: u64,
    // How the next is shown.
    form: Form,
    ghost in_step: { before.items ≡ world.world_state.words.items },
}

ghost use Rattle.std.specs.Prelude.{◌⊎◌, List, ℕ, MatchOption, OnOk, IfOk, IfErr, length, false, Err, Ok};
ghost use Rattle.std.specs.Io.KnownBytes.{Appends};
ghost use Rattle.hist_core.specs.declared.call.Move.TheVariants.{Begin, Step};
ghost use Rattle.hist_core.specs.declared.fault.WorldFault.{WorldFault};
ghost use Rattle.hist_core.specs.WorldState.{IsAdoptedWorldState, IsNewWorldState};
ghost use Rattle.hist_core.specs.Moves.{FaultsAt, IsStepped};
ghost use Rattle.hist_core.specs.World.{actor_checks, world_checks, IsAdoptFault};
ghost use Rattle.segment_image.specs.Checks.{first_fault};
ghost use Rattle.segment_image.specs.Head.{head_of, header_of};
ghost use Rattle.stepped.specs.Fault.{fault_of_world};
ghost use Rattle.stepped.specs.Form.{Writes, text_of, texts};
ghost use Rattle.stepped.specs.Lines.{Deed};
ghost use Rattle.stepped.specs.Lines.Deed.{Looks};
ghost use Rattle.stepped.specs.Look.{TakesLook, look_of};
ghost use Rattle.stepped.specs.Replay.{DoesOrder, EndsCall, FailsAt, RunsEvents, HasChanged, IsDifference, Replays, ShowsMove, StopsWith, next_found, next_miss, placed};

// Where two lists of words differ first.
fn change_of(old: &[u64], new: &[u64]) -> Option<Change>
    requires { length old.now ≡ length new.now }
    ensures { MatchOption result (new.now ≡ old.now) (IsDifference old.now new.now) }
{
    let at = old.iter().zip(new).position(|(old, new)| old != new)?;
    Some(Change {
        at,
        old: old[at],
        new: new[at],
    })
}

impl Replay {
    /// Returns a new world [world] in which this many events may happen [left], which are shown in this form [form].
    /// Else the fault is `World` of record 1 with the first reason why there can be no such world, or `NoMemory` if
    /// memory runs out [faults].
    pub fn new(
        alloc: Global,
        opening: NewWorld,
        events: u64,
        form: Form,
    ) -> Result<Replay, ReplayFault>
        ensures world { IfOk result (λ replay. IsNewWorldState (record { size = opening.size; page = opening.page }) opening.version opening.id opening.actors replay.world.world_state) }
        ensures left { IfOk result (λ replay. replay.left ≡ events) }
        ensures form { IfOk result (λ replay. replay.form ≡ form) }
        ensures faults { MatchOption (first_fault (world_checks opening.size opening.page opening.actors opening.version)) (IfErr result (λ fault. fault ≡ ReplayFault.NoMemory)) (λ why. result ≡ Err (fault_of_world 1 why)) }
    {
        let NewWorld {
            size,
            page,
            id,
            actors,
            version,
        } = opening;
        let world = World::new(alloc, size, page, id, actors, version).map_err(
            |fault| ReplayFault::of_world(1, fault),
        )?;
        Ok(Replay::of(alloc, world, events, form)?)
    }

    /// Returns a world that continues from the words of an image [world], in which this many events may happen [left],
    /// which are shown in this form [form]. Else the fault is `World` of record 1, with `BadShape` of the number of
    /// actors, or with `Adopt` and the first fault of the image; or `NoMemory` if memory runs out [faults].
    pub fn adopt(
        alloc: Global,
        words: &[u64],
        actors: usize,
        events: u64,
        form: Form,
    ) -> Result<Replay, ReplayFault>
        ensures world { IfOk result (λ replay. IsAdoptedWorldState words.now actors replay.world.world_state) }
        ensures left { IfOk result (λ replay. replay.left ≡ events) }
        ensures form { IfOk result (λ replay. replay.form ≡ form) }
        ensures faults { MatchOption (first_fault (actor_checks actors)) (IfErr result (λ fault. (why : WorldFault) × IsAdoptFault words.now why × (fault ≡ fault_of_world 1 why))) (λ why. result ≡ Err (fault_of_world 1 why)) }
    {
        let world = World::adopt(alloc, words, actors).map_err(|fault| ReplayFault::of_world(
            1, fault,
        ))?;
        Ok(Replay::of(alloc, world, events, form)?)
    }

    // A world in which this many events may happen, which are shown in this form.
    fn of(alloc: Global, world: World, events: u64, form: Form) -> Result<Replay, AllocError>
        ensures { IfOk result (λ replay. (replay.world ≡ world) × (replay.left ≡ events) × (replay.form ≡ form)) }
    {
        let before = Vec::from_slice(alloc, world.words())?;
        Ok(Replay {
            world,
            before,
            left: events,
            form,
        })
    }

    /// Returns the words of its segment [words], whose header has no fault [header].
    pub fn words(&self) -> &[u64]
        ensures words { result.now ≡ self.now.world.world_state.words.items }
        ensures header { header_of result.now ≡ Ok (head_of result.now) }
    {
        self.world.words()
    }

    // Begins a call. One that needs no event has ended, and has its answer at once.
    fn begin<W: Write>(
        &mut self,
        writer: &mut W,
        place: LinePlace,
        call: &Call,
    ) -> Result<(), ReplayFault>
        ensures left { self.new.left ≡ self.old.left }
        ensures ok { OnOk result ((deeds : List Deed) × ShowsMove (Begin place.actor call.now) self.old.world.world_state self.new.world.world_state deeds × Writes self.old.form self.new.form (W.contents writer.old) (W.contents writer.new) (placed place.number place.actor deeds)) }
        ensures err { IfErr result (λ fault. (fault ≡ ReplayFault.Write) ⊎ ((why : WorldFault) × FaultsAt (Begin place.actor call.now) self.old.world.world_state why × (fault ≡ fault_of_world place.number why) × (writer.new ≡ writer.old))) }
    {
        let begun = self
            .world
            .begin(place.actor, call)
            .map_err(|fault| ReplayFault::of_world(place.number, fault))?;
        match begun {
            Begun::Going => self
                .form
                .show_begin(writer, place, call)
                .map_err(|_| ReplayFault::Write),
            Begun::Ended(answer) => self
                .form
                .show_at_once(writer, place, call, &answer)
                .map_err(|_| ReplayFault::Write),
        }
    }

    // What an actor misses by its next event: an exchange of a word that is not what it expects.
    fn next_miss(&self, actor: usize) -> Option<Miss>
        ensures { result ≡ next_miss self.now.world.world_state actor }
    {
        let Some(attempt) = self.world.next_exchange(actor) else {
            return None;
        };
        let found = word(self.world.words(), attempt.at);
        if found == attempt.wanted {
            return None;
        }
        Some(Miss {
            at: attempt.at,
            wanted: attempt.wanted,
            found,
        })
    }

    // What an actor finds by its next event, if that is a load.
    fn next_found(&self, actor: usize) -> Option<Load>
        ensures { result ≡ next_found self.now.world.world_state actor }
    {
        let Some(at) = self.world.next_load(actor) else {
            return None;
        };
        Some(Load {
            at,
            value: word(self.world.words(), at),
        })
    }

    // An event of an actor's call, and the word that it changed.
    fn advance(&mut self, place: LinePlace) -> Result<(Stepped, Option<Change>), ReplayFault>
        ensures left { self.new.left ≡ self.old.left }
        ensures form { self.new.form ≡ self.old.form }
        ensures ok { IfOk result (λ done. IsStepped place.actor self.old.world.world_state self.new.world.world_state done.0 × HasChanged self.old.world.world_state.words.items self.new.world.world_state.words.items done.1) }
        ensures err { IfErr result (λ fault. (why : WorldFault) × FaultsAt (Step place.actor) self.old.world.world_state why × (fault ≡ fault_of_world place.number why)) }
    {
        let said = self
            .world
            .step(place.actor)
            .map_err(|fault| ReplayFault::of_world(place.number, fault))?;
        match change_of(&self.before, self.world.words()) {
            Some(change) => {
                self.before[change.at] = change.new;
                Ok((said, Some(change)))
            }
            None => Ok((said, None)),
        }
    }

    // Performs one event. Returns whether the call has more.
    fn step<W: Write>(&mut self, writer: &mut W, place: LinePlace) -> Result<bool, ReplayFault>
        ensures left { self.new.left ≡ self.old.left }
        ensures ok { IfOk result (λ more. (deeds : List Deed) × ShowsMove (Step place.actor) self.old.world.world_state self.new.world.world_state deeds × Writes self.old.form self.new.form (W.contents writer.old) (W.contents writer.new) (placed place.number place.actor deeds) × (more ≡ false → EndsCall deeds)) }
        ensures err { IfErr result (λ fault. (fault ≡ ReplayFault.Write) ⊎ ((why : WorldFault) × FaultsAt (Step place.actor) self.old.world.world_state why × (fault ≡ fault_of_world place.number why) × (writer.new ≡ writer.old))) }
    {
        let miss = self.next_miss(place.actor);
        let load = self.next_found(place.actor);
        let (said, change) = self.advance(place)?;
        let effect = Effect::of(change, miss, load);
        self.form
            .show_event(writer, place, effect, self.world.words())
            .map_err(|_| ReplayFault::Write)?;
        match said {
            Stepped::More => Ok(true),
            Stepped::Done(answer) => {
                self.form
                    .show_end(writer, place, &answer)
                    .map_err(|_| ReplayFault::Write)?;
                Ok(false)
            }
        }
    }

    // Performs this many events, fewer if the call ends or if it is to stop.
    fn steps<W: Write>(
        &mut self,
        writer: &mut W,
        place: LinePlace,
        times: u64,
    ) -> Result<(), ReplayFault>
        ensures ok { OnOk result ((deeds : List Deed) × RunsEvents place.actor times self.old.left self.old.world.world_state self.new.world.world_state self.new.left deeds × Writes self.old.form self.new.form (W.contents writer.old) (W.contents writer.new) (placed place.number place.actor deeds)) }
        ensures err { IfErr result (λ fault. (fault ≡ ReplayFault.Write) ⊎ ((why : WorldFault) × (deeds : List Deed) × FailsAt place.actor (OrderKind.Step times) self.old.world.world_state why deeds × (fault ≡ fault_of_world place.number why) × Appends (W.contents writer.old) (W.contents writer.new) (texts self.old.form (placed place.number place.actor deeds)))) }
    {
        for _ in 0..times {
            if self.left == 0 {
                return Ok(());
            }
            self.left -= 1;
            if !self.step(writer, place)? {
                return Ok(());
            }
        }
        Ok(())
    }

    // Shows the load of a word into the copy of a look.
    fn look<W: Write>(&self, writer: &mut W, place: LinePlace, at: usize) -> Result<(), ReplayFault>
        ensures ok { OnOk result (Appends (W.contents writer.old) (W.contents writer.new) (text_of self.now.form place (Looks self.now.world.world_state.words.items at))) }
        ensures err { IfErr result (λ fault. fault ≡ ReplayFault.Write) }
    {
        self.form
            .show_look(writer, place, at, self.world.words())
            .map_err(|_| ReplayFault::Write)
    }

    // Does what a record says.
    fn obey<W: Write>(
        &mut self,
        writer: &mut W,
        number: u64,
        order: &Order,
    ) -> Result<(), ReplayFault>
        ensures ok { OnOk result ((deeds : List Deed) × DoesOrder order.now.actor order.now.kind self.old.left self.old.world.world_state self.new.world.world_state self.new.left deeds × Writes self.old.form self.new.form (W.contents writer.old) (W.contents writer.new) (placed number order.now.actor deeds)) }
        ensures err { IfErr result (λ fault. (fault ≡ ReplayFault.Write) ⊎ ((why : WorldFault) × (deeds : List Deed) × FailsAt order.now.actor order.now.kind self.old.world.world_state why deeds × (fault ≡ fault_of_world number why) × Appends (W.contents writer.old) (W.contents writer.new) (texts self.old.form (placed number order.now.actor deeds)))) }
    {
        let place = LinePlace {
            number,
            actor: order.actor,
        };
        match &order.kind {
            OrderKind::Begin(call) => self.begin(writer, place, call),
            OrderKind::Step(times) => self.steps(writer, place, *times),
            OrderKind::Look(at) => self.look(writer, place, *at),
        }
    }

    /// Does what the records from 2 on say, in order, as long as events are left, and shows what it does. The world
    /// is as `new` or `adopt` made it, or as an earlier `run` left it.
    ///
    /// On `Ok` the world made the moves of the records: a record begins a call, or its actor performs as many events
    /// as it says, and fewer only if the call ends or no event is left; once none is left, nothing more is done.
    /// Exactly what was done is written, as lines or as a picture: each begin, with its answer if it needs no
    /// event; each event, with the one word that it changed, from what to what, or none; and after it the answer of a
    /// call that it ended. If an event changed no word, a picture shows: of an exchange what it expected and what it
    /// found, if the world says that it is one that expects another number than the word has; and of a load, if the
    /// world says that it is one, what it found [replays].
    ///
    /// `Write` comes if a write failed. Else the fault is the first one that the world has at a move of a record,
    /// `World` with the record's number, or `NoMemory`; and what was done before it is written [stops].
    pub fn run<W: Write>(&mut self, writer: &mut W, orders: &[Order]) -> Result<(), ReplayFault>
        ensures replays { OnOk result ((done : List (LinePlace × Deed)) × Replays 2 orders.now self.old.left self.old.world.world_state self.new.world.world_state self.new.left done × Writes self.old.form self.new.form (W.contents writer.old) (W.contents writer.new) done) }
        ensures stops { IfErr result (λ fault. StopsWith orders.now self.old.left self.old.world.world_state fault (λ done. Appends (W.contents writer.old) (W.contents writer.new) (texts self.old.form done))) }
    {
        for (i, order) in orders.iter().enumerate() {
            if self.left == 0 {
                return Ok(());
            }
            self.obey(writer, i as u64 + 2, order)?;
        }
        Ok(())
    }

    /// Does the same, and shows nothing. What the records load into copies is put there [looks]. The faults are those
    /// of `run`, except `Write`.
    pub fn look_on(
        &mut self,
        alloc: Global,
        copies: &mut Copies,
        orders: &[Order],
    ) -> Result<(), ReplayFault>
        ensures looks { OnOk result (TakesLook orders.now self.old.left self.old.world.world_state self.new.world.world_state self.new.left (look_of copies.old) (look_of copies.new)) }
    {
        for (i, order) in orders.iter().enumerate() {
            if self.left == 0 {
                return Ok(());
            }
            copies.follow(alloc, order, self.words())?;
            self.obey(&mut io::sink(), i as u64 + 2, order)?;
        }
        Ok(())
    }
}
