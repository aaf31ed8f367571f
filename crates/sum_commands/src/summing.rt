//! The sum of inputs, one after the other.

ghost use Rattle.std.specs.Prelude.{◌≡◌, ◌≢◌, ◌≤◌, ◌<◌, ◌^◌, ◌++◌, ◌∷◌, [], ℕ, true, false, unsigned_abs, IfOk, IfErr, IfSome, OnOk, OnErr};
ghost use Rattle.std.specs.List.{All};
ghost use Rattle.sum_commands.specs.declared.fault.InputFault.TheVariants.{TooMany};
ghost use Rattle.sum_commands.specs.Sources.{Input, AddsInput, MayNotBeAdded, HasNotedInput, HasTakenInput, IsNoneAt, IsSmallSum, IsSumOfRun, IsSumSoFar, MayHaveAppended, has_ended};

use crate::fault::InputFault;
use crate::sums::{NUMBER_LIMIT, append_next};
use reading_sums::{HistSum, Sums};
use std::alloc::{AllocError, Global};

/// An input that is open, of which nothing was read yet.
pub trait OpenInput {
    /// What the input may be.
    ghost may_be: { Self → Input → Type 0 };

    /// Whether the input is known to be whole, which is the condition for a well-formed sum to stay well formed, and
    /// for all that is promised of what fits. If nothing is known of it, as of a file, it never holds: such an input
    /// may be left out with `TooMany` for any reason.
    ghost is_whole: { Self → Type 0 };

    /// Adds the input to a sum, after its readings, and returns whether it is damaged: what was added is what the input
    /// may be. If the input is whole and the sum well formed, it fits, and the sum stays well formed [added]. An input
    /// that is left out has a fault that it may have, or `TooMany`: then something that it may be does not fit, if it
    /// is whole and the sum well formed. `NoMemory` is returned if memory runs out [cause]. If nothing is added, the
    /// sum is unchanged [refused].
    fn add_to(self, sums: &mut Sums) -> Result<bool, InputFault>
        ensures added { IfOk result (λ is_damaged. AddsInput (is_whole self) (may_be self) is_damaged sums.old sums.new) }
        ensures cause { IfErr result (MayNotBeAdded (is_whole self) (may_be self) sums.old) }
        ensures refused { OnErr result (sums.new ≡ sums.old) };
}

/// Inputs, each at a place, from 0 on.
pub trait Source {
    /// An input that a worker is given.
    type Opened: OpenInput + Send + Drop;

    /// What the input at a place may be.
    ghost may_be: { Self → ℕ → Input → Type 0 };

    /// Whether all inputs are known to be whole, as [`OpenInput`] says.
    ghost are_whole: { Self → Type 0 };

    /// Opens the input at a place for a worker: it can then only be what the input at that place may be [opened], and
    /// is whole if all are [whole]. Returns none if no worker is to read it, or if it cannot be opened: it is then
    /// added by [`add_input`](Source::add_input).
    fn open(&self, place: usize) -> Option<Self::Opened>
        ensures opened { IfSome result (λ opened. (input : Input) → Self.Opened.may_be opened input → may_be self.now place input) }
        ensures whole { IfSome result (λ opened. are_whole self.now → Self.Opened.is_whole opened) };

    /// Adds the input at a place to a sum, after its readings, and returns whether it is damaged: what was added is
    /// what the input at that place may be. If the inputs are whole and the sum well formed, it fits, and the sum stays
    /// well formed [added]. An input that is left out has a fault that it may have, or `TooMany`: then something that
    /// it may be does not fit, if the inputs are whole and the sum well formed. `NoMemory` is returned if memory runs
    /// out [cause]. If nothing is added, the sum is unchanged [refused]. It may be asked for an input that was opened
    /// before, and for one input more than once.
    fn add_input(&self, sums: &mut Sums, place: usize) -> Result<bool, InputFault>
        ensures added { IfOk result (λ is_damaged. AddsInput (are_whole self.now) (may_be self.now place) is_damaged sums.old sums.new) }
        ensures cause { IfErr result (MayNotBeAdded (are_whole self.now) (may_be self.now place) sums.old) }
        ensures refused { OnErr result (sums.new ≡ sums.old) };
}

/// What is notified of how far a sum is.
pub trait Progress {
    /// Takes note that the inputs before a place are in a sum, or left out of it.
    fn reached(&mut self, place: usize, sums: &Sums);
}

/// An input that is left out of a sum: its place, and why.
#[derive(Drop)]
pub struct Left {
    pub place: usize,
    pub fault: InputFault,
}

/// The sum of the inputs from one place to another.
#[derive(Drop)]
pub struct Summed {
    pub sums: Sums,
    /// Which inputs are left out, in their order.
    pub left: Vec<Left>,
    /// Whether an image that was read is damaged.
    pub is_damaged: bool,
    /// The place of the first input.
    pub first: usize,
    /// The place after the last one.
    pub reached: usize,
    // Whether an amount or a number was so large at some input that those of other inputs may not fit with it.
    was_large: bool,
}

// Two amounts fit together if both are nearer to 0 than this. No number of images has as much, but totals may say so.
const LARGE_AMOUNT: u128 = 1 << 126;

// Whether an amount of a histogram is large.
fn is_large(hist: &HistSum) -> bool
    ensures sum { result ≡ false → unsigned_abs hist.now.sum < 2 ^ 126 }
    ensures sum_mark { result ≡ false → unsigned_abs hist.now.sum_mark < 2 ^ 126 }
{
    hist.sum.unsigned_abs() >= LARGE_AMOUNT || hist.sum_mark.unsigned_abs() >= LARGE_AMOUNT
}

// Whether a sum has a large amount, or many images. Unlike units, amounts can fall again, so a total may not fit in the
// middle of the inputs, and fit after all of them.
fn has_large(sums: &Sums) -> bool
    ensures { result ≡ false → IsSmallSum sums.now }
{
    for hist in sums.hists() {
        if is_large(hist) {
            return true;
        }
    }
    sums.notes().images >= NUMBER_LIMIT
}

// Puts an input that is left out after others.
fn put_left(all: &mut Vec<Left>, left: Left) -> Result<(), AllocError>
    ensures { OnOk result (all.new.items ≡ all.old.items ++ left ∷ []) }
{
    all.push(left)?;
    Ok(())
}

// Puts inputs that are left out after others.
fn put_all(all: &mut Vec<Left>, left: Vec<Left>) -> Result<(), AllocError>
    ensures { OnOk result (all.new.items ≡ all.old.items ++ left.items) }
{
    for one in left {
        put_left(all, one)?;
    }
    Ok(())
}

impl Summed {
    // The sum of no inputs, which begins at a place.
    pub(crate) fn none(alloc: Global, first: usize) -> Summed
        ensures { IsNoneAt first result }
    {
        Summed {
            sums: Sums::new(alloc),
            left: Vec::new(alloc),
            is_damaged: false,
            first,
            reached: first,
            was_large: false,
        }
    }

    // Whether nothing more is to be read.
    pub(crate) fn is_ended(&self, is_strict: bool) -> bool
        ensures { result ≡ has_ended is_strict self.now }
    {
        is_strict && self.left.len() > 0
    }

    // Whether an input was left out with which a total would not fit.
    fn has_too_many(&self) -> bool
        ensures { result ≡ false → All (λ left. left.fault ≢ TooMany) self.now.left.items }
    {
        for left in &self.left {
            if matches!(left.fault, InputFault::TooMany) {
                return true;
            }
        }
        false
    }

    // Whether its inputs can be appended to those of another sum with the same outcome as one by one: nothing was so
    // large that a total might not fit in the middle of them, and no input was left out for that reason.
    fn fits_behind(&self, other: &Summed) -> bool
        ensures small { result ≡ true → self.now.was_large ≡ false }
        ensures other_small { result ≡ true → other.now.was_large ≡ false }
        ensures room { result ≡ true → All (λ left. left.fault ≢ TooMany) self.now.left.items }
    {
        !self.was_large && !other.was_large && !self.has_too_many()
    }

    // Notes how the next input was added, or why it is left out. The one fault is `NoMemory`.
    fn note(&mut self, added: Result<bool, InputFault>) -> Result<(), AllocError>
        requires { self.old.reached < 18446744073709551615 }
        ensures { OnOk result (HasNotedInput added self.old self.new) }
    {
        match added {
            Ok(is_damaged) => {
                self.is_damaged = self.is_damaged || is_damaged;
                self.was_large = self.was_large || has_large(&self.sums);
            }
            Err(fault) if fault.is_no_memory() => return Err(AllocError),
            Err(fault) => {
                let place = self.reached;
                put_left(&mut self.left, Left { place, fault })?;
            }
        }
        self.reached += 1;
        Ok(())
    }

    // Adds the next input, which is open.
    pub(crate) fn add_opened<O: OpenInput + Drop>(&mut self, opened: O) -> Result<(), AllocError>
        requires { self.old.reached < 18446744073709551615 }
        ensures { OnOk result (HasTakenInput (O.is_whole opened) (O.may_be opened) self.old self.new) }
    {
        let added = opened.add_to(&mut self.sums);
        self.note(added)
    }

    // Adds the next input of a source.
    fn add_next<S: Source>(&mut self, source: &S) -> Result<(), AllocError>
        requires { self.old.reached < 18446744073709551615 }
        ensures { OnOk result (HasTakenInput (S.are_whole source.now) (S.may_be source.now self.old.reached) self.old self.new) }
    {
        let added = source.add_input(&mut self.sums, self.reached);
        self.note(added)
    }

    // Adds the inputs of a source up to a place, or up to the first that is left out if the sum is strict.
    pub(crate) fn add_up_to<S: Source, P: Progress>(
        &mut self,
        source: &S,
        progress: &mut P,
        place: usize,
        is_strict: bool,
    ) -> Result<(), AllocError>
        ensures sum { OnOk result (IsSumSoFar (S.are_whole source.now) (S.may_be source.now) is_strict self.old → IsSumSoFar (S.are_whole source.now) (S.may_be source.now) is_strict self.new) }
        ensures first { OnOk result (self.new.first ≡ self.old.first) }
        ensures within { OnOk result ((most : ℕ) → self.old.reached ≤ most → place ≤ most → self.new.reached ≤ most) }
        ensures all { OnOk result (has_ended is_strict self.new ≡ false → place ≤ self.new.reached) }
    {
        while self.reached < place && !self.is_ended(is_strict) {
            self.add_next(source)?;
            progress.reached(self.reached, &self.sums);
        }
        Ok(())
    }

    // Appends the sum of the inputs that follow, unless this sum has ended or is not followed by them, or a total might
    // not fit.
    fn append(&mut self, summed: Summed, is_strict: bool) -> Result<(), AllocError>
        ensures { OnOk result (MayHaveAppended is_strict summed self.old self.new) }
    {
        if self.reached != summed.first || self.is_ended(is_strict) || !summed.fits_behind(self) {
            return Ok(());
        }
        // Refused, or out of memory: the caller adds these inputs one by one.
        if append_next(&mut self.sums, &summed.sums).is_err() {
            return Ok(());
        }
        put_all(&mut self.left, summed.left)?;
        self.is_damaged = self.is_damaged || summed.is_damaged;
        self.was_large = self.was_large || has_large(&self.sums);
        self.reached = summed.reached;
        Ok(())
    }

    // Adds the inputs of a source that a worker has added up, and those before them. If a total might not fit, they are
    // added one by one, which shows which of them are left out.
    pub(crate) fn add_summed<S: Source, P: Progress>(
        &mut self,
        source: &S,
        progress: &mut P,
        summed: Summed,
        is_strict: bool,
    ) -> Result<(), AllocError>
        ensures sum { OnOk result (IsSumOfRun (S.are_whole source.now) (S.may_be source.now) is_strict summed → IsSumSoFar (S.are_whole source.now) (S.may_be source.now) is_strict self.old → IsSumSoFar (S.are_whole source.now) (S.may_be source.now) is_strict self.new) }
        ensures first { OnOk result (self.new.first ≡ self.old.first) }
        ensures within { OnOk result ((most : ℕ) → self.old.reached ≤ most → summed.first ≤ summed.reached → summed.reached ≤ most → self.new.reached ≤ most) }
    {
        let (first, end) = (summed.first, summed.reached);
        self.add_up_to(source, progress, first, is_strict)?;
        self.append(summed, is_strict)?;
        progress.reached(self.reached, &self.sums);
        self.add_up_to(source, progress, end, is_strict)
    }
}
