//! A look in a schedule: three copies of the words of its segment, which its records load one word after the other, and
//! which give an image at the end.

ghost use Rattle.std.specs.Prelude.{◌≡◌, IfOk, OnOk, slice_set, if◌then◌else◌};
ghost use Rattle.segment_image.specs.Words.{word_at};
ghost use Rattle.stepped.specs.Look.{GivesImage, begun_behind as begun_behind_of, begun_look, first_bad as first_bad_of, is_bad_load as is_bad_load_of, loaded_look, look_behind, look_of, no_look};

use crate::fault::ReplayFault;
use crate::meaning::word;
use hist_core::WorldFault;
use schedule::{Order, OrderKind};
use segment_calls::AdoptFault;
use segment_image::{Image, ImageFault};
use segment_looks::{LookFault, compose};
use std::alloc::{AllocError, Global};

// Whether a record loads into a copy that is none of 1 to 3, or one before the last that was begun, or a word that is
// not there.
fn is_bad_load(size: usize, begun: usize, order: &Order) -> bool
    ensures { result ≡ is_bad_load_of size begun order.now.actor order.now.kind }
{
    match order.kind {
        OrderKind::Look(at) => order.actor < begun.max(1) || order.actor > 3 || at >= size,
        OrderKind::Begin(_) | OrderKind::Step(_) => false,
    }
}

// The last copy that is begun after a record.
fn begun_behind(begun: usize, order: &Order) -> usize
    ensures { result ≡ begun_behind_of begun order.now.actor order.now.kind }
{
    match order.kind {
        OrderKind::Look(_) => order.actor,
        OrderKind::Begin(_) | OrderKind::Step(_) => begun,
    }
}

/// Returns the number of the first record whose load is not valid in a segment of this many words, if there is one: it
/// is into a copy that is none of 1 to 3, or one before the last that was begun, or of a word that is not there. The
/// records are numbered from 2.
pub fn first_bad(orders: &[Order], size: usize) -> Option<u64>
    ensures { result ≡ first_bad_of size 2 0 orders.now }
{
    let mut begun = 0;
    for (i, order) in orders.iter().enumerate() {
        if is_bad_load(size, begun, order) {
            return Some(i as u64 + 2);
        }
        begun = begun_behind(begun, order);
    }
    None
}

/// Three copies of the words of a segment, taken one after the other.
#[derive(Drop)]
pub struct Copies {
    // How many are begun.
    begun: usize,
    one: Vec<u64>,
    two: Vec<u64>,
    three: Vec<u64>,
}

impl Copies {
    /// Returns three copies, none of which is begun.
    pub fn none(alloc: Global) -> Copies
        ensures { look_of result ≡ no_look }
    {
        Copies {
            begun: 0,
            one: Vec::new(alloc),
            two: Vec::new(alloc),
            three: Vec::new(alloc),
        }
    }

    // Begins the copies up to one of this number, with all words as they are. The error is that memory runs out.
    fn begin(&mut self, alloc: Global, upto: usize, words: &[u64]) -> Result<(), AllocError>
        ensures { OnOk result (look_of self.new ≡ begun_look (look_of self.old) upto words.now) }
    {
        let begun = self.begun;
        fill(alloc, &mut self.one, begun < 1 && 1 <= upto, words)?;
        fill(alloc, &mut self.two, begun < 2 && 2 <= upto, words)?;
        fill(alloc, &mut self.three, begun < 3 && 3 <= upto, words)?;
        self.begun = begun.max(upto);
        Ok(())
    }

    // Loads a word of these into a copy. The copies up to this one that are not begun begin now, with all words as they
    // are. The error is that memory runs out.
    fn load(
        &mut self,
        alloc: Global,
        copy: usize,
        at: usize,
        words: &[u64],
    ) -> Result<(), AllocError>
        ensures { OnOk result (look_of self.new ≡ loaded_look (look_of self.old) copy at words.now) }
    {
        self.begin(alloc, copy, words)?;
        put(&mut self.one, copy == 1, at, words);
        put(&mut self.two, copy == 2, at, words);
        put(&mut self.three, copy == 3, at, words);
        Ok(())
    }

    /// Loads the word of these that a record loads, if it is one of a look. The copies up to that copy which are not
    /// begun begin now, with all words as they are. The error is that memory runs out.
    pub fn follow(&mut self, alloc: Global, order: &Order, words: &[u64]) -> Result<(), AllocError>
        ensures { OnOk result (look_of self.new ≡ look_behind (look_of self.old) order.now.actor order.now.kind words.now) }
    {
        match order.kind {
            OrderKind::Look(at) => self.load(alloc, order.actor, at, words),
            OrderKind::Begin(_) | OrderKind::Step(_) => Ok(()),
        }
    }

    /// Returns the image that the copies give; those that are not begun have all words as they are at the end.
    ///
    /// The fault is that of record 1 which an image of this segment has at an adoption, as `OldVersion`, or `NoMemory`.
    pub fn compose(mut self, alloc: Global, words: &[u64]) -> Result<Image, ReplayFault>
        ensures { IfOk result (GivesImage (begun_look (look_of self) 3 words.now)) }
    {
        self.begin(alloc, 3, words)?;
        match compose(alloc, &self.one, &self.two, &self.three) {
            Ok(image) => Ok(image),
            Err(fault) => Err(fault_of(fault)),
        }
    }
}

// Puts all words into a copy, if it begins now. The error is that memory runs out.
fn fill(alloc: Global, copy: &mut Vec<u64>, begins: bool, words: &[u64]) -> Result<(), AllocError>
    ensures { OnOk result (copy.new.items ≡ (if begins then words.now else copy.old.items)) }
{
    if begins {
        *copy = Vec::from_slice(alloc, words)?;
    }
    Ok(())
}

// Puts a word into a copy, if it is loaded into this one, and if the copy has such a word.
fn put(copy: &mut [u64], loads: bool, at: usize, words: &[u64])
    ensures { copy.new ≡ (if loads then slice_set copy.old at (word_at words.now at) else copy.old) }
{
    if loads && at < copy.len() {
        copy[at] = word(words, at);
    }
}

// The fault of a replay for a fault of the copies.
fn fault_of(fault: LookFault) -> ReplayFault {
    match fault {
        LookFault::NoMemory | LookFault::Image(ImageFault::NoMemory) => ReplayFault::NoMemory,
        LookFault::OldVersion => ReplayFault::World(1, WorldFault::Adopt(AdoptFault::OldVersion)),
        LookFault::Image(fault) => ReplayFault::World(
            1,
            WorldFault::Adopt(AdoptFault::Image(fault)),
        ),
    }
}
