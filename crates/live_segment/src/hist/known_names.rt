//! How a recorder finds a histogram that it knows by its name.

ghost use Rattle.std.specs.Prelude.{◌≡◌, ◌++◌, ◌∷◌, [], List, length, None, MatchOption};
ghost use Rattle.live_segment.specs.Hist.Prelude.{byte_key_of, first_of};
ghost use Rattle.list_index.specs.Firsts.{limit_of};

use crate::recorder::KnownHistogram;
use list_index::{Firsts, next_byte_key};
use std::alloc::Global;

/// The places of the histograms that a recorder knows, by their names: of the first of them, as many as there was
/// memory for.
#[derive(Drop)]
pub(crate) struct KnownNames {
    /// How many of them are entered.
    pub(crate) entered: usize,
    /// The place of the first of each key.
    pub(crate) places: Firsts,
}

// The key of a name.
fn key_of_bytes(name: &[u8]) -> u64
    ensures { result ≡ byte_key_of name.now }
{
    let mut key = 0;
    for byte in name {
        key = next_byte_key(key, *byte);
    }
    key
}

impl KnownNames {
    ghost use Rattle.live_segment.specs.Hist.Prelude.{HasNames, IsKnownAt, KnownHistogram, NoneHasName};

    // None is entered.
    pub(crate) fn new(alloc: Global) -> KnownNames
        ensures { HasNames [] result }
    {
        KnownNames {
            entered: 0,
            places: Firsts::new(alloc),
        }
    }

    // Sets how many names it may enter in all. What is entered stays.
    pub(crate) fn set_limit(&mut self, names: usize)
        ensures still { (known : List KnownHistogram) → HasNames known self.old → HasNames known self.new }
        ensures limit { limit_of self.new.places ≡ names }
    {
        self.places.set_limit(names);
    }

    // Enters the name of one more, which is to come after these. If there is no memory for it, it is found by a search.
    pub(crate) fn enter(&mut self, known: &[KnownHistogram], name: &[u8])
        requires has { HasNames known.now self.old }
        requires none { NoneHasName known.now name.now }
        ensures { (last : KnownHistogram) → last.name.items ≡ name.now → HasNames (known.now ++ last ∷ []) self.new }
    {
        let place = known.len();
        if self.entered == place && self.places.enter(key_of_bytes(name), place as u64) {
            self.entered += 1;
        }
    }

    // The place of the histogram of a name among known ones.
    pub(crate) fn find(&self, known: &[KnownHistogram], name: &[u8]) -> Option<usize>
        requires { HasNames known.now self.now }
        ensures { MatchOption result (NoneHasName known.now name.now) (IsKnownAt known.now name.now) }
    {
        match self.places.first(key_of_bytes(name)) {
            Some(place) => find_at(known, place, name),
            None => self.find_unentered(known, name),
        }
    }

    // The place of the histogram of a name that is not entered.
    fn find_unentered(&self, known: &[KnownHistogram], name: &[u8]) -> Option<usize>
        requires has { HasNames known.now self.now }
        requires none { first_of self.now.places (byte_key_of name.now) ≡ None }
        ensures { MatchOption result (NoneHasName known.now name.now) (IsKnownAt known.now name.now) }
    {
        if self.entered == known.len() {
            return None;
        }
        search(known, name)
    }
}

ghost use Rattle.live_segment.specs.Hist.Prelude.{IsKnownAt, KnownHistogram, NoneHasName};

// The place of the histogram of a name, which may be this one.
fn find_at(known: &[KnownHistogram], place: u64, name: &[u8]) -> Option<usize>
    ensures { MatchOption result (NoneHasName known.now name.now) (IsKnownAt known.now name.now) }
{
    let place = place as usize;
    if place < known.len() && known[place].name.as_slice() == name {
        return Some(place);
    }
    search(known, name)
}

// The place of the histogram of a name, by a search through all.
fn search(known: &[KnownHistogram], name: &[u8]) -> Option<usize>
    ensures { MatchOption result (NoneHasName known.now name.now) (IsKnownAt known.now name.now) }
{
    for (index, one) in known.iter().enumerate() {
        if one.name.as_slice() == name {
            return Some(index);
        }
    }
    None
}
