//! A map from keys to the first number that was entered with each.

ghost use Rattle.std.specs.Prelude.{◌≡◌, ◌==◌, ◌++◌, ◌∷◌, ◌<◌, ◌+◌, [], true, false, ℕ, None, Some, if◌then◌else◌};
ghost use Rattle.std.specs.HashMap.{spare};
ghost use Rattle.std.specs.Option.{option_or};
ghost use Rattle.list_index.specs.Firsts.{all_of, entered_of, first_of, IsUnchanged, is_grouping, limit_of};
ghost use Rattle.list_index.specs.Groups.{group_of as group_of_key};

use crate::groups::{Groups, group_of};
use std::alloc::Global;
use std::collections::HashMap;

/// For each key the first number that was entered with it; and, if it is made so, for each group of keys all numbers.
#[derive(Drop)]
pub struct Firsts {
    map: HashMap<u64, u64>,
    has_groups: bool,
    groups: Groups,
    // How many numbers were entered, and how many may be.
    entered: usize,
    limit: usize,
}

impl Firsts {
    /// Nothing was entered, with any key [first] or group [all], and it has no groups [alone]. None was counted
    /// [entered], and there is no limit but memory [limit]. It takes no memory.
    pub fn new(alloc: Global) -> Firsts
        ensures first { (key : ℕ) → first_of result key ≡ None }
        ensures all { (group : ℕ) → all_of result group ≡ [] }
        ensures alone { is_grouping result ≡ false }
        ensures entered { entered_of result ≡ 0 }
        ensures limit { limit_of result ≡ 18446744073709551615 }
    {
        Firsts {
            map: HashMap::new(alloc),
            has_groups: false,
            groups: Groups::new(alloc),
            entered: 0,
            limit: usize::MAX,
        }
    }

    /// Nothing was entered, with any key [first] or group [all], and it has groups [grouping]. None was counted
    /// [entered], and there is no limit but memory [limit]. It takes no memory.
    pub fn with_groups(alloc: Global) -> Firsts
        ensures first { (key : ℕ) → first_of result key ≡ None }
        ensures all { (group : ℕ) → all_of result group ≡ [] }
        ensures grouping { is_grouping result ≡ true }
        ensures entered { entered_of result ≡ 0 }
        ensures limit { limit_of result ≡ 18446744073709551615 }
    {
        Firsts {
            map: HashMap::new(alloc),
            has_groups: true,
            groups: Groups::new(alloc),
            entered: 0,
            limit: usize::MAX,
        }
    }

    /// Sets how many numbers may be entered in all [limit], for a caller that has little memory: from that many on
    /// `enter` returns false. What was entered stays [still], as does how many they are [entered], and it has groups
    /// if it had them before [grouping].
    pub fn set_limit(&mut self, numbers: usize)
        ensures limit { limit_of self.new ≡ numbers }
        ensures entered { entered_of self.new ≡ entered_of self.old }
        ensures still { IsUnchanged self.old self.new }
        ensures grouping { is_grouping self.new ≡ is_grouping self.old }
    {
        self.limit = numbers;
    }

    /// Returns the first number that was entered with a key, or none.
    #[inline(always)]
    pub fn first(&self, key: u64) -> Option<u64>
        ensures { result ≡ first_of self.now key }
    {
        self.map.get(&key).copied()
    }

    /// Returns the numbers that were entered with keys of a group, in their order; none if there are no groups.
    pub fn all(&self, group: u64) -> &[u64]
        ensures { result.now ≡ all_of self.now group }
    {
        self.groups.numbers(group)
    }

    /// Enters a number with a key.
    ///
    /// True: the key has the number if it had none before, and every other key has what it had [entered]. If there are
    /// groups, the number comes after those of its key's group, and every other group has what it had [listed].
    /// False if the limit is reached [few] or memory runs out: then nothing has changed [kept]. It counts how many
    /// were entered [counted]. Its limit does not change [limit], and it has groups if it had them before [grouping].
    pub fn enter(&mut self, key: u64, number: u64) -> bool
        ensures entered { result ≡ true → (other : ℕ) → first_of self.new other ≡ option_or (first_of self.old other) (if key == other then Some number else None) }
        ensures listed { result ≡ true → is_grouping self.old ≡ true → (other : ℕ) → all_of self.new other ≡ all_of self.old other ++ (if group_of_key key == other then number ∷ [] else []) }
        ensures kept { result ≡ false → IsUnchanged self.old self.new }
        ensures grouping { is_grouping self.new ≡ is_grouping self.old }
        ensures few { result ≡ true → entered_of self.old < limit_of self.old }
        ensures counted { entered_of self.new ≡ (if result then entered_of self.old + 1 else entered_of self.old) }
        ensures limit { limit_of self.new ≡ limit_of self.old }
    {
        if self.entered >= self.limit
            || !self.has_room_for(key)
            || !self.enter_in_group(group_of(key), number)
        {
            return false;
        }
        self.enter_first(key, number);
        self.entered += 1;
        true
    }

    // Whether there is room for the first number of a key; room is made if there is none.
    fn has_room_for(&mut self, key: u64) -> bool
        ensures still { IsUnchanged self.old self.new }
        ensures room { result ≡ true → first_of self.new key ≡ None → 0 < spare self.new.map }
        ensures grouping { is_grouping self.new ≡ is_grouping self.old }
        ensures counts { (entered_of self.new ≡ entered_of self.old) × (limit_of self.new ≡ limit_of self.old) }
    {
        self.map.contains_key(&key) || self.map.reserve(1).is_ok()
    }

    // Enters a number with a group, if there are groups.
    fn enter_in_group(&mut self, group: u64, number: u64) -> bool
        ensures map { self.new.map ≡ self.old.map }
        ensures listed { result ≡ true → is_grouping self.old ≡ true → (other : ℕ) → all_of self.new other ≡ all_of self.old other ++ (if group == other then number ∷ [] else []) }
        ensures kept { result ≡ false → (other : ℕ) → all_of self.new other ≡ all_of self.old other }
        ensures grouping { is_grouping self.new ≡ is_grouping self.old }
        ensures counts { (entered_of self.new ≡ entered_of self.old) × (limit_of self.new ≡ limit_of self.old) }
    {
        !self.has_groups || self.groups.enter(group, number)
    }

    // Enters the first number of a key, for which there is room.
    fn enter_first(&mut self, key: u64, number: u64)
        requires { first_of self.old key ≡ None → 0 < spare self.old.map }
        ensures entered { (other : ℕ) → first_of self.new other ≡ option_or (first_of self.old other) (if key == other then Some number else None) }
        ensures groups { self.new.groups ≡ self.old.groups }
        ensures grouping { is_grouping self.new ≡ is_grouping self.old }
        ensures counts { (entered_of self.new ≡ entered_of self.old) × (limit_of self.new ≡ limit_of self.old) }
    {
        if self.map.contains_key(&key) {
            return;
        }
        let _ = self.map.insert(key, number);
    }
}
