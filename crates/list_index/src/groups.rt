//! A map from groups to all numbers that were entered with each.

ghost use Rattle.std.specs.Prelude.{◌≡◌, ◌++◌, ◌==◌, ◌∷◌, [], true, false, ℕ, if◌then◌else◌};
ghost use Rattle.list_index.specs.Groups.{group_of as group_of_key, numbers_of};

use std::alloc::Global;
use std::collections::HashMap;

/// How many keys a group has: 2^32.
pub const GROUP_KEYS: u64 = 4_294_967_296;

/// Returns the group of a key: a group has [`GROUP_KEYS`] keys, half of them below its number times that.
#[inline(always)]
pub fn group_of(key: u64) -> u64
    ensures { result ≡ group_of_key key }
{
    key.wrapping_add(GROUP_KEYS / 2) / GROUP_KEYS
}

/// For each group the numbers that were entered with it, in their order.
#[derive(Drop)]
pub struct Groups {
    alloc: Global,
    map: HashMap<u64, Vec<u64>>,
}

impl Groups {
    /// Nothing was entered. It takes no memory.
    pub fn new(alloc: Global) -> Groups
        ensures { (group : ℕ) → numbers_of result group ≡ [] }
    {
        Groups {
            alloc,
            map: HashMap::new(alloc),
        }
    }

    /// Returns the numbers of a group, in the order in which they were entered.
    pub fn numbers(&self, group: u64) -> &[u64]
        ensures { result.now ≡ numbers_of self.now group }
    {
        match self.map.get(&group) {
            Some(numbers) => numbers.as_slice(),
            None => &[],
        }
    }

    /// Enters a number with a group.
    ///
    /// True: the number comes after those of its group, and every other group has what it had [entered]. False if
    /// memory runs out: then nothing has changed [kept].
    pub fn enter(&mut self, group: u64, number: u64) -> bool
        ensures entered { result ≡ true → (other : ℕ) → numbers_of self.new other ≡ numbers_of self.old other ++ (if group == other then number ∷ [] else []) }
        ensures kept { result ≡ false → (other : ℕ) → numbers_of self.new other ≡ numbers_of self.old other }
    {
        if let Some(numbers) = self.map.get_mut(&group) {
            return numbers.push(number).is_ok();
        }
        self.begin(group, number)
    }

    // Enters the first number of a group.
    fn begin(&mut self, group: u64, number: u64) -> bool
        requires { numbers_of self.old group ≡ [] }
        ensures entered { result ≡ true → (other : ℕ) → numbers_of self.new other ≡ numbers_of self.old other ++ (if group == other then number ∷ [] else []) }
        ensures kept { result ≡ false → (other : ℕ) → numbers_of self.new other ≡ numbers_of self.old other }
    {
        let mut numbers = Vec::new(self.alloc);
        numbers.push(number).is_ok() && self.map.insert(group, numbers).is_ok()
    }
}
