//! Keys with units, in the order of their keys.

ghost use Rattle.segment_calls.specs.Keys.{AreSorted};

/// Sorts keys with units by their keys: they are the same pairs, and ascend if no key comes twice.
pub fn sort_by_key(counts: &mut Vec<(i32, u64)>)
    ensures { AreSorted counts.old.items counts.new.items }
{
    counts.sort_unstable_by_key(|count| count.0);
}
