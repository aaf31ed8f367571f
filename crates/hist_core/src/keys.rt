//! The key that the units of a sample have, and lists of keys with units, in the order of the keys.

ghost use Rattle.std.specs.Prelude.{◌≡◌, ◌<◌, ◌≤◌, length, vec_len, vec_capacity};
ghost use Rattle.bucket_ranges.specs.Ranges.{AreBoundaries};
ghost use Rattle.segment_machine.specs.Entry.{key_of as key_of_value};
ghost use Rattle.hist_core.specs.DeltaCall.{insert_by_key, place_of as place_of_key};

use bucket_ranges::Ranges;

// The place of a key among these: that of the first one that is not less.
fn place_of(counts: &[(i32, u64)], key: i32) -> usize
    ensures within { result ≤ length counts.now }
    ensures place { result ≡ place_of_key key counts.now }
{
    for (place, count) in counts.iter().enumerate() {
        if count.0 >= key {
            return place;
        }
    }
    counts.len()
}

// Adds units of a key to a list, in the order of the keys. There is room for them.
pub(crate) fn list_by_key(counts: &mut Vec<(i32, u64)>, key: i32, units: u64)
    requires { vec_len counts.old < vec_capacity counts.old }
    ensures items { counts.new.items ≡ insert_by_key (key, units) counts.old.items }
    ensures room { vec_capacity counts.new ≡ vec_capacity counts.old }
{
    let place = place_of(counts, key);
    counts.insert(place, (key, units)).unwrap();
}

// The key of a value: the least value of its bucket, or the value itself if there are no buckets.
pub(crate) fn key_of(ranges: &Ranges, value: i32) -> i32
    requires { AreBoundaries ranges.now }
    ensures { result ≡ key_of_value ranges.now value }
{
    if ranges.len() > 0 {
        ranges.low(ranges.bucket(value))
    } else {
        value
    }
}
