//! What is noted of a histogram of which not all was added.

ghost use Rattle.std.specs.Prelude.{◌≡◌};
ghost use Rattle.image_reader.specs.Views.{histogram_view};
ghost use Rattle.segment_merge.specs.Cut.{cut_at, kept, kept_of, left_behind};
ghost use Rattle.segment_merge.specs.Remainder.{marked};

use image_reader::HistReading;

// What is noted of a key while this many items are left, and how many are left behind it.
fn kept_next(count: (i32, u64), mark: u64, left: usize) -> ((i32, u64), usize)
    ensures { result ≡ (kept_of left (count, mark), left_behind left (count, mark)) }
{
    let (key, units) = count;
    if mark >= units {
        (count, left)
    } else if left == 0 {
        ((key, mark), 0)
    } else {
        (count, left - 1)
    }
}

// Puts the marks in the place of the units of all keys that have more, except for the first ones: of these, this many
// stay as they are.
fn cut_back(counts: &mut [(i32, u64)], marks: &[u64], items: usize)
    ensures { counts.new ≡ kept items (marked counts.old marks.now) }
{
    let mut left = items;
    for i in 0..counts.len() {
        let mark = marks.get(i).copied().unwrap_or(0);
        let (count, behind) = kept_next(counts[i], mark, left);
        counts[i] = count;
        left = behind;
    }
}

// What is noted of a histogram once the first items of what it has above its marks were added, and its sum was not.
pub(crate) fn noted_cut(hist: HistReading, items: usize) -> HistReading
    ensures { histogram_view result ≡ cut_at items (histogram_view hist) }
{
    let HistReading {
        reference,
        name,
        spec,
        mut counts,
        marks,
        sum: _,
        sum_mark,
        redundant,
    } = hist;
    cut_back(&mut counts, &marks, items);
    HistReading {
        reference,
        name,
        spec,
        counts,
        marks,
        sum: sum_mark,
        sum_mark,
        redundant,
    }
}
