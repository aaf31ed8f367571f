//! What calls do to the words that count.

ghost use Rattle.std.specs.Prelude.{◌≡◌, ◌+◌, ◌%◌, ◌^◌, ◌<◌, length, max, slice_set};
ghost use Rattle.segment_image.specs.Words.{word_at};

// Adds a number to the word `at`, modulo 2^64.
pub(crate) fn fetch_add(words: &mut [u64], at: usize, amount: u64)
    requires { at < length words.old }
    ensures { words.new ≡ slice_set words.old at ((word_at words.old at + amount) % 2 ^ 64) }
{
    words[at] = words[at].wrapping_add(amount);
}

// Raises the word `at` to a number if it is below that, and returns the number that was there.
pub(crate) fn fetch_max(words: &mut [u64], at: usize, least: u64) -> u64
    requires { at < length words.old }
    ensures words { words.new ≡ slice_set words.old at (max (word_at words.old at) least) }
    ensures found { result ≡ word_at words.old at }
{
    let found = words[at];
    words[at] = found.max(least);
    found
}

// Stores a number in the word `at`, and returns the number that was there.
pub(crate) fn swap(words: &mut [u64], at: usize, value: u64) -> u64
    requires { at < length words.old }
    ensures words { words.new ≡ slice_set words.old at value }
    ensures found { result ≡ word_at words.old at }
{
    let found = words[at];
    words[at] = value;
    found
}
