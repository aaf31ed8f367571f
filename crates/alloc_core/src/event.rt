//! The atomic operations on single words, on words that one thread holds. Each gives the number that it found.

ghost use Rattle.std.specs.Prelude.{◌≡◌, ◌<◌, length};
ghost use Rattle.segment_image.specs.Words.{word_at};
ghost use Rattle.alloc_core.specs.Event.{store as store_of, exchange as exchange_of, set_bits as set_bits_of, after};

/// Stores a value in the word `at`, which is one of the words [words]. Returns the value that was there [found].
pub fn store(words: &mut [u64], at: usize, value: u64) -> u64
    requires { at < length words.old }
    ensures words { words.new ≡ after (store_of at value) words.old }
    ensures found { result ≡ word_at words.old at }
{
    let found = words[at];
    words[at] = value;
    found
}

/// Exchanges the word `at` for a new value if it is the old one [words]. Returns the value that was there, so the
/// exchange succeeded if that is the old one [found].
pub fn exchange(words: &mut [u64], at: usize, old: u64, new: u64) -> u64
    requires { at < length words.old }
    ensures words { words.new ≡ after (exchange_of at old new) words.old }
    ensures found { result ≡ word_at words.old at }
{
    let found = words[at];
    if found == old {
        words[at] = new;
    }
    found
}

/// Sets bits of the word `at`, and leaves its others unchanged [words]. Returns the value that was there [found].
pub fn set_bits(words: &mut [u64], at: usize, bits: u64) -> u64
    requires { at < length words.old }
    ensures words { words.new ≡ after (set_bits_of at bits) words.old }
    ensures found { result ≡ word_at words.old at }
{
    let found = words[at];
    words[at] = found | bits;
    found
}
