//! Patches of words, put on others.

ghost use Rattle.std.specs.Prelude.{◌≤◌, ◌+◌, [], ◌∷◌, length, replicate};
ghost use Rattle.segment_looks.specs.Patches.{IsPatched};

/// Overwrites the words from an index on with others.
pub(crate) fn put(words: &mut [u64], from: usize, patch: &[u64])
    requires { from + length patch.now ≤ length words.old }
    ensures { IsPatched (record { from = from; words = patch.now } ∷ []) words.old words.new }
{
    words[from..from + patch.len()].copy_from_slice(patch);
}

/// Overwrites `count` words from an index on with zeros.
pub(crate) fn put_zeros(words: &mut [u64], from: usize, count: usize)
    requires { from + count ≤ length words.old }
    ensures { IsPatched (record { from = from; words = replicate count 0 } ∷ []) words.old words.new }
{
    words[from..from + count].fill(0);
}
