//! Where a running call is.

/// What a call has loaded of a histogram that is not sparse.
pub struct Look {
    /// The reference of the histogram's record.
    pub histogram: u64,
    /// The single word, if it was loaded and no exchange of it has failed since.
    pub single: Option<u64>,
    /// The counts reference that was loaded or stored, 0 if there is none yet.
    pub counts: u64,
}

/// Where a running call is: what it has loaded and stored, as far as its next events depend on that. A walk has no
/// place of its own, since the records that it visited are in what the actor has seen.
pub enum Place {
    /// The actor has been joined with another, or is a purse that carries units to one. It never does anything.
    Spent,
    /// No call is running, or the call is at the start of one of its parts.
    Idle,
    /// Allocation: it loaded flags without the corrupt one.
    FlagsLoaded,
    /// Allocation: it loaded a valid free pointer.
    FreeLoaded { free: u64 },
    /// Allocation: the `size` words from `at` on are its own, all zeros. Its block needs `wanted` words: if `size` is
    /// less, they are the rest of a page, which it wastes.
    Raised { at: u64, size: u64, wanted: u64 },
    /// Allocation: their size is stored.
    Sized { at: u64, size: u64, wanted: u64 },
    /// Allocation: the cookie of a claimed block is stored too.
    Marked { at: u64, size: u64 },
    /// Publishing: it loaded the tail, and its record is not linked.
    TailLoaded { tail: u64 },
    /// Publishing: it found another record, `next`, after the tail.
    Beaten { tail: u64, next: u64 },
    /// Publishing: its record `at` is linked after `tail`, which may still be the tail.
    Linked { at: u64, tail: u64 },
    /// Counting or taking: it knows the single word, the counts reference, or both.
    Looking { look: Look },
    /// Counting: its counts block `at` is not needed, since another one was mounted first.
    Losing { look: Look, at: u64 },
    /// Counting, in version 1: it disabled a single word that had `units` of `bucket`, and has not added them to the
    /// counts.
    Moving { look: Look, bucket: u64, units: u64 },
    /// Taking: it loaded the count of a bucket.
    CountLoaded { look: Look, bucket: u64, count: u64 },
    /// Taking: it loaded the count of a sparse sample.
    SampleLoaded { sample: u64, count: u64 },
    /// Taking: it loaded the sum.
    SumLoaded { histogram: u64, sum: i64 },
    /// A shared cursor: it loaded the record at which the cursor is.
    CursorLoaded { cursor: u64, at: u64 },
    /// A shared cursor: it loaded the record after that.
    BehindCursor { cursor: u64, at: u64, next: u64 },
}
