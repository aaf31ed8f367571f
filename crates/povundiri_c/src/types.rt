//! What C passes in addition to handles.

/// How a segment is made.
#[repr(C)]
#[derive(Clone, Copy)]
pub struct SegmentShape {
    /// How many words it has.
    pub size: u64,
    /// How many words a page has.
    pub page: u64,
    /// Any number.
    pub id: u64,
    /// How many cursors the recorders share.
    pub cursors: usize,
    /// The version of the format.
    pub version: u64,
}

/// How a histogram splits the values. Fields that its kind does not need are not read.
#[repr(C)]
#[derive(Clone, Copy)]
pub struct HistSpec {
    /// 1 linear, 2 boolean, 3 custom, 4 sparse, 5 custom with the values of a scale.
    pub kind: u32,
    /// Of a linear one and of a scale.
    pub minimum: u32,
    /// Of a linear one and of a scale.
    pub maximum: u32,
    /// Of a linear one; of a scale its bits.
    pub buckets: u32,
}

/// Units of a value.
#[repr(C)]
#[derive(Clone, Copy)]
pub struct Item {
    /// The value.
    pub value: i32,
    /// How many units.
    pub count: u32,
}

/// Units of a key.
#[repr(C)]
#[derive(Clone, Copy)]
pub struct Count {
    /// The least value of a bucket, or a value of a sparse histogram.
    pub key: i32,
    /// How many units.
    pub count: u64,
}

/// What a delta or a snapshot returns along with its counts.
#[repr(C)]
#[derive(Clone, Copy)]
pub struct Totals {
    /// How many counts were written, or are needed.
    pub length: usize,
    /// The sum.
    pub sum: i64,
    /// The redundant count of a snapshot.
    pub redundant: u64,
}

/// What a merge returns along with its status.
#[repr(C)]
#[derive(Clone, Copy)]
pub struct MergeTotals {
    /// How many units were added.
    pub added: u64,
    /// How many units were not added: of those that no delta took of the image, or that came since it was followed.
    pub left: u64,
    /// How many units it costs to add all of these.
    pub cost: u64,
    /// How many units the image has left.
    pub unspent: u64,
    /// How many items were counted of the histogram that stopped the merge, or of the first that was passed over.
    pub items: usize,
    /// Of a follower: how many histograms were passed over. Else 0.
    pub passed: usize,
    /// How long the name of that histogram is; 0 if there is none.
    pub name_length: usize,
    /// Whether the image is marked as full.
    pub full: bool,
    /// Whether it is marked as corrupt.
    pub corrupt: bool,
}
