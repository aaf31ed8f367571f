//! What a subject says beside its reading.

ghost use Rattle.std.specs.Prelude.{◌≡◌, IfOk};
ghost use Rattle.text_forms.specs.Heads.{IsSaidOf, is_known, is_of_image, sum_head as sum_head_of};

use reading_overviews::SumHead;
use reading_sums::{Notes, OtherSpec, Sums};
use segment_image::SegmentHead;
use std::alloc::{AllocError, Global};

/// What a sum says beside its reading.
#[derive(Drop)]
pub struct SumSaid {
    /// What its images say apart from their histograms.
    pub notes: Notes,
    /// What it has under the specs that its reading leaves out.
    pub others: Vec<OtherSpec>,
    /// How many inputs were left out of it.
    pub left: u64,
}

/// What a subject says beside its reading.
#[derive(Drop)]
pub enum Head {
    /// The header of an image.
    Image(SegmentHead),
    /// What a sum says.
    Sum(SumSaid),
    /// Nothing: of a reading alone.
    Unknown,
}

impl Head {
    /// Returns whether it is that of an image.
    pub fn is_image(&self) -> bool
        ensures { result ≡ is_of_image self.now }
    {
        match self {
            Head::Image(_) => true,
            Head::Sum(_) | Head::Unknown => false,
        }
    }

    /// Returns whether it is that of an image or of a sum.
    pub fn is_known(&self) -> bool
        ensures { result ≡ is_known self.now }
    {
        match self {
            Head::Image(_) | Head::Sum(_) => true,
            Head::Unknown => false,
        }
    }
}

// What a sum says, of which this many inputs were left out.
pub(crate) fn said_of(alloc: Global, sums: &Sums, left: u64) -> Result<SumSaid, AllocError>
    ensures { IfOk result (IsSaidOf sums.now left) }
{
    Ok(SumSaid {
        notes: sums.notes(),
        others: sums.others(alloc)?,
        left,
    })
}

// What the overview of a sum says of its inputs.
pub(crate) fn sum_head(said: &SumSaid) -> SumHead
    ensures { result ≡ sum_head_of said.now }
{
    SumHead {
        images: said.notes.images,
        left: said.left,
        full: said.notes.full,
        corrupt: said.notes.corrupt,
        stopped: said.notes.stopped,
        bad: said.notes.bad,
        others: said.others.len() as u64,
    }
}
