//! The words for kinds of histograms and for faults, which are the same in every text of a reading.

ghost use Rattle.std.specs.Prelude.{◌≡◌};
ghost use Rattle.reading_texts.specs.Exporting.{is_sparse as is_sparse_of};
ghost use Rattle.reading_texts.specs.Text.{kind_word as kind_word_of, record_fault_word as record_fault_word_of, image_fault_word as image_fault_word_of};

use bucket_ranges::Spec;
use image_reader::RecordFault;
use segment_image::ImageFault;

/// Returns whether a spec is sparse.
pub fn is_sparse(spec: &Spec) -> bool
    ensures { result ≡ is_sparse_of spec.now }
{
    matches!(spec, Spec::Sparse)
}

/// Returns the word for a kind of histogram.
pub fn kind_word(spec: &Spec) -> &[u8]
    ensures { result.now ≡ kind_word_of spec.now }
{
    match spec {
        Spec::Linear { .. } => b"linear",
        Spec::Boolean => b"boolean",
        Spec::Custom(_) => b"custom",
        Spec::Sparse => b"sparse",
    }
}

/// Returns the name of a record's fault.
pub fn record_fault_word(fault: RecordFault) -> &'static [u8]
    ensures { result.now ≡ record_fault_word_of fault }
{
    match fault {
        RecordFault::BadKind => b"BadKind",
        RecordFault::BadName => b"BadName",
        RecordFault::BadSpec => b"BadSpec",
        RecordFault::BadCounts => b"BadCounts",
        RecordFault::BadSingle => b"BadSingle",
        RecordFault::BadMark => b"BadMark",
        RecordFault::BadSum => b"BadSum",
        RecordFault::BadSample => b"BadSample",
    }
}

/// Returns the name of an image's fault.
pub fn image_fault_word(fault: ImageFault) -> &'static [u8]
    ensures { result.now ≡ image_fault_word_of fault }
{
    match fault {
        ImageFault::TooShort => b"TooShort",
        ImageFault::BadCookie => b"BadCookie",
        ImageFault::BadVersion => b"BadVersion",
        ImageFault::BadPage => b"BadPage",
        ImageFault::BadSize => b"BadSize",
        ImageFault::NotReady => b"NotReady",
        ImageFault::Deleted => b"Deleted",
        ImageFault::BadFree => b"BadFree",
        ImageFault::BadQueue => b"BadQueue",
        ImageFault::BadRef => b"BadRef",
        ImageFault::BadBlock => b"BadBlock",
        ImageFault::Loop => b"Loop",
        ImageFault::NoMemory => b"NoMemory",
    }
}
