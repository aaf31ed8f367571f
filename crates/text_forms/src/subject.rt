//! What a text is made of: a reading, and what is said beside it.

ghost use Rattle.std.specs.Prelude.{All, map};
ghost use Rattle.image_reader.specs.Readable.{IsReadable};
ghost use Rattle.image_reader.specs.Views.{histogram_view};
ghost use Rattle.std.proofs.Props.{props};
ghost use Rattle.text_forms.specs.Readables.{one_per_bucket_prop};

use crate::head::{Head, said_of};
use image_reader::{Reading, read};
use persist_report_core::{CliFault, image_in};
use reading_sums::Sums;
use segment_image::header;
use std::alloc::{AllocError, Global};

/// What a text is made of: a reading whose histograms are readable, and what is said beside it.
#[derive(Drop)]
pub struct Subject {
    pub(crate) reading: Reading,
    pub(crate) head: Head,
    ghost readable: { All IsReadable (map histogram_view reading.hists.items) } by { Prim.hlevel (one_per_bucket_prop, props) },
}

impl Subject {
    ghost use Rattle.std.specs.Prelude.{◌≡◌, ◌≢◌, ◌↔◌, All, map, is_some, true, IfErr, IfOk, IfSome};
    ghost use Rattle.segment_image.specs.Words.{bytes_of_words};
    ghost use Rattle.image_reader.specs.Readable.{IsReadable};
    ghost use Rattle.image_reader.specs.Views.{histogram_view, reading_view};
    ghost use Rattle.persist_report_core.specs.Report.{IsCausedByImage, IsReadingOf};
    ghost use Rattle.reading_sums.specs.Whole.{IsWellFormed};
    ghost use Rattle.text_forms.specs.Subjects.{IsImageIn, IsSubjectOfSum};
    ghost use Rattle.text_forms.specs.declared.head.Head.TheVariants.{Unknown};

    /// Returns the image in the words: its header and its reading [image]. The words are those of a closed image or of
    /// a mapped file.
    ///
    /// The fault is `Image` with the first fault of the image's header [cause], or `NoMemory` if memory runs out; never
    /// `Read` or `Write` [other].
    pub fn of_words(alloc: Global, words: &[u64]) -> Result<Subject, CliFault>
        ensures image { IfOk result (λ subject. IsImageIn (bytes_of_words words.now) subject.head (reading_view subject.reading)) }
        ensures cause { IfErr result (λ fault. IsCausedByImage (bytes_of_words words.now) fault) }
        ensures other { IfErr result (λ fault. (fault ≢ CliFault.Read) × (fault ≢ CliFault.Write)) }
    {
        let image = image_in(words);
        let reading = read(alloc, image)?;
        match header(image) {
            Ok(head) => Ok(Subject {
                reading,
                head: Head::Image(head),
            }),
            Err(fault) => Err(CliFault::Image(fault)),
        }
    }

    /// Returns a sum of which this many inputs were left out: its reading and what it leaves out [sum]; none exactly if
    /// the sum is not well formed [formed]. The one error is that memory runs out.
    pub fn of_sum(alloc: Global, sums: &Sums, left: u64) -> Result<Option<Subject>, AllocError>
        ensures sum { IfOk result (λ found. IfSome found (λ subject. IsSubjectOfSum sums.now left subject.head (reading_view subject.reading))) }
        ensures formed { IfOk result (λ found. (is_some found ≡ true) ↔ IsWellFormed sums.now) }
    {
        if !sums.is_well_formed()? {
            return Ok(None);
        }
        let reading = sums.reading(alloc)?;
        let said = said_of(alloc, sums, left)?;
        Ok(Some(Subject {
            reading,
            head: Head::Sum(said),
        }))
    }

    /// Returns the subject that is this reading [reading], and of which nothing else is known [head].
    pub fn of_reading(reading: Reading) -> Subject
        requires { All IsReadable (map histogram_view reading.hists.items) }
        ensures reading { result.reading ≡ reading }
        ensures head { result.head ≡ Unknown }
    {
        Subject {
            reading,
            head: Head::Unknown,
        }
    }

    /// Returns the subject that has the same reading [reading] and this head [head].
    pub fn with_head(self, head: Head) -> Subject
        ensures reading { result.reading ≡ self.reading }
        ensures head { result.head ≡ head }
    {
        let Subject { reading, head: _ } = self;
        Subject { reading, head }
    }

    /// Returns its reading [reading], whose histograms are readable [readable].
    pub fn reading(&self) -> &Reading
        ensures reading { result.now ≡ self.now.reading }
        ensures readable { All IsReadable (map histogram_view result.now.hists.items) }
    {
        &self.reading
    }

    /// Returns what it says beside its reading.
    pub fn head(&self) -> &Head
        ensures { result.now ≡ self.now.head }
    {
        &self.head
    }

    /// Returns its reading [reading], whose histograms are readable [readable], and what it says beside that [head].
    pub fn into_parts(self) -> (Reading, Head)
        ensures reading { result.0 ≡ self.reading }
        ensures readable { All IsReadable (map histogram_view result.0.hists.items) }
        ensures head { result.1 ≡ self.head }
    {
        let Subject { reading, head } = self;
        (reading, head)
    }
}
