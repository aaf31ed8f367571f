//! A look at a segment, while others record in it.

ghost use Rattle.std.specs.Prelude.{◌≡◌, length};
ghost use Rattle.live_segment.specs.Look.{IsLookTaken};

use crate::segment::Segment;
use segment_image::Image;
use segment_looks::{LookFault, compose};
use std::alloc::Global;

impl Segment {
    // Loads each word once. No clause says which numbers were loaded.
    fn peek_words(&self, words: &mut [u64])
        requires { length words.old ≡ self.now.setting.shape.size }
        ensures { length words.new ≡ length words.old }
    {
        for (i, word) in words.iter_mut().enumerate() {
            *word = self.table.shared.peek(i + 1);
        }
    }

    /// Returns a look at the segment: the image that three copies of its words give, taken one after the other while
    /// other threads record. It takes no recorder and no units, and disturbs none.
    ///
    /// Of some three copies it returns what [`segment_looks::compose`] does: the image, or the first fault, which is
    /// `OldVersion` for a segment of version 1; or `NoMemory` comes. Each copy has one loaded number for each word.
    pub fn look(&self, alloc: Global) -> Result<Image, LookFault>
        ensures { IsLookTaken self.now.setting.shape.size result }
    {
        let size = self.size() as usize;
        let mut words = vec![in alloc; 0; 3 * size]?;
        let (one, rest) = words.split_at_mut(size);
        let (two, three) = rest.split_at_mut(size);
        self.peek_words(one);
        self.peek_words(two);
        self.peek_words(three);
        compose(alloc, one, two, three)
    }
}
