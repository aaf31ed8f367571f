//! The text of a reading for programs that scrape metrics, with a family for each histogram, named after it.

ghost use Rattle.std.specs.Prelude.{◌≡◌, ◌++◌, All, IfOk, IfErr, List, OnOk, None, map, true, ℕ};
ghost use Rattle.std.specs.List.{flat_map, list_any};
ghost use Rattle.segment_image.specs.declared.head.SegmentHead.{SegmentHead};
ghost use Rattle.bucket_ranges.specs.Reading.{IsReading, first_of_each};
ghost use Rattle.image_reader.specs.Views.{histogram_view, reading_view};
ghost use Rattle.image_reader.specs.Readable.{IsReadable};
ghost use Rattle.reading_texts.specs.Labels.{label_view, are_line_labels as are_line_labels_of};
ghost use Rattle.reading_texts.specs.Series.{IsTextOfDistinctSeries};
ghost use Rattle.reading_texts.specs.Members.{member_view, IsClashOf, IsCauseIn};
ghost use Rattle.reading_texts.specs.Families.{same_family as same_family_of, first_clash as first_clash_of, AreFamiliesByName, IsFamiliesTextOf};
ghost use Rattle.reading_texts.specs.FamilyLines.{lines_with};

use crate::exporting::{put_bad, put_flags};
use crate::family_lines::put_family;
use crate::labels::Label;
use crate::members::{Member, first_clash, members_of, same_family};
use crate::order::in_order;
use image_reader::Reading;
use std::alloc::{AllocError, Global};

/// Why a reading has no text with a family for each histogram.
#[derive(PartialEq, Eq, Drop)]
pub enum FamilyFault {
    /// Two histograms that cannot both be families, or one that cannot be a family beside one of the segment: both
    /// names.
    Clash { first: Vec<u8>, second: Vec<u8> },
    /// Memory runs out.
    NoMemory,
}

impl From<AllocError> for FamilyFault {
    ghost use Rattle.std.specs.Prelude.{◌≡◌};
    ghost use Rattle.reading_texts.specs.declared.families.FamilyFault.TheVariants.{NoMemory};

    ghost from_gives = { λ _ result. result ≡ NoMemory };

    fn from(_: AllocError) -> FamilyFault {
        FamilyFault::NoMemory
    }
}

// Whether one of these members is of the family.
fn has_family(members: &[Member<'_>], one: &Member<'_>) -> bool
    ensures { result ≡ list_any (λ member. same_family_of member (member_view one.now)) (map member_view members.now) }
{
    let mut rest = members;
    while let [member, more @ ..] = rest {
        if same_family(member, one) {
            return true;
        }
        rest = more;
    }
    false
}

// The families of all members, each at the place of its first member.
fn put_families(
    alloc: Global,
    text: &mut Vec<u8>,
    prefix: &[u8],
    members: &[Member<'_>],
) -> Result<(), AllocError>
    requires { All (λ member. IsReadable member.hist) (map member_view members.now) }
    ensures { OnOk result (text.new.items ≡ text.old.items ++ flat_map (lines_with prefix.now (map member_view members.now)) (first_of_each same_family_of (map member_view members.now))) }
{
    for (i, one) in members.iter().enumerate() {
        if !has_family(&members[..i], one) {
            put_family(alloc, text, prefix, one, members)?;
        }
    }
    Ok(())
}

// Checks that no two members clash.
fn check_clashes(alloc: Global, members: &[Member<'_>]) -> Result<(), FamilyFault>
    ensures none { OnOk result (first_clash_of (map member_view members.now) ≡ None) }
    ensures clash { IfErr result (IsClashOf (map member_view members.now)) }
{
    match first_clash(members) {
        None => Ok(()),
        Some(clash) => Err(FamilyFault::Clash {
            first: Vec::from_slice(alloc, clash.first)?,
            second: Vec::from_slice(alloc, clash.second)?,
        }),
    }
}

/// Returns the text of a reading in the Prometheus text format, version 0.0.4, with a family for each histogram. The
/// name of a family is `prefix`, `_` and the histogram's name without its labels, with an underscore for each byte that
/// is no ASCII letter or digit. The prefix has to satisfy [`is_prefix`](crate::is_prefix), and all lines get these
/// labels, which have to satisfy [`are_line_labels`](crate::are_line_labels).
///
/// The text is exactly the one that is defined, and then no two histograms clash [text]. If the reading is that of
/// words and all lines may have these labels, then no two lines are of one series, which is one name of a metric with
/// one set of labels [series]. `Clash` is returned only with the names of the first that clash [clash]: two of one
/// family that are of two kinds or have the same labels, two of which one's family has the name of a metric of the
/// other, or one whose family is one of the segment. The other error is that memory runs out.
pub fn families_text(
    alloc: Global,
    reading: &Reading,
    prefix: &[u8],
    line_labels: &[Label<'_>],
) -> Result<Vec<u8>, FamilyFault>
    requires { All IsReadable (map histogram_view reading.now.hists.items) }
    ensures text { IfOk result (λ text. IsFamiliesTextOf prefix.now (map label_view line_labels.now) (reading_view reading.now) text.items) }
    ensures series { (words : List ℕ) → (head : SegmentHead) → IsReading words head (reading_view reading.now) → are_line_labels_of (map label_view line_labels.now) ≡ true → IfOk result (λ text. IsTextOfDistinctSeries (AreFamiliesByName prefix.now (map label_view line_labels.now) (reading_view reading.now)) text.items) }
    ensures clash { IfErr result (IsCauseIn (map label_view line_labels.now) (reading_view reading.now)) }
{
    let hists = in_order(alloc, reading)?;
    let members = members_of(alloc, &hists, line_labels)?;
    check_clashes(alloc, &members)?;
    let mut text = Vec::new(alloc);
    put_families(alloc, &mut text, prefix, &members)?;
    put_bad(alloc, &mut text, prefix, line_labels, reading)?;
    put_flags(alloc, &mut text, prefix, line_labels, reading)?;
    Ok(text)
}
