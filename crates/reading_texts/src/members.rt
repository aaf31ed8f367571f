//! Histograms as members of families, and which of them cannot both be families.

ghost use Rattle.std.specs.Prelude.{◌≡◌, ◌++◌, IfOk, OnOk, map, option_map};
ghost use Rattle.std.specs.List.{flat_map};
ghost use Rattle.std.specs.Str.{bytes_eq};
ghost use Rattle.image_reader.specs.Views.{histogram_view};
ghost use Rattle.reading_texts.specs.Labels.{label_view};
ghost use Rattle.reading_texts.specs.Members.{member_view, clash_view};
ghost use Rattle.reading_texts.specs.Families.{family_byte as byte_of_family, led_label_text, member_of as member_of_hist, same_family as same_family_of, same_kind as same_kind_of, is_part_of as is_part_of_family, clashes as clashes_of, is_of_segment as is_of_segment_of, clash_among as clash_among_of, clash_of as clash_of_member, first_clash as first_clash_of};

use crate::labels::{Label, is_later, put_label, read_name, text_of_name};
use crate::words::kind_word;
use image_reader::HistReading;
use std::alloc::{AllocError, Global};

/// A histogram as a member of its family: the family's name without the prefix, and the labels of its lines as text,
/// each followed by a comma.
#[derive(Drop)]
pub(crate) struct Member<'a> {
    pub hist: &'a HistReading,
    pub family: Vec<u8>,
    pub labels: Vec<u8>,
}

/// The names of two histograms that cannot both be families; or the name of one, and that of a family of the segment.
#[derive(Clone, Copy)]
pub(crate) struct Clash<'a> {
    pub first: &'a [u8],
    pub second: &'a [u8],
}

// What a byte of a name becomes in the name of a family.
fn family_byte(byte: u8) -> u8
    ensures { result ≡ byte_of_family byte }
{
    if is_later(byte) { byte } else { b'_' }
}

// A histogram's name as the name of a family.
fn family_of(alloc: Global, name: &[u8]) -> Result<Vec<u8>, AllocError>
    ensures { IfOk result (λ family. family.items ≡ map byte_of_family name.now) }
{
    let mut family = Vec::new(alloc);
    for byte in name {
        family.push(family_byte(*byte))?;
    }
    Ok(family)
}

// Puts labels, each followed by a comma.
fn put_led(text: &mut Vec<u8>, labels: &[Label<'_>]) -> Result<(), AllocError>
    ensures { OnOk result (text.new.items ≡ text.old.items ++ flat_map led_label_text (map label_view labels.now)) }
{
    for label in labels {
        put_label(text, label.key, label.value)?;
        text.push(b',')?;
    }
    Ok(())
}

// A histogram as a member of its family.
fn member_of<'a>(
    alloc: Global,
    hist: &'a HistReading,
    line_labels: &[Label<'_>],
) -> Result<Member<'a>, AllocError>
    ensures { IfOk result (λ member. member_view member ≡ member_of_hist (map label_view line_labels.now) (histogram_view hist.now)) }
{
    let name = text_of_name(alloc, &hist.name)?;
    let named = read_name(alloc, &name, line_labels)?;
    let family = family_of(alloc, named.base)?;
    let mut labels = Vec::new(alloc);
    put_led(&mut labels, &named.own)?;
    put_led(&mut labels, line_labels)?;
    Ok(Member {
        hist,
        family,
        labels,
    })
}

/// The histograms as members of their families.
pub(crate) fn members_of<'a>(
    alloc: Global,
    hists: &[&'a HistReading],
    line_labels: &[Label<'_>],
) -> Result<Vec<Member<'a>>, AllocError>
    ensures { IfOk result (λ members. map member_view members.items ≡ map (member_of_hist (map label_view line_labels.now)) (map (λ hist. histogram_view hist.now) hists.now)) }
{
    let mut members = Vec::new(alloc);
    for hist in hists {
        members.push(member_of(alloc, hist, line_labels)?)?;
    }
    Ok(members)
}

/// Whether two members are of one family.
pub(crate) fn same_family(a: &Member<'_>, b: &Member<'_>) -> bool
    ensures { result ≡ same_family_of (member_view a.now) (member_view b.now) }
{
    a.family.as_slice() == b.family.as_slice()
}

// Whether they are of one kind.
fn same_kind(a: &Member<'_>, b: &Member<'_>) -> bool
    ensures { result ≡ same_kind_of (member_view a.now) (member_view b.now) }
{
    kind_word(&a.hist.spec) == kind_word(&b.hist.spec)
}

// Whether a family's name is another one with this suffix.
fn is_with(family: &[u8], other: &[u8], suffix: &[u8]) -> bool
    ensures { result ≡ bytes_eq family.now (other.now ++ suffix.now) }
{
    if family.len() < other.len() {
        return false;
    }
    let (front, behind) = family.split_at(other.len());
    front == other && behind == suffix
}

// Whether a family's name is that of another, followed by `_bucket`, `_sum` or `_count`.
fn is_part_of(family: &[u8], other: &[u8]) -> bool
    ensures { result ≡ is_part_of_family family.now other.now }
{
    is_with(family, other, b"_bucket")
        || is_with(family, other, b"_sum")
        || is_with(family, other, b"_count")
}

// Whether two members clash.
fn clashes(a: &Member<'_>, b: &Member<'_>) -> bool
    ensures { result ≡ clashes_of (member_view a.now) (member_view b.now) }
{
    (same_family(a, b) && (!same_kind(a, b) || a.labels.as_slice() == b.labels.as_slice()))
        || is_part_of(&a.family, &b.family)
        || is_part_of(&b.family, &a.family)
}

// Whether a family is one of the segment itself.
fn is_of_segment(family: &[u8]) -> bool
    ensures { result ≡ is_of_segment_of family.now }
{
    family == b"bad_records".as_slice() || family == b"segment_flag".as_slice()
}

// The first of these with which one clashes.
fn clash_among<'a>(one: &'a Member<'a>, more: &'a [Member<'a>]) -> Option<Clash<'a>>
    ensures { option_map clash_view result ≡ clash_among_of (member_view one.now) (map member_view more.now) }
{
    let mut rest = more;
    while let [other, behind @ ..] = rest {
        if clashes(one, other) {
            return Some(Clash {
                first: &one.hist.name,
                second: &other.hist.name,
            });
        }
        rest = behind;
    }
    None
}

// With what a member clashes: with a family of the segment, or with one of these.
fn clash_of<'a>(one: &'a Member<'a>, more: &'a [Member<'a>]) -> Option<Clash<'a>>
    ensures { option_map clash_view result ≡ clash_of_member (member_view one.now) (map member_view more.now) }
{
    if is_of_segment(&one.family) {
        return Some(Clash {
            first: &one.hist.name,
            second: &one.family,
        });
    }
    clash_among(one, more)
}

/// The first one that clashes with a family of the segment or with a later one, and with what.
pub(crate) fn first_clash<'a>(members: &'a [Member<'a>]) -> Option<Clash<'a>>
    ensures { option_map clash_view result ≡ first_clash_of (map member_view members.now) }
{
    let mut rest = members;
    while let [one, more @ ..] = rest {
        if let Some(clash) = clash_of(one, more) {
            return Some(clash);
        }
        rest = more;
    }
    None
}
