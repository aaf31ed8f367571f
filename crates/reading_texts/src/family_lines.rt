//! The lines of the families of histograms.

ghost use Rattle.std.specs.Prelude.{◌≡◌, ◌++◌, All, OnOk, map, false, pos, ◌≤ℤ◌};
ghost use Rattle.std.specs.List.{flat_map, filter};
ghost use Rattle.image_reader.specs.Readable.{IsReadable};
ghost use Rattle.reading_texts.specs.Exporting.{is_sparse as is_sparse_of};
ghost use Rattle.reading_texts.specs.Members.{member_view};
ghost use Rattle.reading_texts.specs.Families.{same_family as same_family_of};
ghost use Rattle.reading_texts.specs.FamilyLines.{braced, bucket_line, infinite_line, value_line, number_line, ranged_lines, units_lines, values_lines, sum_line, lines_of, of_family, sparse_lines, ranged_family_lines, lines_with};

use crate::exporting::{put_bucket_rows, put_heading, put_value_rows};
use crate::members::{Member, same_family};
use crate::parts::put_parts;
use crate::rows::{HistRow, rows_of, units};
use crate::words::is_sparse;
use std::alloc::{AllocError, Global};

// Puts labels in braces, without the last comma; nothing if there are none.
fn put_braced(text: &mut Vec<u8>, labels: &[u8]) -> Result<(), AllocError>
    ensures { OnOk result (text.new.items ≡ text.old.items ++ braced labels.now) }
{
    match labels {
        [front @ .., _] => put_parts(text, &[b"{", front, b"}"]),
        [] => Ok(()),
    }
}

// The lines of all buckets.
fn put_buckets(
    alloc: Global,
    text: &mut Vec<u8>,
    name: &[u8],
    labels: &[u8],
    rows: &[HistRow],
) -> Result<(), AllocError>
    requires { All (λ row. pos 0 ≤ℤ row.high) rows.now }
    ensures { OnOk result (text.new.items ≡ text.old.items ++ flat_map (bucket_line name.now labels.now) rows.now) }
{
    let mut start = Vec::new(alloc);
    put_parts(&mut start, &[name, b"_bucket{", labels, b"le=\""])?;
    put_bucket_rows(text, &start, rows)?;
    Ok(())
}

// Puts the line of all units, as the last bucket.
fn put_infinite(
    text: &mut Vec<u8>,
    name: &[u8],
    labels: &[u8],
    units: &[u8],
) -> Result<(), AllocError>
    ensures { OnOk result (text.new.items ≡ text.old.items ++ infinite_line name.now labels.now units.now) }
{
    put_parts(
        text,
        &[name, b"_bucket{", labels, b"le=\"+Inf\"} ", units, b"\n"],
    )
}

// Puts the line of a number of a histogram as a whole.
fn put_number(
    text: &mut Vec<u8>,
    name: &[u8],
    suffix: &[u8],
    labels: &[u8],
    number: &[u8],
) -> Result<(), AllocError>
    ensures { OnOk result (text.new.items ≡ text.old.items ++ number_line name.now suffix.now labels.now number.now) }
{
    text.extend_from_slice(name)?;
    text.extend_from_slice(suffix)?;
    put_braced(text, labels)?;
    put_parts(text, &[b" ", number, b"\n"])
}

// The lines of a member that has ranges.
fn put_ranged(
    alloc: Global,
    text: &mut Vec<u8>,
    name: &[u8],
    member: &Member<'_>,
) -> Result<(), AllocError>
    requires ranged { is_sparse_of (member_view member.now).hist.spec ≡ false }
    requires readable { IsReadable (member_view member.now).hist }
    ensures { OnOk result (text.new.items ≡ text.old.items ++ ranged_lines name.now (member_view member.now)) }
{
    let rows = rows_of(alloc, member.hist)?;
    put_buckets(alloc, text, name, &member.labels, &rows)?;
    let units = units(member.hist).to_string(alloc)?;
    let sum = member.hist.sum.to_string(alloc)?;
    let units = units.as_bytes();
    put_infinite(text, name, &member.labels, units)?;
    put_number(text, name, b"_sum", &member.labels, sum.as_bytes())?;
    put_number(text, name, b"_count", &member.labels, units)?;
    Ok(())
}

// The lines of a member; none for a sparse one.
fn put_units(
    alloc: Global,
    text: &mut Vec<u8>,
    name: &[u8],
    member: &Member<'_>,
) -> Result<(), AllocError>
    requires { IsReadable (member_view member.now).hist }
    ensures { OnOk result (text.new.items ≡ text.old.items ++ units_lines name.now (member_view member.now)) }
{
    if is_sparse(&member.hist.spec) {
        return Ok(());
    }
    put_ranged(alloc, text, name, member)
}

// The lines of values with these labels.
fn put_rows(
    alloc: Global,
    text: &mut Vec<u8>,
    name: &[u8],
    labels: &[u8],
    rows: &[HistRow],
) -> Result<(), AllocError>
    ensures { OnOk result (text.new.items ≡ text.old.items ++ flat_map (value_line name.now labels.now) rows.now) }
{
    let mut start = Vec::new(alloc);
    put_parts(&mut start, &[name, b"{", labels, b"value=\""])?;
    put_value_rows(text, &start, rows)?;
    Ok(())
}

// The lines of the values of a sparse member.
fn put_values(
    alloc: Global,
    text: &mut Vec<u8>,
    name: &[u8],
    member: &Member<'_>,
) -> Result<(), AllocError>
    requires { IsReadable (member_view member.now).hist }
    ensures { OnOk result (text.new.items ≡ text.old.items ++ values_lines name.now (member_view member.now)) }
{
    let rows = rows_of(alloc, member.hist)?;
    put_rows(alloc, text, name, &member.labels, &rows)
}

// The line of the sum of a sparse member.
fn put_sum(
    alloc: Global,
    text: &mut Vec<u8>,
    name: &[u8],
    member: &Member<'_>,
) -> Result<(), AllocError>
    ensures { OnOk result (text.new.items ≡ text.old.items ++ sum_line name.now (member_view member.now)) }
{
    let sum = member.hist.sum.to_string(alloc)?;
    put_number(text, name, b"_sum", &member.labels, sum.as_bytes())
}

// Which lines of a member are put.
#[derive(Clone, Copy)]
enum MemberLines {
    // Those of its units, if it has ranges.
    Units,
    // Those of its values.
    Values,
    // That of its sum.
    Sum,
}

// These lines of a member, if it is of the same family as another.
fn put_lines_within(
    alloc: Global,
    text: &mut Vec<u8>,
    name: &[u8],
    lines: MemberLines,
    one: &Member<'_>,
    member: &Member<'_>,
) -> Result<(), AllocError>
    requires { IsReadable (member_view member.now).hist }
    ensures { OnOk result (text.new.items ≡ text.old.items ++ of_family (member_view one.now) (lines_of lines name.now) (member_view member.now)) }
{
    if !same_family(one, member) {
        return Ok(());
    }
    match lines {
        MemberLines::Units => put_units(alloc, text, name, member),
        MemberLines::Values => put_values(alloc, text, name, member),
        MemberLines::Sum => put_sum(alloc, text, name, member),
    }
}

// These lines of all members of the family of one.
fn put_all_lines(
    alloc: Global,
    text: &mut Vec<u8>,
    name: &[u8],
    lines: MemberLines,
    one: &Member<'_>,
    members: &[Member<'_>],
) -> Result<(), AllocError>
    requires { All (λ member. IsReadable member.hist) (map member_view members.now) }
    ensures { OnOk result (text.new.items ≡ text.old.items ++ flat_map (lines_of lines name.now) (filter (same_family_of (member_view one.now)) (map member_view members.now))) }
{
    for member in members {
        put_lines_within(alloc, text, name, lines, one, member)?;
    }
    Ok(())
}

// The families of the sparse histograms in the family of one: their values, and their sums.
fn put_sparse_family(
    alloc: Global,
    text: &mut Vec<u8>,
    name: &[u8],
    one: &Member<'_>,
    members: &[Member<'_>],
) -> Result<(), AllocError>
    requires { All (λ member. IsReadable member.hist) (map member_view members.now) }
    ensures { OnOk result (text.new.items ≡ text.old.items ++ sparse_lines name.now (filter (same_family_of (member_view one.now)) (map member_view members.now))) }
{
    put_heading(
        text,
        name,
        b"Units of each value of a sparse histogram.",
        b"untyped",
    )?;
    put_all_lines(alloc, text, name, MemberLines::Values, one, members)?;
    let mut sums = Vec::new(alloc);
    put_parts(&mut sums, &[name, b"_sum"])?;
    put_heading(
        text,
        &sums,
        b"Sum of the values of a sparse histogram, which may fall.",
        b"untyped",
    )?;
    put_all_lines(alloc, text, name, MemberLines::Sum, one, members)?;
    Ok(())
}

// The family of the histograms with ranges in the family of one.
fn put_ranged_family(
    alloc: Global,
    text: &mut Vec<u8>,
    name: &[u8],
    one: &Member<'_>,
    members: &[Member<'_>],
) -> Result<(), AllocError>
    requires { All (λ member. IsReadable member.hist) (map member_view members.now) }
    ensures { OnOk result (text.new.items ≡ text.old.items ++ ranged_family_lines name.now (filter (same_family_of (member_view one.now)) (map member_view members.now))) }
{
    put_heading(
        text,
        name,
        b"Units of a histogram up to the greatest value of each bucket.",
        b"histogram",
    )?;
    put_all_lines(alloc, text, name, MemberLines::Units, one, members)?;
    Ok(())
}

/// The family of one of these members, with all others in it.
pub(crate) fn put_family(
    alloc: Global,
    text: &mut Vec<u8>,
    prefix: &[u8],
    one: &Member<'_>,
    members: &[Member<'_>],
) -> Result<(), AllocError>
    requires { All (λ member. IsReadable member.hist) (map member_view members.now) }
    ensures { OnOk result (text.new.items ≡ text.old.items ++ lines_with prefix.now (map member_view members.now) (member_view one.now)) }
{
    let mut name = Vec::new(alloc);
    put_parts(&mut name, &[prefix, b"_", &one.family])?;
    if is_sparse(&one.hist.spec) {
        put_sparse_family(alloc, text, &name, one, members)
    } else {
        put_ranged_family(alloc, text, &name, one, members)
    }
}
