//! Labels of metrics, and those that the name of a histogram has in itself: `BASE{KEY=VALUE;KEY=VALUE}`.

ghost use Rattle.std.specs.Prelude.{◌≡◌, ◌∷◌, ◌++◌, ◌==◌, ◌&&◌, ◌-◌, not, length, take, slice_index, IfOk, OnOk, map};
ghost use Rattle.std.specs.List.{flat_map, list_all, slice_split, before_first, after_first};
ghost use Rattle.reading_texts.specs.Labels.{label_view, is_first_byte, is_later_byte, is_metric_word, begins_with_underscore as begins_with_underscore_of, has_two_underscores as has_two_underscores_of, is_kept_key as is_kept_key_of, is_label_key as is_label_key_of, has_key as has_key_of, is_line_label as is_line_label_of, are_line_labels as are_line_labels_of, label_of as label_of_part, is_own_label as is_own_label_of, is_below as is_below_of, keys_ascend as keys_ascend_of, named_by, own_labels, text_byte, text_of_name as text_of_name_of, value_byte, quoted};
ghost use Rattle.reading_texts.specs.Exporting.{label_text, next_label_text};

use std::alloc::{AllocError, Global};
use std::cmp::Ordering;

/// A label of a metric.
#[derive(Clone, Copy)]
pub struct Label<'a> {
    /// Its key: an ASCII letter or `_`, then any number of these and of digits.
    pub key: &'a [u8],
    /// Its value, a text in UTF-8.
    pub value: &'a [u8],
}

// Whether a word may begin with a byte.
fn is_first(byte: u8) -> bool
    ensures { result ≡ is_first_byte byte }
{
    byte.is_ascii_alphabetic() || byte == b'_'
}

/// Whether a byte may follow the first one of a word.
pub(crate) fn is_later(byte: u8) -> bool
    ensures { result ≡ is_later_byte byte }
{
    is_first(byte) || byte.is_ascii_digit()
}

// Whether all of these bytes may follow it.
fn are_later(bytes: &[u8]) -> bool
    ensures { result ≡ list_all is_later_byte bytes.now }
{
    for byte in bytes {
        if !is_later(*byte) {
            return false;
        }
    }
    true
}

/// Returns whether the names of metrics may begin with these bytes: an ASCII letter or `_`, then any number of these
/// and of digits.
pub fn is_prefix(text: &[u8]) -> bool
    ensures { result ≡ is_metric_word text.now }
{
    match text {
        [first, more @ ..] => is_first(*first) && are_later(more),
        [] => false,
    }
}

// Whether the first byte is an underscore.
fn begins_with_underscore(bytes: &[u8]) -> bool
    ensures { result ≡ begins_with_underscore_of bytes.now }
{
    match bytes {
        [first, ..] => *first == b'_',
        [] => false,
    }
}

// Whether there are two underscores in a row.
fn has_two_underscores(key: &[u8]) -> bool
    ensures { result ≡ has_two_underscores_of key.now }
{
    let mut rest = key;
    while let [first, more @ ..] = rest {
        if *first == b'_' && begins_with_underscore(more) {
            return true;
        }
        rest = more;
    }
    false
}

// Whether a key is one of the export itself.
fn is_kept_key(key: &[u8]) -> bool
    ensures { result ≡ is_kept_key_of key.now }
{
    key == b"le".as_slice()
        || key == b"name".as_slice()
        || key == b"value".as_slice()
        || key == b"kind".as_slice()
        || key == b"histogram".as_slice()
}

// Whether a label may have this key.
fn is_label_key(key: &[u8]) -> bool
    ensures { result ≡ is_label_key_of key.now }
{
    is_prefix(key) && !has_two_underscores(key) && !is_kept_key(key)
}

// Whether one of the labels has this key.
fn has_key(labels: &[Label<'_>], key: &[u8]) -> bool
    ensures { result ≡ has_key_of (map label_view labels.now) key.now }
{
    let mut rest = labels;
    while let [label, more @ ..] = rest {
        if label.key == key {
            return true;
        }
        rest = more;
    }
    false
}

// Whether all lines may get this label.
fn is_line_label(label: &Label<'_>) -> bool
    ensures { result ≡ is_line_label_of (label_view label.now) }
{
    is_label_key(label.key) && label.key != b"flag".as_slice() && !label.value.is_empty()
}

/// Returns whether all lines of an export may get these labels: each key is a word without two underscores in a row, is
/// none of `le`, `name`, `value`, `kind`, `histogram` and `flag`, and comes once; and no value is empty.
pub fn are_line_labels(labels: &[Label<'_>]) -> bool
    ensures { result ≡ are_line_labels_of (map label_view labels.now) }
{
    let mut rest = labels;
    while let [label, more @ ..] = rest {
        if !is_line_label(label) || has_key(more, label.key) {
            return false;
        }
        rest = more;
    }
    true
}

// What comes before the first such byte, and what comes after it; all bytes and none if there is no such byte.
fn cut(bytes: &[u8], at: u8) -> (&[u8], &[u8])
    ensures before { result.0.now ≡ before_first (λ byte. byte == at) bytes.now }
    ensures behind { result.1.now ≡ after_first (λ byte. byte == at) bytes.now }
{
    for (i, byte) in bytes.iter().enumerate() {
        if *byte == at {
            return (&bytes[..i], &bytes[i + 1..]);
        }
    }
    (bytes, &[])
}

// A label, from its text in a name.
fn label_of(part: &[u8]) -> Label<'_>
    ensures { label_view result ≡ label_of_part part.now }
{
    let (key, value) = cut(part, b'=');
    Label { key, value }
}

// The parts of a text between semicolons.
fn parts_of(alloc: Global, text: &[u8]) -> Result<Vec<&[u8]>, AllocError>
    ensures { IfOk result (λ parts. map (λ part. part.now) parts.items ≡ slice_split (λ byte. byte == 59) text.now) }
{
    text.split(|byte| *byte == b';').collect(alloc)
}

// The labels that these parts of a name are.
fn labels_of<'a>(alloc: Global, parts: &[&'a [u8]]) -> Result<Vec<Label<'a>>, AllocError>
    ensures { IfOk result (λ labels. map label_view labels.items ≡ map label_of_part (map (λ part. part.now) parts.now)) }
{
    let mut labels = Vec::new(alloc);
    for part in parts {
        labels.push(label_of(part))?;
    }
    Ok(labels)
}

// Whether a label of a name may be one of the export.
fn is_own(taken: &[Label<'_>], label: &Label<'_>) -> bool
    ensures { result ≡ is_own_label_of (map label_view taken.now) (label_view label.now) }
{
    is_label_key(label.key) && !has_key(taken, label.key) && !label.value.is_empty()
}

// Whether each label of a name may be one of the export.
fn are_own(taken: &[Label<'_>], labels: &[Label<'_>]) -> bool
    ensures { result ≡ list_all (is_own_label_of (map label_view taken.now)) (map label_view labels.now) }
{
    let mut rest = labels;
    while let [label, more @ ..] = rest {
        if !is_own(taken, label) {
            return false;
        }
        rest = more;
    }
    true
}

// Whether a key is below that of the first label, if there is one.
fn is_below(key: &[u8], labels: &[Label<'_>]) -> bool
    ensures { result ≡ is_below_of key.now (map label_view labels.now) }
{
    match labels {
        [next, ..] => key.cmp(next.key) == Ordering::Less,
        [] => true,
    }
}

// Whether each key is below the next.
fn keys_ascend(labels: &[Label<'_>]) -> bool
    ensures { result ≡ keys_ascend_of (map label_view labels.now) }
{
    let mut rest = labels;
    while let [label, more @ ..] = rest {
        if !is_below(label.key, more) {
            return false;
        }
        rest = more;
    }
    true
}

/// How the lines of a histogram name it, and the labels that its name gives it.
#[derive(Drop)]
pub(crate) struct Named<'a> {
    pub base: &'a [u8],
    pub own: Vec<Label<'a>>,
}

// Whether bytes end with a closing brace.
fn ends_with_brace(bytes: &[u8]) -> bool
    ensures { result ≡ (slice_index bytes.now (length bytes.now - 1) == 125) }
{
    match bytes {
        [.., last] => *last == b'}',
        [] => false,
    }
}

// All bytes but the last.
fn without_last(bytes: &[u8]) -> &[u8]
    ensures { result.now ≡ take (length bytes.now - 1) bytes.now }
{
    match bytes {
        [front @ .., _] => front,
        [] => bytes,
    }
}

// Whether a name has labels, by what comes before its first opening brace, what comes after it, and the labels there.
fn is_labeled(taken: &[Label<'_>], base: &[u8], behind: &[u8], own: &[Label<'_>]) -> bool
    ensures { result ≡ (not (length base.now == 0) && (slice_index behind.now (length behind.now - 1) == 125) && list_all (is_own_label_of (map label_view taken.now)) (map label_view own.now) && keys_ascend_of (map label_view own.now)) }
{
    !base.is_empty() && ends_with_brace(behind) && are_own(taken, own) && keys_ascend(own)
}

/// The parts of a name, if all lines get these labels.
pub(crate) fn read_name<'a>(
    alloc: Global,
    name: &'a [u8],
    taken: &[Label<'_>],
) -> Result<Named<'a>, AllocError>
    ensures base { IfOk result (λ named. named.base.now ≡ named_by (map label_view taken.now) name.now) }
    ensures own { IfOk result (λ named. map label_view named.own.items ≡ own_labels (map label_view taken.now) name.now) }
{
    let (base, behind) = cut(name, b'{');
    let parts = parts_of(alloc, without_last(behind))?;
    let own = labels_of(alloc, &parts)?;
    if is_labeled(taken, base, behind, &own) {
        return Ok(Named { base, own });
    }
    Ok(Named {
        base: name,
        own: Vec::new(alloc),
    })
}

// Puts what a byte of a name becomes in a text.
fn put_text_byte(text: &mut Vec<u8>, byte: u8) -> Result<(), AllocError>
    ensures { OnOk result (text.new.items ≡ text.old.items ++ text_byte byte) }
{
    if byte < 128 {
        text.push(byte)?;
    } else {
        text.extend_from_slice(&[239, 191, 189])?;
    }
    Ok(())
}

/// A name as text.
pub(crate) fn text_of_name(alloc: Global, name: &[u8]) -> Result<Vec<u8>, AllocError>
    ensures { IfOk result (λ text. text.items ≡ text_of_name_of name.now) }
{
    let mut text = Vec::new(alloc);
    for byte in name {
        put_text_byte(&mut text, *byte)?;
    }
    Ok(text)
}

// Puts what a byte of a label's value becomes in a text.
fn put_value_byte(text: &mut Vec<u8>, byte: u8) -> Result<(), AllocError>
    ensures { OnOk result (text.new.items ≡ text.old.items ++ value_byte byte) }
{
    match byte {
        b'\\' => text.extend_from_slice(b"\\\\")?,
        b'"' => text.extend_from_slice(b"\\\"")?,
        b'\n' => text.extend_from_slice(b"\\n")?,
        _ => text.push(byte)?,
    }
    Ok(())
}

// Puts a label's value.
fn put_quoted(text: &mut Vec<u8>, value: &[u8]) -> Result<(), AllocError>
    ensures { OnOk result (text.new.items ≡ text.old.items ++ quoted value.now) }
{
    for byte in value {
        put_value_byte(text, *byte)?;
    }
    Ok(())
}

/// Puts a label.
pub(crate) fn put_label(text: &mut Vec<u8>, key: &[u8], value: &[u8]) -> Result<(), AllocError>
    ensures { OnOk result (text.new.items ≡ text.old.items ++ label_text (key.now, value.now)) }
{
    text.extend_from_slice(key)?;
    text.extend_from_slice(b"=\"")?;
    put_quoted(text, value)?;
    text.push(b'"')?;
    Ok(())
}

/// Puts labels after another one.
pub(crate) fn put_labels(text: &mut Vec<u8>, labels: &[Label<'_>]) -> Result<(), AllocError>
    ensures { OnOk result (text.new.items ≡ text.old.items ++ flat_map next_label_text (map label_view labels.now)) }
{
    for label in labels {
        text.push(b',')?;
        put_label(text, label.key, label.value)?;
    }
    Ok(())
}
