//! What is reported of an image in which recording is to continue, and of the script that is to be recorded there.

use crate::damage::{bad_lines, stopped_lines};
use crate::lines::{Source, image_lines, word_at};
use crate::records::record_of;
use crate::specs_of::{spec_lines, survey_of, words_of};
use image_adoption::{AdoptFault, Adoptable, check};
use persist_report_core::CliFault;
use segment_calls::Refusal;
use segment_image::layout::{
    FLAGS_WORD, ID_WORD, PAGE_WORD, SIZE_WORD, VERSION_FROZEN, VERSION_WORD,
};
use std::alloc::{AllocError, Global};

/// What is wrong with an image in which recording may not continue: its word, its size or its record, if one of these
/// shows it.
pub fn adopt_lines(
    alloc: Global,
    base: Source<'_, '_>,
    fault: AdoptFault,
) -> Result<String, AllocError> {
    let origin = base.origin;
    match fault {
        AdoptFault::Image(fault) => image_lines(alloc, base, fault),
        AdoptFault::OldVersion => {
            let word = word_at(base.bytes, VERSION_WORD);
            format!(in alloc;
                "  {origin}, word {VERSION_WORD} is {word}; it has to be {VERSION_FROZEN}\n"
            )
        }
        AdoptFault::Corrupt => {
            let word = word_at(base.bytes, FLAGS_WORD);
            format!(in alloc; "  {origin}, word {FLAGS_WORD} is {word}; it has to be even\n")
        }
        AdoptFault::Damaged => damage_lines(alloc, base),
        AdoptFault::NoUnits | AdoptFault::BadCursors | AdoptFault::NoMemory => {
            format!(in alloc; "  {origin}\n")
        }
    }
}

// The first bad record of an image, or why its list stops before its end.
fn damage_lines(alloc: Global, base: Source<'_, '_>) -> Result<String, AllocError> {
    let origin = base.origin;
    let Some(survey) = survey_of(alloc, base.bytes) else {
        return format!(in alloc; "  {origin}\n");
    };
    match (survey.bad.first(), survey.stopped) {
        (Some(bad), _) => bad_lines(alloc, base, bad.reference, bad.fault),
        (None, Some(fault)) => stopped_lines(alloc, base, fault),
        (None, None) => {
            format!(in alloc;
                "  {origin}, all records are read; other words are none that a segment can have\n"
            )
        }
    }
}

/// What the image in which recording is to continue has, if the record of the script with this number does not fit it:
/// its segment, the spec that it gives a name, or the units that it has used.
pub fn base_lines(
    alloc: Global,
    base: Source<'_, '_>,
    script: Source<'_, '_>,
    fault: &CliFault,
) -> Result<String, AllocError> {
    match fault {
        CliFault::BadLine(1) => segment_lines(alloc, base),
        CliFault::Refused {
            number,
            why: Refusal::OtherSpec,
        } => match record_of(alloc, script.bytes, *number)? {
            Some(record) => spec_lines(
                alloc,
                "BASE",
                base,
                record.fields.get(1).unwrap_or_default(),
            ),
            None => Ok(String::new(alloc)),
        },
        CliFault::Refused {
            why: Refusal::NoUnits,
            ..
        } => used_lines(alloc, base),
        _ => Ok(String::new(alloc)),
    }
}

// The record with which a script of an image begins.
fn segment_lines(alloc: Global, base: Source<'_, '_>) -> Result<String, AllocError> {
    let [size, page, id] = [SIZE_WORD, PAGE_WORD, ID_WORD].map(|at| word_at(base.bytes, at));
    format!(in alloc; "  BASE {} is of segment,{size},{page},{id}\n", base.origin)
}

// How many units an image has used.
fn used_lines(alloc: Global, base: Source<'_, '_>) -> Result<String, AllocError> {
    match words_of(alloc, base.bytes).map(|words| check(alloc, &words, 0)) {
        Some(Ok(Adoptable { used, .. })) => {
            format!(in alloc; "  BASE {} has used {used} units\n", base.origin)
        }
        _ => Ok(String::new(alloc)),
    }
}
