//! Which fault somebody asks for: by its name in any case, by the constant of its status in C, or by a name that is
//! close to one.

use crate::c_table::C_TEXTS;
use crate::table::{FaultText, TEXTS};
use crate::text_table::TEXT_FAULTS;
use crate::world_table::WORLD_TEXTS;
use std::alloc::{AllocError, Global};
use strsim::levenshtein;

// What the constants of statuses in C begin with.
const LIBRARY: &str = "povundiri_";

// What then comes before the name of a fault in the constants that have one.
const GROUPS: [&str; 5] = ["refused_", "open_", "adopt_", "spec_", "image_"];

// The name of the fault that a constant of C means, both in small letters; the constant has no `povundiri_` in front.
fn name_of_constant(alloc: Global, constant: &str) -> Result<String, AllocError> {
    match constant {
        "empty" => String::from_str(alloc, "emptyhandle"),
        "not_empty" => String::from_str(alloc, "fullhandle"),
        "unknown" => String::from_str(alloc, "unknownhistogram"),
        "bad_kind" => String::from_str(alloc, "nosuchkind"),
        "adopt_bad_image" => String::from_str(alloc, "image"),
        _ => {
            let rest = GROUPS
                .iter()
                .find_map(|group| constant.strip_prefix(*group))
                .unwrap_or(constant);
            rest.replace(alloc, "_", "")
        }
    }
}

// The name that is asked for, in small letters: of two words the last.
fn plain_name(alloc: Global, asked: &str) -> Result<String, AllocError> {
    let lower = asked.to_ascii_lowercase(alloc)?;
    let word = lower.as_str().rsplit(' ').next().unwrap_or("");
    match word.strip_prefix(LIBRARY) {
        Some(constant) => name_of_constant(alloc, constant),
        None if word.contains('_') => name_of_constant(alloc, word),
        None => String::from_str(alloc, word),
    }
}

// Appends the texts of a table that have this name, in any case.
fn push_texts(
    alloc: Global,
    texts: &mut String,
    table: &[(&str, &str, &str)],
    name: &str,
) -> Result<(), AllocError> {
    for entry in table {
        if entry.0.eq_ignore_ascii_case(name) {
            let (name, meaning, remedy) = *entry;
            let text: String = format!(in alloc;
                "{}",
                FaultText {
                    name,
                    meaning,
                    remedy
                }
            )?;
            texts.push_str(text.as_str())?;
        }
    }
    Ok(())
}

/// The texts of the faults that are asked for by this name, one after the other; none if no fault has it. A name may be
/// in any case, may be the last of two words, and may be the constant of a status in C.
pub fn texts_for(alloc: Global, asked: &str) -> Result<Option<String>, AllocError> {
    let name = plain_name(alloc, asked)?;
    let mut texts = String::new(alloc);
    push_texts(alloc, &mut texts, &TEXTS, name.as_str())?;
    push_texts(alloc, &mut texts, &TEXT_FAULTS, name.as_str())?;
    push_texts(alloc, &mut texts, &WORLD_TEXTS, name.as_str())?;
    push_texts(alloc, &mut texts, &C_TEXTS, name.as_str())?;
    Ok(if texts.is_empty() { None } else { Some(texts) })
}

// A name that is like the one that is asked for, and how many characters differ at most.
#[derive(Clone, Copy)]
struct Near<'a> {
    name: Option<&'a str>,
    edits: usize,
}

// The nearest name of a table, if it is nearer than what was found before.
fn nearer<'a>(
    alloc: Global,
    table: &'a [(&'a str, &'a str, &'a str)],
    asked: &str,
    found: Near<'a>,
) -> Result<Near<'a>, AllocError> {
    let mut near = found;
    for entry in table {
        let own = entry.0.to_ascii_lowercase(alloc)?;
        let edits = levenshtein(alloc, own.as_str(), asked)?;
        if edits < near.edits {
            near = Near {
                name: Some(entry.0),
                edits,
            };
        }
    }
    Ok(near)
}

/// The name of a fault that differs least from what is asked for, in at most a third of its characters. None if there
/// is no such name.
pub fn nearest_name(alloc: Global, asked: &str) -> Result<Option<&'static str>, AllocError> {
    let lower = asked.to_ascii_lowercase(alloc)?;
    let none = Near {
        name: None,
        edits: (lower.as_str().chars().count() / 3).saturating_add(1),
    };
    let near = nearer(alloc, &TEXTS, lower.as_str(), none)?;
    let near = nearer(alloc, &TEXT_FAULTS, lower.as_str(), near)?;
    let near = nearer(alloc, &WORLD_TEXTS, lower.as_str(), near)?;
    let near = nearer(alloc, &C_TEXTS, lower.as_str(), near)?;
    Ok(near.name)
}
