//! The kinds of files in a recording's folder.

ghost use Rattle.std.specs.Prelude.{◌≡◌, ◌⊎◌, IfOk};
ghost use Rattle.recording_folders.specs.declared.kind.FileKind as file_kind;
ghost use Rattle.recording_folders.specs.declared.kind.FileKind.TheVariants.{Other};
ghost use Rattle.std.specs.Bool.{Decides};
ghost use Rattle.recording_folders.specs.Names.{IsNameOf, HasNoNumber, IsHistoryName};

use crate::name::{DAMAGED, SEGMENT, number_in};
use crate::random::{is_new_mark, is_spare};
use std::alloc::{AllocError, Global};

/// Which file of a recording's folder a name is for.
#[derive(Clone, Copy, PartialEq, Eq)]
pub enum FileKind {
    /// The segment of a number.
    Segment(u64),
    /// What was the segment of a number, but has a fault in its header.
    Damaged(u64),
    /// A segment that is not in use yet.
    Spare,
    /// The totals.
    Totals,
    /// Totals that are being written.
    NewTotals,
    /// The file that a fold locks.
    FoldLock,
    /// The file that says what the folder is.
    Mark,
    /// Such a file before it has its name.
    NewMark,
    /// One of the names that are kept for later.
    History,
    /// Any other.
    Other,
}

// The names that have no number.
const TOTALS: &[u8] = b"totals";

const NEW_TOTALS: &[u8] = b"totals.new";

const FOLD_LOCK: &[u8] = b"fold.lock";

const MARK: &[u8] = b"recording";

const HISTORY: &[u8] = b"history";

const NEW_HISTORY: &[u8] = b"history.new";

const HISTORY_LOCK: &[u8] = b"history.lock";

const DAMAGED_HISTORY: &[u8] = b"history.damaged";

// Whether a name is kept for later.
fn is_history(name: &[u8]) -> bool
    ensures { Decides result (IsHistoryName name.now) }
{
    name == HISTORY || name == NEW_HISTORY || name == HISTORY_LOCK || name == DAMAGED_HISTORY
}

// The kind of a name without a number.
fn kind_without_number(name: &[u8]) -> FileKind
    ensures found { (result ≡ Other) ⊎ (HasNoNumber result × IsNameOf name.now result) }
    ensures only { (kind : file_kind.FileKind) → HasNoNumber kind → IsNameOf name.now kind → result ≡ kind }
{
    if name == TOTALS {
        FileKind::Totals
    } else if name == NEW_TOTALS {
        FileKind::NewTotals
    } else if name == FOLD_LOCK {
        FileKind::FoldLock
    } else if name == MARK {
        FileKind::Mark
    } else if is_history(name) {
        FileKind::History
    } else if is_new_mark(name) {
        FileKind::NewMark
    } else if is_spare(name) {
        FileKind::Spare
    } else {
        FileKind::Other
    }
}

/// Returns the kind of a file by its name. If it is not `Other`, the name is one of that kind [found]. Each name of a
/// kind has that kind, so the name of a number is recognized as that number [only]. The numbers of segments have at most
/// 18 digits. The only error is that memory runs out.
pub fn kind_of(alloc: Global, name: &[u8]) -> Result<FileKind, AllocError>
    ensures found { IfOk result (λ kind. (kind ≡ Other) ⊎ IsNameOf name.now kind) }
    ensures only { (kind : file_kind.FileKind) → IsNameOf name.now kind → IfOk result (λ found. found ≡ kind) }
{
    if let Some(number) = number_in(alloc, name, SEGMENT)? {
        return Ok(FileKind::Segment(number));
    }
    if let Some(number) = number_in(alloc, name, DAMAGED)? {
        return Ok(FileKind::Damaged(number));
    }
    Ok(kind_without_number(name))
}
