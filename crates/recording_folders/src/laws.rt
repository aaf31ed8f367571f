//! Laws of folders.

ghost use Rattle.std.specs.Prelude.{◌≡◌, ℕ};
ghost use Rattle.recording_folders.specs.Names.{IsNumber, segment_name, damaged_name};
ghost use Rattle.recording_folders.specs.Folder.{Folder, IsSoundFolder, IsLater, new_folder};

/// A folder in which nothing was begun is sound.
///
/// It does nothing: what it promises is a law of the definition.
pub fn a_new_folder_is_sound()
    ensures { IsSoundFolder new_folder }
{}

/// In a sound folder each segment that was begun is counted once. A folder stays sound whatever happens there.
///
/// It does nothing: what it promises is a law of the definition.
pub fn a_folder_stays_sound()
    ensures { (first last : Folder) → IsSoundFolder first → IsLater first last → IsSoundFolder last }
{}

/// Two numbers have two names [segments], and no name of a segment is one of a damaged file [damaged].
///
/// It does nothing: what it promises are laws of the definition.
pub fn names_differ()
    ensures segments { (one other : ℕ) → IsNumber one → IsNumber other → segment_name one ≡ segment_name other → one ≡ other }
    ensures damaged { (one other : ℕ) → IsNumber one → IsNumber other → segment_name one ≡ damaged_name other → ⊥ }
{}
