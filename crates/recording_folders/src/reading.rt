//! Whether a reading of a folder can be used.

ghost use Rattle.std.specs.Prelude.{◌≡◌, ◌↔◌, IsTrue};
ghost use Rattle.recording_folders.specs.Segments.{AreEachOnce};
ghost use Rattle.recording_folders.specs.Folder.{Folder, IsLater, IsSoundFolder, counted};

/// Returns whether a reading of a folder can be used, by the serials of the totals that were read before it was listed
/// and after all segments were looked at: it can if they are the same [same]. Then what was counted is each segment
/// that had been begun in the folder when it was listed, once, in the totals or by itself, whatever happened in the
/// meantime [once].
pub fn stands(before: u64, after: u64) -> bool
    ensures same { IsTrue result ↔ (before ≡ after) }
    ensures once { (first listed last : Folder) → IsSoundFolder first → IsLater first listed → IsLater listed last → first.serial ≡ before → last.serial ≡ after → IsTrue result → AreEachOnce listed.begun (counted first listed) }
{
    before == after
}
