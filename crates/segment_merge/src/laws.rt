//! Why readings that rise are followed.

ghost use Rattle.segment_merge.specs.Noted.{StaysWithin, WordsAreInOrder};

/// What a follower has noted is in the reading that it followed last, which has each histogram with the same spec and no
/// fewer units of any key. It is in each later reading that has all of that one. So `Fell` never comes where readings
/// rise: as those of looks at one segment do, also across its adoption (`look_promises`).
pub fn notes_stay_within()
    ensures { StaysWithin }
{}

/// What words with a valid header read as is in order: each name is there once, and the keys of each histogram ascend.
/// So what a follower notes of readings of words is in order too.
pub fn words_are_in_order()
    ensures { WordsAreInOrder }
{}
