//! The laws of a world.
//!
//! The functions do nothing. What each promises is a law of the definitions in `specs`.

ghost use Rattle.hist_core.specs.Left.{LeftEnds, LeftStays};

/// What is left of the call of an actor does not become less for ever, whatever the worlds are. By clause `less` of
/// `World::step` each event of a call after which it continues leaves less. So each call ends once no other actor makes
/// more of it again.
pub fn left_ends()
    ensures { LeftEnds }
{}

/// What is left of the call of an actor stays while neither a word nor that actor changes. By clause `others` of
/// `World::step` an event of another actor does not change it; so it makes more of what is left only by a word that it
/// changes.
pub fn left_stays()
    ensures { LeftStays }
{}
