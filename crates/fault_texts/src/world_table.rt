//! What the faults of the worlds of `stepped` mean, and what to do.

/// Each fault of a world by its name, with what it means and what to do, as in `TEXTS`.
pub const WORLD_TEXTS: [(&str, &str, &str); 6] = [
    (
        "World",
        "The world of a schedule refuses the record with this number: the reason follows.",
        "Look that name up: `explain NAME`.",
    ),
    (
        "BadShape",
        "No segment can be so: a page is a multiple of 16 from 64 to 65,536 words, a segment is whole pages and at most 1,048,576 words, and the version is 1 or 2. In a schedule also: the actors are not 1 to 64.",
        "Give other numbers.",
    ),
    (
        "NoActor",
        "In a schedule: the world has no actor of this number.",
        "Count the actors from 0: with ACTORS 2 there are 0 and 1.",
    ),
    (
        "Busy",
        "In a schedule: a record begins a call of an actor whose last call has not ended.",
        "Give that actor more steps first. A call has ended when its answer is shown.",
    ),
    (
        "Idle",
        "In a schedule: a `step` record names an actor that has no call to continue.",
        "Begin a call of that actor first, or leave the record out.",
    ),
    (
        "Unknown",
        "In a schedule: a record names a histogram that no `hist` call of this actor has returned.",
        "Let this actor ask for the histogram first, by a `hist` record and the steps of that call.",
    ),
];
