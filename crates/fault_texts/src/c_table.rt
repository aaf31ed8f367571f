//! What the statuses that only programs in C and C++ see mean, and what to do.

/// Each status by the name that `povundiri_status_text` has for it, with what it means and what to do, as in `TEXTS`.
pub const C_TEXTS: [(&str, &str, &str); 27] = [
    (
        "Done",
        "In C: the call did what it says.",
        "Nothing is to be done.",
    ),
    (
        "Null",
        "In C: a pointer is null that must not be.",
        "Pass the address of something. Only an array of length 0 may be null.",
    ),
    (
        "BadRoom",
        "In C: the room for a segment is not aligned to 16 bytes, or is no multiple of 16 bytes, or has none.",
        "Take it from `aligned_alloc(16, ..)` or from whole pages, and round its length to a multiple of 16.",
    ),
    (
        "EmptyHandle",
        "In C: the handle holds nothing. It was never filled, or it is closed, joined or dropped.",
        "Fill it first, and do not use it after it was closed, joined or dropped.",
    ),
    (
        "FullHandle",
        "In C: the handle that is to be filled holds something.",
        "Close, join or drop what it holds first, or pass another handle, which begins as zeros.",
    ),
    (
        "OtherKind",
        "In C: the handle is a recorder's where a segment's is needed, or the other way round.",
        "Look at the order of the arguments.",
    ),
    (
        "OtherSegment",
        "In C: the recorder is of another segment; of a follower, the image is.",
        "Pass each recorder with the segment that made it, and each follower the images of one segment.",
    ),
    (
        "Short",
        "In C: the array is too short. The length that it needs is returned, and nothing was taken.",
        "Call again with an array of that length. Other threads may have added to it meanwhile, so do this in a loop.",
    ),
    (
        "UnknownHistogram",
        "In C: no call returned this histogram to this recorder.",
        "Ask this recorder for it by its name: the number of a histogram is for one recorder only.",
    ),
    (
        "NoCursor",
        "In C: the segment has no shared cursor of this number.",
        "Open it with more cursors, at most eight. They are counted from 0.",
    ),
    (
        "NoSuchKind",
        "In C: there is no such kind of histogram; of `povundiri_open`, no such policy.",
        "Use one of the constants of the header.",
    ),
    (
        "InUse",
        "In C: the segment has recorders.",
        "Join or drop them first.",
    ),
    (
        "ListEnds",
        "In C: there is no record after the cursor yet.",
        "Nothing is wrong: ask again when more histograms may have been made.",
    ),
    (
        "Elsewhere",
        "In C: the recorder was passed with a segment that is not its own, while another thread joined at its own. Its own segment has it now, and its handle is empty.",
        "Pass each recorder with the segment that made it.",
    ),
    (
        "Busy",
        "In C: another thread passes a recorder of the same segment at this moment, or somebody else folds the same folder, or folds ended all the time while it was read. Nothing has happened.",
        "Try again. Pass each recorder with the segment that made it, and let one process at a time fold a folder.",
    ),
    (
        "System",
        "In C: a call of the system failed for a segment in a file, or for a folder of recordings. Its number (`errno.h`) is returned beside this status.",
        "Print that number by `strerror`.",
    ),
    (
        "TooManyKeys",
        "In C: the image has more keys than the caller allows, and is not reported.",
        "Allow more if you trust the image. A forged one can have very many.",
    ),
    (
        "BadPrefix",
        "In C: no name of a metric may begin with the prefix of an export.",
        "Pass a letter or `_` and then letters, digits and `_`, or a null pointer for `povundiri`.",
    ),
    (
        "Fell",
        "In C: of an image that is followed, a count is less than what was noted of it, or a histogram is gone or has another spec. Nothing was added.",
        "Pass the images of a segment in the order in which they were taken. A segment that somebody damages or forges may fall.",
    ),
    (
        "CostsMore",
        "In C: what came of an image that is followed costs more units than the caller allows. Nothing was added.",
        "Allow more if you trust the image, or skip it. A forged one may claim any number.",
    ),
    (
        "NotOwner",
        "In C: the folder of a recording is another user's. Nothing was done.",
        "Record and fold as the user whose folder it is; root may fold any. Where processes of several users record into one folder, the options say so (`POVUNDIRI_FILE_ANY_OWNER`).",
    ),
    (
        "FolderInUse",
        "In C: a recording is to be made in a folder that is neither empty nor a recording's. Nothing is changed in it.",
        "Name another folder. One that has a segment, a damaged file or totals is a recording's again once it has nothing else.",
    ),
    (
        "NoRecording",
        "In C: the folder is no recording's.",
        "Name the folder that a recording was opened with.",
    ),
    (
        "BadOptions",
        "In C: the options have a flag or a mode that may not be, or a size or a member that this library does not know.",
        "Begin with `POVUNDIRI_RECORDING_OPTIONS` or `POVUNDIRI_FILE_OPTIONS`, and compile against the headers of the library that is linked.",
    ),
    (
        "BadUnit",
        "In C++: the name says another unit than that of its metric of times. The unit is what stands after the last `_` or `.` before the labels.",
        "Give the metric the unit of its name, as `scale<std::chrono::microseconds>` to `request_us`, or the name that of the metric.",
    ),
    (
        "Forked",
        "In C++: the segment or the recorder is of the process from which this one was forked.",
        "Open it after the fork: after `daemon`, and in each process of a server that forks its workers.",
    ),
    (
        "NoSuchStatus",
        "In C: the number is not that of a status.",
        "Pass what a call returned to `povundiri_status_text`.",
    ),
];
