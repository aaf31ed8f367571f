//! What the faults of texts with families or of several inputs mean, and what to do.

/// Each such fault by its name, with what it means and what to do, as in `TEXTS`.
pub const TEXT_FAULTS: [(&str, &str, &str); 4] = [
    (
        "Clash",
        "With --families: the two that are named would have metrics of one name. Two histograms are of one family, and of two kinds or with the same labels; or the family of one is that of the other with _bucket, _sum or _count; or it is bad_records or segment_flag, which every export has.",
        "Give one of them another name, or export without --families.",
    ),
    (
        "BadTotals",
        "An input begins as totals, and is none: the line with this number, from 1, does not continue those before it; or it is that of the first name, and the names do not ascend or their keys are not those of their specs.",
        "Write the totals again by `report --totals`. A file that was cut off lacks its last line.",
    ),
    (
        "Fell",
        "With --minus: the histogram that is named has less than in OLD, or is not there, and counts only grow.",
        "Let OLD be an earlier image, look or totals of the same segment or folder. A segment that began again has nothing of the one before: show it whole.",
    ),
    (
        "NotWhole",
        "With --whole, of several inputs: a record of an image is bad, or its list of records stops early. The text has all that is valid.",
        "Look for it by `report --whole` of each image alone.",
    ),
];
