//! What is wrong with the form of a record of a script.

ghost use Rattle.std.specs.Prelude.{◌≡◌, IfSome};
ghost use Rattle.csv.specs.Records.{fields_of};
ghost use Rattle.fault_texts.specs.Complaint.{IsRightComplaint, may_have};

use crate::field::Wanted;
use csv::ByteRecord;
use std::fmt;

/// The forms of records.
#[derive(Clone, Copy, PartialEq, Eq)]
pub enum RecordForm {
    Segment,
    Add,
    Delta,
    /// A histogram of any kind.
    Hist,
    /// A boolean or a sparse histogram.
    Alone,
    Linear,
    Custom,
}

/// What is wrong with a record of a script.
#[derive(Clone, Copy, PartialEq, Eq)]
pub enum Complaint {
    /// The script has no record of that number.
    NoRecord,
    /// The field with this index, from 0, is not allowed there.
    Field { index: usize, wanted: Wanted },
    /// Its number of fields is not right for its form.
    Count(RecordForm),
    /// It is the first record, and no `segment` record.
    NotFirst,
    /// Its size and its page are no valid shape.
    Shape,
    /// Its shape is valid, but not that of the image in which recording continues; or its id is another.
    OtherSegment,
    /// It is a `segment` record, and not the first.
    LateSegment,
    /// It is a `hist` record after an `add` or a `delta` record.
    LateHist,
    /// No `hist` record before it has its name.
    UnknownName,
}

impl RecordForm {
    // Whether a record of this form may have this many fields.
    fn may_have(self, count: usize) -> bool
        ensures { result ≡ may_have self count }
    {
        match self {
            RecordForm::Segment | RecordForm::Add => count == 4,
            RecordForm::Delta => count == 2,
            RecordForm::Hist => count >= 3,
            RecordForm::Alone => count == 3,
            RecordForm::Linear => count == 6,
            RecordForm::Custom => count >= 4,
        }
    }

    // The complaint if the number of a record's fields is not right for this form.
    fn check(self, fields: &ByteRecord) -> Option<Complaint>
        ensures { IfSome result (IsRightComplaint (fields_of fields.now)) }
    {
        if self.may_have(fields.len()) {
            None
        } else {
            Some(Complaint::Count(self))
        }
    }
}

// The complaint if a field is not allowed there.
fn check(fields: &ByteRecord, index: usize, wanted: Wanted) -> Option<Complaint>
    ensures { IfSome result (IsRightComplaint (fields_of fields.now)) }
{
    let field = fields.get(index)?;
    if wanted.allows(field) {
        None
    } else {
        Some(Complaint::Field { index, wanted })
    }
}

// The complaint of the first field from one on that is no number.
fn check_numbers(fields: &ByteRecord, start: usize) -> Option<Complaint>
    ensures { IfSome result (IsRightComplaint (fields_of fields.now)) }
{
    for index in start..fields.len() {
        if let Some(complaint) = check(fields, index, Wanted::Unsigned) {
            return Some(complaint);
        }
    }
    None
}

// The complaint of a `hist` record.
fn check_hist(fields: &ByteRecord) -> Option<Complaint>
    ensures { IfSome result (IsRightComplaint (fields_of fields.now)) }
{
    if let Some(complaint) = RecordForm::Hist.check(fields) {
        return Some(complaint);
    }
    let kind = fields.get(2)?;
    if kind == b"linear".as_slice() {
        RecordForm::Linear
            .check(fields)
            .or_else(|| check_numbers(fields, 3))
    } else if kind == b"custom".as_slice() {
        RecordForm::Custom
            .check(fields)
            .or_else(|| check_numbers(fields, 3))
    } else if kind == b"boolean".as_slice() || kind == b"sparse".as_slice() {
        RecordForm::Alone.check(fields)
    } else {
        check(fields, 2, Wanted::Kind)
    }
}

/// Returns what is wrong with the form of a record by itself, which is true: the first field that is not allowed there,
/// or that there are too many or too few.
pub fn complaint_of(fields: &ByteRecord) -> Option<Complaint>
    ensures { IfSome result (IsRightComplaint (fields_of fields.now)) }
{
    let word = fields.get(0)?;
    if word == b"segment".as_slice() {
        RecordForm::Segment
            .check(fields)
            .or_else(|| check(fields, 1, Wanted::Unsigned))
            .or_else(|| check(fields, 2, Wanted::Unsigned))
            .or_else(|| check(fields, 3, Wanted::Long))
    } else if word == b"add".as_slice() {
        RecordForm::Add
            .check(fields)
            .or_else(|| check(fields, 2, Wanted::Signed))
            .or_else(|| check(fields, 3, Wanted::Unsigned))
    } else if word == b"delta".as_slice() {
        RecordForm::Delta.check(fields)
    } else if word == b"hist".as_slice() {
        check_hist(fields)
    } else {
        check(fields, 0, Wanted::Word)
    }
}

impl fmt::Display for RecordForm {
    fn fmt<W: fmt::Write>(&self, f: &mut fmt::Formatter<W>) -> fmt::Result {
        f.write_str(match self {
            RecordForm::Segment => "segment,SIZE,PAGE,ID",
            RecordForm::Add => "add,NAME,VALUE,COUNT",
            RecordForm::Delta => "delta,NAME",
            RecordForm::Hist => "hist,NAME,KIND and what the kind needs",
            RecordForm::Alone => "hist,NAME,boolean or hist,NAME,sparse",
            RecordForm::Linear => "hist,NAME,linear,MIN,MAX,BUCKETS",
            RecordForm::Custom => "hist,NAME,custom,VALUE,.. with one value or more",
        })
    }
}
