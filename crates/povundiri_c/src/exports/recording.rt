//! What a recorder counts.

ghost use Rattle.std.specs.Prelude.{◌≡◌, ◌⊎◌, Err, Some, None, IfOk, MatchResult, map};
ghost use Rattle.povundiri_c.specs.Asking.{AnswersBatchCall, AnswersHistCall, no_spec_status, pair_of, scale_asked, scale_status, spec_asked};
ghost use Rattle.povundiri_c.specs.Calls.{OfRecorder};
ghost use Rattle.povundiri_c.specs.Recorders.{Adds, AtPlace, Batches, Limits, Marks, refused_with};

use crate::handle::Handle;
use crate::status::{BAD_KIND, DONE, EMPTY, NO_MEMORY, OTHER_KIND, Refused};
use crate::types::{HistSpec, Item};
use bucket_ranges::log_linear;
use live_segment::{CustomValues, Spec, SpecFault};
use std::alloc::{AllocError, Global};

// The spec of a scale, or the status of its fault.
fn scale_of(alloc: Global, minimum: u32, maximum: u32, bits: u32) -> Result<Spec, u32>
    ensures { MatchResult result (λ made. scale_asked minimum maximum bits ≡ Some made) (λ status. ((scale_asked minimum maximum bits ≡ None) × (status ≡ scale_status minimum maximum bits)) ⊎ (status ≡ 13)) }
{
    match log_linear(alloc, minimum, maximum, bits) {
        Ok(made) => Ok(made),
        Err(SpecFault::NoMemory) => Err(NO_MEMORY),
        Err(fault) => Err(400 + fault.number()),
    }
}

// The spec that C asks for.
fn spec_of(alloc: Global, spec: HistSpec, values: &[u32]) -> Result<Spec, u32>
    ensures { MatchResult result (λ made. spec_asked spec values.now ≡ Some made) (λ status. ((spec_asked spec values.now ≡ None) × (status ≡ no_spec_status spec)) ⊎ (status ≡ 13)) }
{
    match spec.kind {
        1 => Ok(Spec::Linear {
            min: spec.minimum,
            max: spec.maximum,
            n: spec.buckets,
        }),
        2 => Ok(Spec::Boolean),
        3 => match Vec::from_slice(alloc, values) {
            Ok(values) => Ok(Spec::Custom(CustomValues::from(values))),
            Err(_) => Err(NO_MEMORY),
        },
        4 => Ok(Spec::Sparse),
        5 => scale_of(alloc, spec.minimum, spec.maximum, spec.buckets),
        _ => Err(BAD_KIND),
    }
}

// The items as the library takes them.
fn pairs_of(alloc: Global, items: &[Item]) -> Result<Vec<(i32, u32)>, AllocError>
    ensures { IfOk result (λ pairs. pairs.items ≡ map pair_of items.now) }
{
    let mut pairs = Vec::with_capacity(alloc, items.len())?;
    for item in items {
        pairs.push((item.value, item.count))?;
    }
    Ok(pairs)
}

/// Returns the place of the histogram of a name among those that the recorder knows, as the library's `hist` does
/// with the spec that C asks for.
///
/// 0 and the place; or the number of the refusal. 3 if the handle holds nothing, 5 if it holds no recorder, 10
/// if there is no such kind, that of the fault of a scale, or 13 if memory runs out before the library is asked:
/// then all is unchanged.
#[unsafe(no_mangle)]
pub extern "C" fn povundiri_proved_hist(
    alloc: Global,
    recorder: &mut Handle,
    name: &[u8],
    spec: HistSpec,
    values: &[u32],
    hist: &mut usize,
) -> u32
    ensures { AnswersHistCall name.now (spec_asked spec values.now) (no_spec_status spec) recorder.old.boxed.held result hist.old hist.new recorder.new.boxed.held }
{
    if !recorder.is_full() {
        return EMPTY;
    }
    let spec = match spec_of(alloc, spec, values) {
        Ok(spec) => spec,
        Err(status) => return status,
    };
    match recorder.call_recorder(
        Err(EMPTY),
        Err(OTHER_KIND),
        |joinable| joinable.hist(name, &spec),
    ) {
        Ok(place) => {
            *hist = place;
            DONE
        }
        Err(status) => status,
    }
}

/// Adds a sample, as the library's `add` does: 0, or the number of the refusal. 8 if the recorder knows no
/// histogram at that place; 3 if the handle holds nothing, 5 if it holds no recorder; then it holds the same.
#[unsafe(no_mangle)]
pub extern "C" fn povundiri_proved_add(
    recorder: &mut Handle,
    hist: usize,
    value: i32,
    count: u32,
) -> u32
    ensures { OfRecorder (AtPlace 8 (Adds value count) hist) recorder.old.boxed.held result recorder.new.boxed.held }
{
    recorder.call(EMPTY, move |held| held.add(hist, value, count))
}

/// Counts a batch, as the library's `batch` does. How many items are counted is returned: with 0 all, with 5 and 8
/// none, and with the number of a refusal those that are counted all the same. 8 if the recorder knows no
/// histogram at that place; 5 if the handle holds no recorder; then it holds the same. With 3, if it holds
/// nothing, and with 13, if memory runs out before the library is asked, all is unchanged.
#[unsafe(no_mangle)]
pub extern "C" fn povundiri_proved_batch(
    alloc: Global,
    recorder: &mut Handle,
    hist: usize,
    items: &[Item],
    sum: i64,
    added: &mut usize,
) -> u32
    ensures { AnswersBatchCall hist items.now sum recorder.old.boxed.held result added.old added.new recorder.new.boxed.held }
{
    if !recorder.is_full() {
        return EMPTY;
    }
    let Ok(pairs) = pairs_of(alloc, items) else {
        return NO_MEMORY;
    };
    match recorder.call_recorder(
        Err(Refused::of(EMPTY)),
        Err(Refused::of(OTHER_KIND)),
        |joinable|
            ensures kept { joinable.new.mailbox ≡ joinable.old.mailbox }
            ensures answer { AtPlace (Err (refused_with 8)) (Batches pairs.items sum) hist joinable.old.owned result joinable.new.owned }
        { joinable.batch(hist, &pairs, sum) },
    ) {
        Ok(()) => {
            *added = items.len();
            DONE
        }
        Err(refused) => {
            *added = refused.length;
            refused.status
        }
    }
}

/// Marks the segment as corrupt: 0. 3 if the handle holds nothing, 5 if it holds no recorder; then it holds the
/// same.
#[unsafe(no_mangle)]
pub extern "C" fn povundiri_proved_set_corrupt(recorder: &mut Handle) -> u32
    ensures { OfRecorder Marks recorder.old.boxed.held result recorder.new.boxed.held }
{
    recorder.call_recorder(EMPTY, OTHER_KIND, |joinable| joinable.set_corrupt())
}

/// Sets how many entries each of a recorder's three indexes may have, as the library's `limit_indexes` does: 0. 3 if
/// the handle holds nothing, 5 if it holds no recorder; then it holds the same.
#[unsafe(no_mangle)]
pub extern "C" fn povundiri_proved_limit_indexes(recorder: &mut Handle, entries: usize) -> u32
    ensures { OfRecorder (Limits entries) recorder.old.boxed.held result recorder.new.boxed.held }
{
    recorder.call_recorder(
        EMPTY,
        OTHER_KIND,
        |joinable| joinable.limit_indexes(entries),
    )
}
