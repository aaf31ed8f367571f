//! How a running delta is shown: as the last of what its actor's deltas took.

ghost use Rattle.std.specs.Prelude.{◌<◌, vec_len, vec_capacity};
ghost use Rattle.hist_core.specs.declared.entry.Taken.{Taken};
ghost use Rattle.hist_core.specs.declared.delta_call.DeltaCallStep.TheVariants.{Took, Done};
ghost use Rattle.hist_core.specs.ActorRun.{IsLast, LastBecomes};

use crate::entry::Taken;
use crate::keys::list_by_key;

// The last has also taken these units of a key. There is room for them.
pub(crate) fn draw(taken: &mut Vec<Taken>, key: i32, units: u64)
    requires some { 0 < vec_len taken.old }
    requires room { (last : Taken) → IsLast taken.old.items last → vec_len last.counts < vec_capacity last.counts }
    ensures { LastBecomes (Took key units) taken.old.items taken.new.items }
{
    let last = taken.len() - 1;
    list_by_key(&mut taken[last].counts, key, units);
}

// The last has taken this of the sum.
pub(crate) fn draw_sum(taken: &mut Vec<Taken>, sum: i64)
    requires some { 0 < vec_len taken.old }
    ensures { LastBecomes (Done sum) taken.old.items taken.new.items }
{
    let last = taken.len() - 1;
    taken[last].sum = sum;
}
