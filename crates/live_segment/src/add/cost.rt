//! What a batch costs.

ghost use Rattle.std.specs.Prelude.{◌≡◌, ◌==◌, min, None, Some, MatchResult};
ghost use Rattle.live_segment.specs.Add.Prelude.{Actor, batch_checks, batch_cost, first_fault, list_any, units_of};

use segment_calls::Refusal;

// The units of items together, or the greatest `u64` if there are more.
pub(crate) fn units_of_items(items: &[(i32, u32)]) -> u64
    ensures { result ≡ min (units_of items.now) 18446744073709551615 }
{
    let mut units: u64 = 0;
    for item in items {
        units = units.saturating_add(u64::from(item.1));
    }
    units
}

// The units that a batch costs: those of its items, or ceil(|sum| / 2^31) if that is more; the greatest `u64` if even
// that is too small.
fn cost_of(items: &[(i32, u32)], sum: i64) -> u64
    ensures { result ≡ min (batch_cost items.now sum) 18446744073709551615 }
{
    units_of_items(items).max(sum.unsigned_abs().div_ceil(1 << 31))
}

// Whether an item has no units.
fn has_empty_item(items: &[(i32, u32)]) -> bool
    ensures { result ≡ list_any (λ item. item.1 == 0) items.now }
{
    items.iter().any(|item| item.1 == 0)
}

// The units that a batch takes from a share, or why it is refused before anything happens.
pub(crate) fn price(items: &[(i32, u32)], sum: i64, share: u32) -> Result<u32, Refusal>
    ensures { (a : Actor) → a.units.share ≡ share → MatchResult result (λ cost. (cost ≡ batch_cost items.now sum) × (first_fault (batch_checks a items.now sum) ≡ None)) (λ why. first_fault (batch_checks a items.now sum) ≡ Some why) }
{
    if has_empty_item(items) {
        return Err(Refusal::ZeroCount);
    }
    let cost = cost_of(items, sum);
    if cost > u64::from(share) {
        return Err(Refusal::NoUnits);
    }
    Ok(cost as u32)
}
