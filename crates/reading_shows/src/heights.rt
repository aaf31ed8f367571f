//! What the length of a bar is proportional to.

ghost use Rattle.std.specs.Prelude.{◌≡◌, ◌<◌};
ghost use Rattle.reading_shows.specs.Heights.{halvings as halvings_of, log_of as log_of_units, height_of as height_of_units};

// How many times units can be halved until one is left.
fn halvings(units: u64) -> u32
    ensures { result ≡ halvings_of units }
{
    63u32.saturating_sub(units.leading_zeros())
}

// The logarithm of units, in 256ths of a doubling.
fn log_of(units: u64) -> u64
    ensures { result ≡ log_of_units units }
{
    if units == 0 {
        return 0;
    }
    let halvings = halvings(units);
    let part = (u128::from(units) * 256) >> halvings;
    256 * u64::from(halvings) + part as u64
}

// What the length of a bar is proportional to: `units` or their logarithm.
pub(crate) fn height_of(is_log: bool, units: u64) -> u64
    ensures { result ≡ height_of_units is_log units }
{
    if is_log { log_of(units) } else { units }
}
