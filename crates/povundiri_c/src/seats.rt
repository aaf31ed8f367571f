//! Two seats that may be of one table, which nobody can see at run time.

ghost use Rattle.std.specs.Prelude.{◌≡◌, cond};
ghost use Rattle.povundiri_c.specs.Seats.{is_same_table};

use atomic_table::Seat;

/// Two seats of one table stay as they are, and two of different tables change places. A seat has no bytes, so nothing
/// is done: only the proof knows afterwards which is which.
pub(crate) fn arrange<S, V>(one: &mut Seat<S, V>, other: &mut Seat<S, V>)
    ensures { (one.new ≡ cond (is_same_table one.old.table_id other.old.table_id) one.old other.old) × (other.new ≡ cond (is_same_table one.old.table_id other.old.table_id) other.old one.old) }
{}
