//! The counters of one owner, with their values for readers on other threads.
ghost use Rattle.std.specs.Prelude.{◌≡◌};
ghost use Rattle.ring_counters.specs.{Agree.Agree, Registry.count_of};

use crate::records::Records;
use crate::values::seats::ValueWriter;

/// Counters with labels, keys and owners, in records of words.
///
/// The values are also in `CounterValues`, from which readers on other threads load them. A manager belongs to the
/// values that it was made with. Each call that takes values requires these values.
#[derive(Drop)]
pub struct CountersManager {
    pub(crate) records: Records,
    pub(crate) writer: ValueWriter,
    ghost agree: { Agree records writer.seat.me.0.seen },
    ghost counts: { writer.seat.table_id.words ≡ count_of records },
}
