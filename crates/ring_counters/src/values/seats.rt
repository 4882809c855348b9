//! The values of the counters, their writer and a reader.
ghost use Rattle.std.specs.Prelude.{◌≡◌, ◌<◌, ◌≤◌, true, []};
ghost use Rattle.ring_layout.specs.Refusals.{all_shares};

use crate::values::rule::OneWriter;
use crate::values::view::ValuesView;
use atomic_table::{Seat, Table};
use std::alloc::Global;

/// The values of the counters, one word for each id, which readers on other threads load.
#[derive(Drop)]
pub struct CounterValues {
    pub(crate) table: Table<(), ValuesView, usize, OneWriter, Global>,
    ghost counts: { (table.shared.table_id.words ≡ table.shared.key) × (table.shared.table_id.slots ≡ 0) },
    ghost some: { (0 < table.shared.key) × (table.shared.key ≤ 4096) },
}

/// The seat that writes the values.
#[derive(Drop)]
pub(crate) struct ValueWriter {
    pub(crate) seat: Seat<(), ValuesView>,
    pub(crate) shares: u32,
    ghost bare: { seat.me.1 ≡ [] },
    ghost writes: { seat.me.0.writes ≡ true },
    ghost counted: { shares ≡ seat.me.0.shares },
    ghost some: { (0 < shares) × (shares ≤ all_shares) },
}

/// Loads values by id. One thread at a time uses a reader. A reader may move between threads. A reader may be dropped,
/// since nothing waits for it.
#[derive(Drop)]
pub struct ValueReader {
    pub(crate) seat: Seat<(), ValuesView>,
    ghost bare: { seat.me.1 ≡ [] },
    ghost one: { seat.me.0.shares ≡ 1 },
}
