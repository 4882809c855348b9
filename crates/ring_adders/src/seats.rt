//! The shared counter and its adders.
ghost use Rattle.std.specs.Prelude.{◌≡◌, ◌<◌, ◌≤◌, []};
ghost use Rattle.ring_layout.specs.Refusals.{all_shares};

use crate::rule::SumsAll;
use crate::view::AdderView;
use atomic_table::{Seat, Table};
use std::alloc::Global;

/// A counter to which each thread adds by its own adder. The value of the counter is the sum of all that was added,
/// modulo 2^64.
#[derive(Drop)]
pub struct SharedCounter {
    pub(crate) table: Table<(), AdderView, (), SumsAll, Global>,
    ghost counts: { (table.shared.table_id.words ≡ 1) × (table.shared.table_id.slots ≡ 0) },
}

/// Adds to a shared counter and loads its value. One thread at a time uses an adder. An adder may move between threads.
///
/// An adder may be dropped. The amounts that were added with it stay in the sum. Its shares are lost.
#[derive(Drop)]
pub struct Adder {
    pub(crate) seat: Seat<(), AdderView>,
    pub(crate) shares: u32,
    ghost bare: { seat.me.1 ≡ [] },
    ghost counted: { shares ≡ seat.me.0.shares },
    ghost some: { (0 < shares) × (shares ≤ all_shares) },
}
