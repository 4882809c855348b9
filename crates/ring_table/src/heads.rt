//! The stores of the head of a ring whose bodies lie in slots.
ghost use Rattle.std.specs.Prelude.{◌≡◌, ◌≤◌, true};
ghost use Rattle.ring_table.specs.ConsumerSteps.{StandsBefore, StoresHead, StoresHeadBefore};
ghost use Rattle.ring_table.specs.Seats.{IsSameSeat, IsSeatOf};

use crate::mode::InSlots;
use crate::steps::marks::{
    split_at_last, split_at_scan, store_head_before_mark, store_head_past_marks,
};
use crate::steps::{RingSeat, SharedRing};
use crate::view::Run;

/// Stores the head after all that the read has passed. If this is inside a run, the rest of the run gets a mark first.
pub fn store_head_past_run(
    ring: &SharedRing<InSlots>,
    consumer: &mut RingSeat,
    capacity: u32,
    head: u64,
    run: Run,
)
    requires seat { IsSeatOf ring.now.table_id ring.now.key capacity consumer.old }
    requires consumes { consumer.old.me.0.consumes ≡ true }
    requires scan { consumer.old.me.0.consumer.scan ≡ head }
    requires run { consumer.old.me.0.consumer.run ≡ run }
    ensures seat { IsSameSeat consumer.old consumer.new }
    ensures told { StoresHead consumer.old.me.0 consumer.new.me.0 }
{
    if head < run.to {
        split_at_scan(ring, consumer, capacity, head, run.to);
    }
    store_head_past_marks(ring, consumer, capacity, head);
}

/// Stores the head before the last message that the read has got, which stays in the ring. If this is inside a run, the
/// rest of the run gets a mark first.
pub fn store_head_before_run(
    ring: &SharedRing<InSlots>,
    consumer: &mut RingSeat,
    capacity: u32,
    head: u64,
    run: Run,
)
    requires seat { IsSeatOf ring.now.table_id ring.now.key capacity consumer.old }
    requires consumes { consumer.old.me.0.consumes ≡ true }
    requires last { StandsBefore head consumer.old.me.0 }
    requires cleared { consumer.old.me.0.consumer.cleared ≤ head }
    requires passed { (consumer.old.me.0.consumer.head ≤ head) × (head ≤ consumer.old.me.0.consumer.scan) }
    requires run { consumer.old.me.0.consumer.run ≡ run }
    requires from { run.from ≤ head }
    ensures seat { IsSameSeat consumer.old consumer.new }
    ensures told { StoresHeadBefore consumer.old.me.0 consumer.new.me.0 }
{
    if run.from < head {
        split_at_last(ring, consumer, capacity, head, run.to);
    }
    store_head_before_mark(ring, consumer, capacity, head);
}
