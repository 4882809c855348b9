//! The steps of a ring whose bodies are in slots. One seat at a time reads and writes a slot as plain memory. Marks and
//! the trailer are words.
ghost use Rattle.std.specs.Prelude.{◌≡◌, ◌+◌, ◌/◌, ◌%◌, ◌≤◌, ◌<◌, List, [], ◌∷◌, ◌++◌};
ghost use Rattle.ring_table.specs.{declared.claim.PlacedMessage.PlacedMessage, Seats.IsSameSeat, SlotSteps.HasLast};
ghost use Rattle.ring_table.specs.ConsumerSteps.{StandsBefore, StoresHead, StoresHeadBefore};
ghost use Rattle.ring_rings.specs.ReadingSteps.{IsReaderSeatOf, LoadsWholeBody};

use crate::bodies::Bodies;
use atomic_table::Closed;
use ring_table::{
    InSlots, Key, RingSeat, RingTable, Run, SharedRing, Unsettled, Wanted, lend_body, open_slots,
    put_slots, read_slots, rescue_slots, return_body, show_slots, store_claimed_slots,
    store_head_before_run, store_head_past_run, write_slots,
};
use std::alloc::{AllocError, Global};

/// Skips the body of the message that the read got last: takes its slots and gives them back, unread. The log gets its
/// words as if each was loaded.
#[inline(always)]
fn skip_slots(slots: &SharedRing<InSlots>, seat: &mut RingSeat, capacity: u32, place: u64)
    requires seat { IsReaderSeatOf slots.now.table_id slots.now.key capacity seat.old }
    requires last { HasLast place seat.old.me.0 }
    ensures seat { IsSameSeat seat.old seat.new }
    ensures view { (m : PlacedMessage) (front : List PlacedMessage) → seat.old.me.0.consumer.got ≡ front ++ m ∷ []
        → LoadsWholeBody capacity m seat.old.me.0 seat.new.me.0 }
{
    lend_body(slots, seat, capacity, place);
    return_body(slots, seat, capacity, place);
}

impl Bodies for InSlots {
    ghost use Rattle.std.specs.Prelude.{◌/◌};

    ghost slots_for = { λ capacity. capacity / 8 };

    fn open(alloc: Global, key: Key) -> Result<(RingTable<Self>, RingSeat), AllocError> {
        open_slots(alloc, key)
    }

    #[inline(always)]
    fn store_claimed_header(
        slots: &SharedRing<Self>,
        producer: &mut RingSeat,
        capacity: u32,
        place: u64,
        wanted: Wanted,
    ) {
        store_claimed_slots(slots, producer, capacity, place, wanted);
    }

    #[inline(always)]
    fn store_record(
        slots: &SharedRing<Self>,
        seat: &mut RingSeat,
        capacity: u32,
        place: u64,
        wanted: Wanted,
        body: &[u8],
    ) {
        write_slots(slots, seat, capacity, place, wanted, body);
    }

    #[inline(always)]
    fn put_bytes(
        slots: &SharedRing<Self>,
        seat: &mut RingSeat,
        capacity: u32,
        place: u64,
        len: usize,
        offset: usize,
        bytes: &[u8],
    ) {
        put_slots(slots, seat, capacity, place, len, offset, bytes);
    }

    #[inline(always)]
    fn load_body(
        slots: &SharedRing<Self>,
        seat: &mut RingSeat,
        capacity: u32,
        place: u64,
        len: usize,
        scratch: &mut [u8],
    ) {
        read_slots(slots, seat, capacity, place, len, scratch);
    }

    #[inline(always)]
    fn skip_body(
        slots: &SharedRing<Self>,
        seat: &mut RingSeat,
        capacity: u32,
        place: u64,
        _len: usize,
    ) {
        skip_slots(slots, seat, capacity, place);
    }

    #[inline(always)]
    fn store_head(
        slots: &SharedRing<Self>,
        seat: &mut RingSeat,
        capacity: u32,
        _head: u64,
        to: u64,
        run: Run,
    ) {
        store_head_past_run(slots, seat, capacity, to, run);
    }

    #[inline(always)]
    fn store_head_before(
        slots: &SharedRing<Self>,
        seat: &mut RingSeat,
        capacity: u32,
        _head: u64,
        to: u64,
        run: Run,
    ) {
        store_head_before_run(slots, seat, capacity, to, run);
    }

    fn show(closed: Closed<u64, Global>, room: Vec<u64>) -> Vec<u64> {
        show_slots(closed, room)
    }

    fn rescue(closed: Closed<u64, Global>, capacity: u32, room: Vec<u64>) -> (Vec<u64>, Unsettled) {
        rescue_slots(closed, capacity, room)
    }
}
