//! The steps of a ring whose bodies lie in slots that store and load marks.
ghost use Rattle.std.specs.Prelude.{◌≡◌, ◌+◌, ◌-◌, ◌%◌, ◌^◌, ◌≤◌, ◌<◌, [], ◌∷◌, List, ℕ, length, true};
ghost use Rattle.ring_layout.specs.declared.message.ClaimState.TheVariants.{Aborted, Committed};
ghost use Rattle.ring_layout.specs.History.{IsMessage, span};
ghost use Rattle.ring_table.specs.{Changes.blank, Changes.staged, Seats.IsSameSeat, Seats.IsSeatOf, Views.with_run};
ghost use Rattle.ring_table.specs.ConsumerSteps.{LoadsHeader, StandsBefore, StoresHead, StoresHeadBefore};
ghost use Rattle.ring_table.specs.Filling.{IsSameTable};
ghost use Rattle.ring_table.specs.Marks.{LoadsMark, MayStop, SplitsAtLast, SplitsAtScan, TakesRecord};
ghost use Rattle.ring_table.specs.ProducerSteps.{HasClaimAt, IsStagedOpen, Mine, NeedsPadding, with_changed};
ghost use Rattle.ring_table.specs.SlotSteps.{with_out, HasLast, IsHolderOf, IsSameHolder};
ghost use Rattle.ring_table.specs.Staged.{AreRising, PlacedMessage, Padded, Stored};

use crate::mode::InSlots;
use crate::plays::consumer::{StoreHead, StoreHeadBefore};
use crate::plays::producer::{StoreAborted, StoreCommitted, StorePadding};
use crate::plays::slots::{LoadFirstMark, LoadInRun, LoadNextMark, SplitAtLast, SplitAtScan};
use crate::steps::slots::return_slots;
use crate::steps::{RingSeat, SharedRing, trailer_word};
use crate::view::{Run, Wanted};
use ring_layout::mark_descriptor::{ABORTED_KIND, COMMITTED_KIND, OPEN_KIND, PADDING_KIND};
use ring_layout::ring_buffer_descriptor::HEAD_POSITION_WORD;
use ring_layout::{align8, padding_header, word_index};

/// The mark of a record of `len` bytes of body at a place.
#[inline(always)]
pub(crate) fn record_mark(place: u64, len: usize, kind: u64) -> u64
    requires { (len < 2 ^ 60) × (kind < 8) }
    ensures { result ≡ (place + (span len + kind)) % 2 ^ 64 }
{
    place.wrapping_add(align8(8 + len as u64) + kind)
}

/// Stores the mark of the padding that is from `from` up to the claim's place, both in bytes.
pub(crate) fn store_padding_mark(
    ring: &SharedRing<InSlots>,
    producer: &mut RingSeat,
    capacity: u32,
    from: u64,
    place: u64,
)
    requires seat { IsSeatOf ring.now.table_id ring.now.key capacity producer.old }
    requires near { place ≤ from + capacity }
    requires claim { HasClaimAt producer.old.me.0 place (NeedsPadding from) }
    ensures seat { IsSameSeat producer.old producer.new }
    ensures view { producer.new.me.0 ≡ with_changed place (staged Padded) producer.old.me.0 }
    ensures rising { AreRising producer.old.me.0.producer.claims }
{
    let mark = place.wrapping_add(PADDING_KIND);
    ring.store::<StorePadding>(producer, word_index(capacity, from), mark);
}

/// Stores the mark of a claim that is committed.
pub(crate) fn store_committed_mark(
    ring: &SharedRing<InSlots>,
    producer: &mut RingSeat,
    capacity: u32,
    place: u64,
    wanted: Wanted,
)
    requires seat { IsSeatOf ring.now.table_id ring.now.key capacity producer.old }
    requires message { IsMessage capacity (blank wanted.type_id wanted.len) }
    requires claim { HasClaimAt producer.old.me.0 place (IsStagedOpen wanted.type_id wanted.len) }
    ensures seat { IsSameSeat producer.old producer.new }
    ensures view { producer.new.me.0 ≡ with_changed place (staged (Stored Committed)) producer.old.me.0 }
    ensures rising { AreRising producer.old.me.0.producer.claims }
{
    let mark = record_mark(place, wanted.len, COMMITTED_KIND);
    ring.store::<StoreCommitted>(producer, word_index(capacity, place), mark);
}

/// Stores the mark of a claim that is aborted.
pub(crate) fn store_aborted_mark(
    ring: &SharedRing<InSlots>,
    producer: &mut RingSeat,
    capacity: u32,
    place: u64,
    wanted: Wanted,
)
    requires seat { IsSeatOf ring.now.table_id ring.now.key capacity producer.old }
    requires message { IsMessage capacity (blank wanted.type_id wanted.len) }
    requires claim { HasClaimAt producer.old.me.0 place (IsStagedOpen wanted.type_id wanted.len) }
    ensures seat { IsSameSeat producer.old producer.new }
    ensures view { producer.new.me.0 ≡ with_changed place (staged (Stored Aborted)) producer.old.me.0 }
    ensures rising { AreRising producer.old.me.0.producer.claims }
{
    let mark = record_mark(place, wanted.len, ABORTED_KIND);
    ring.store::<StoreAborted>(producer, word_index(capacity, place), mark);
}

/// Reads the slot that was taken last, and leaves it in front of the others.
#[inline(always)]
fn peek_slot(ring: &SharedRing<InSlots>, seat: &mut RingSeat, slot: usize) -> u64
    requires seat { seat.old.table_id ≡ ring.now.table_id }
    requires front { (old : ℕ) × (rest : List (ℕ × ℕ)) × (seat.old.me.1 ≡ (slot, old) ∷ rest) }
    ensures seat { IsSameTable seat.old seat.new }
    ensures same { seat.new.me.1 ≡ seat.old.me.1 }
    ensures value { (old : ℕ) (rest : List (ℕ × ℕ)) → seat.old.me.1 ≡ (slot, old) ∷ rest → result ≡ old }
{
    *seat.slot_mut(ring, slot)
}

/// Reads the header of a message in its first slot, which was taken with the others of the record, and gives them back.
#[inline(always)]
fn take_header(ring: &SharedRing<InSlots>, consumer: &mut RingSeat, capacity: u32, scan: u64) -> u64
    requires seat { IsHolderOf ring.now.table_id ring.now.key capacity consumer.old }
    requires consumes { consumer.old.me.0.consumes ≡ true }
    requires taken { (header : ℕ) × TakesRecord capacity scan header consumer.old.me }
    ensures seat { IsSameHolder consumer.old consumer.new }
    ensures slots { consumer.new.me.1 ≡ [] }
    ensures view { consumer.new.me.0 ≡ with_out [] consumer.old.me.0 }
    ensures header { (header : ℕ) → TakesRecord capacity scan header consumer.old.me → result ≡ header }
{
    let header = peek_slot(ring, consumer, word_index(capacity, scan));
    return_slots(ring, consumer, capacity, scan);
    header
}

/// The header that a mark shows at `scan`, 0 if no record is settled there, and the run that the read is in then. The
/// header of a message is in its first slot.
#[inline(always)]
fn read_mark(
    ring: &SharedRing<InSlots>,
    consumer: &mut RingSeat,
    capacity: u32,
    scan: u64,
    mark: u64,
) -> (u64, Run)
    requires seat { IsHolderOf ring.now.table_id ring.now.key capacity consumer.old }
    requires consumes { consumer.old.me.0.consumes ≡ true }
    requires loaded { (got : List PlacedMessage) × (me : Mine) × (me.0.out ≡ []) × (me.1 ≡ [])
        × LoadsMark capacity scan got me mark consumer.old.me }
    ensures seat { IsSameHolder consumer.old consumer.new }
    ensures slots { consumer.new.me.1 ≡ [] }
    ensures run { result.1.from ≡ scan }
    ensures told { (got : List PlacedMessage) (me : Mine) → me.0.out ≡ [] → me.1 ≡ []
        → LoadsMark capacity scan got me mark consumer.old.me
        → LoadsHeader capacity scan got (with_run result.1 me.0) result.0 consumer.new.me.0 }
{
    if mark <= scan {
        let run = Run {
            from: scan,
            to: scan,
        };
        return (0, run);
    }
    let kind = mark % 8;
    if kind == OPEN_KIND {
        let run = Run {
            from: scan,
            to: scan,
        };
        return (0, run);
    }
    let run = Run {
        from: scan,
        to: mark - kind,
    };
    if kind != COMMITTED_KIND {
        return (padding_header(mark - kind - scan), run);
    }
    (take_header(ring, consumer, capacity, scan), run)
}

/// Loads the mark at the head, as a read begins, and the header of a message from its slot.
pub(crate) fn load_first_mark(
    ring: &SharedRing<InSlots>,
    consumer: &mut RingSeat,
    capacity: u32,
    head: u64,
) -> (u64, Run)
    requires seat { IsSeatOf ring.now.table_id ring.now.key capacity consumer.old }
    requires consumes { consumer.old.me.0.consumes ≡ true }
    requires head { consumer.old.me.0.consumer.head ≡ head }
    ensures seat { IsSameSeat consumer.old consumer.new }
    ensures run { result.1.from ≡ head }
    ensures told { LoadsHeader capacity head consumer.old.me.0.consumer.taken
        (with_run result.1 consumer.old.me.0) result.0 consumer.new.me.0 }
{
    let mark = ring.load::<LoadFirstMark>(consumer, word_index(capacity, head));
    read_mark(ring, consumer, capacity, head, mark)
}

/// Loads the mark that the running read has reached at the end of a run, and the header of a message from its slot.
pub(crate) fn load_next_mark(
    ring: &SharedRing<InSlots>,
    consumer: &mut RingSeat,
    capacity: u32,
    scan: u64,
) -> (u64, Run)
    requires seat { IsSeatOf ring.now.table_id ring.now.key capacity consumer.old }
    requires consumes { consumer.old.me.0.consumes ≡ true }
    requires scan { consumer.old.me.0.consumer.scan ≡ scan }
    requires near { scan < consumer.old.me.0.consumer.head + capacity }
    requires done { consumer.old.me.0.consumer.run.to ≤ scan }
    ensures seat { IsSameSeat consumer.old consumer.new }
    ensures run { result.1.from ≡ scan }
    ensures told { LoadsHeader capacity scan consumer.old.me.0.consumer.got
        (with_run result.1 consumer.old.me.0) result.0 consumer.new.me.0 }
{
    let mark = ring.load::<LoadNextMark>(consumer, word_index(capacity, scan));
    read_mark(ring, consumer, capacity, scan, mark)
}

/// Takes the slots of the record that the running read has reached inside a run, and reads its header in the first one.
/// No mark has to be loaded for that.
pub(crate) fn load_in_run(
    ring: &SharedRing<InSlots>,
    consumer: &mut RingSeat,
    capacity: u32,
    scan: u64,
    run: Run,
) -> u64
    requires seat { IsSeatOf ring.now.table_id ring.now.key capacity consumer.old }
    requires consumes { consumer.old.me.0.consumes ≡ true }
    requires scan { consumer.old.me.0.consumer.scan ≡ scan }
    requires run { consumer.old.me.0.consumer.run ≡ run }
    requires more { scan < run.to }
    ensures seat { IsSameSeat consumer.old consumer.new }
    ensures told { LoadsHeader capacity scan consumer.old.me.0.consumer.got
        (with_run run consumer.old.me.0) result consumer.new.me.0 }
{
    // Any word would do. The mark of the run was loaded before.
    ring.load::<LoadInRun>(consumer, word_index(capacity, run.from));
    take_header(ring, consumer, capacity, scan)
}

/// Stores a mark at the position that the read has come to inside a run: the rest of the run is a run of its own then.
pub(crate) fn split_at_scan(
    ring: &SharedRing<InSlots>,
    consumer: &mut RingSeat,
    capacity: u32,
    scan: u64,
    end: u64,
)
    requires seat { IsSeatOf ring.now.table_id ring.now.key capacity consumer.old }
    requires consumes { consumer.old.me.0.consumes ≡ true }
    requires scan { consumer.old.me.0.consumer.scan ≡ scan }
    requires run { consumer.old.me.0.consumer.run.to ≡ end }
    requires more { scan < end }
    ensures seat { IsSameSeat consumer.old consumer.new }
    ensures told { SplitsAtScan consumer.old.me.0 consumer.new.me.0 }
{
    ring.store::<SplitAtScan>(consumer, word_index(capacity, scan), end);
}

/// Stores a mark at the place of the last message that the read has got, which is inside of a run.
pub(crate) fn split_at_last(
    ring: &SharedRing<InSlots>,
    consumer: &mut RingSeat,
    capacity: u32,
    place: u64,
    end: u64,
)
    requires seat { IsSeatOf ring.now.table_id ring.now.key capacity consumer.old }
    requires consumes { consumer.old.me.0.consumes ≡ true }
    requires last { HasLast place consumer.old.me.0 }
    requires run { consumer.old.me.0.consumer.run.to ≡ end }
    requires inside { consumer.old.me.0.consumer.run.from ≤ place }
    ensures seat { IsSameSeat consumer.old consumer.new }
    ensures told { SplitsAtLast consumer.old.me.0 consumer.new.me.0 }
{
    ring.store::<SplitAtLast>(consumer, word_index(capacity, place), end);
}

/// Stores the head after all that the read has passed. No mark is cleared: those that were passed are not above the
/// positions of the next lap, so that they say nothing there.
pub(crate) fn store_head_past_marks(
    ring: &SharedRing<InSlots>,
    consumer: &mut RingSeat,
    capacity: u32,
    head: u64,
)
    requires seat { IsSeatOf ring.now.table_id ring.now.key capacity consumer.old }
    requires consumes { consumer.old.me.0.consumes ≡ true }
    requires scan { consumer.old.me.0.consumer.scan ≡ head }
    requires marked { MayStop consumer.old.me.0 }
    ensures seat { IsSameSeat consumer.old consumer.new }
    ensures told { StoresHead consumer.old.me.0 consumer.new.me.0 }
{
    ring.store::<StoreHead>(consumer, trailer_word(capacity, HEAD_POSITION_WORD), head);
}

/// Stores the head before the last message that the read has got, which stays in the ring. No mark is cleared.
pub(crate) fn store_head_before_mark(
    ring: &SharedRing<InSlots>,
    consumer: &mut RingSeat,
    capacity: u32,
    head: u64,
)
    requires seat { IsSeatOf ring.now.table_id ring.now.key capacity consumer.old }
    requires consumes { consumer.old.me.0.consumes ≡ true }
    requires last { StandsBefore head consumer.old.me.0 }
    requires passed { (consumer.old.me.0.consumer.head ≤ head) × (head ≤ consumer.old.me.0.consumer.scan) }
    requires marked { consumer.old.me.0.consumer.run.from ≡ head }
    ensures seat { IsSameSeat consumer.old consumer.new }
    ensures told { StoresHeadBefore consumer.old.me.0 consumer.new.me.0 }
{
    ring.store::<StoreHeadBefore>(consumer, trailer_word(capacity, HEAD_POSITION_WORD), head);
}
