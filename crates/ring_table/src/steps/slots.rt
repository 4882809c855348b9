//! The steps of a ring whose bodies lie in slots that take the slots of a record and give them back: between them the
//! seat reads and writes the slots as plain memory.
ghost use Rattle.std.specs.Prelude.{◌≡◌, ◌+◌, ◌/◌, ◌<◌, [], ◌∷◌, List, ℕ, length, true};
ghost use Rattle.ring_layout.specs.declared.message.ClaimState.TheVariants.{Committed, Open};
ghost use Rattle.ring_layout.specs.{History.IsMessage, Places.index, declared.message.Message.Message};
ghost use Rattle.ring_table.specs.{Staged.AreRising, Changes.blank, Seats.IsSameSeat, Seats.IsSeatOf};
ghost use Rattle.ring_table.specs.{ProducerSteps.HasClaimAt, ProducerSteps.HasNewestAt, Runs.HasRun, Runs.StoresRun};
ghost use Rattle.ring_table.specs.SlotSteps.{GivesBody, HasLast, IsHolderOf, IsLent};
ghost use Rattle.ring_table.specs.SlotSteps.{IsOpen, IsPadded, IsReserved, IsSameHolder, IsTaken};
ghost use Rattle.ring_table.specs.SlotSteps.{LendsBody, ReservesAt, ReservesBody, ReturnsBody, ReturnsSlots, StoresRecord, TakesBody};

use crate::mode::InSlots;
use crate::plays::slots::{
    CommitRecord, CommitRun, GiveBody, LendBody, OpenRecord, ReserveAt, ReserveBody, ReturnBody,
    ReturnSlots, TakeBody,
};
use crate::steps::marks::record_mark;
use crate::steps::{RingSeat, SharedRing, trailer_word};
use crate::view::Wanted;
use ring_layout::mark_descriptor::{COMMITTED_KIND, OPEN_KIND};
use ring_layout::ring_buffer_descriptor::HEAD_CACHE_POSITION_WORD;
use ring_layout::word_index;

/// Takes the slots of the own claim at a place, whose mark is not stored.
pub fn reserve_at(ring: &SharedRing<InSlots>, producer: &mut RingSeat, capacity: u32, place: u64)
    requires seat { IsSeatOf ring.now.table_id ring.now.key capacity producer.old }
    requires claim { HasClaimAt producer.old.me.0 place IsPadded }
    ensures seat { IsSameHolder producer.old producer.new }
    ensures reserves { ReservesAt (index capacity place) producer.old.me producer.new.me }
    ensures rising { AreRising producer.old.me.0.producer.claims }
{
    ring.load::<ReserveAt>(producer, word_index(capacity, place));
}

/// Takes the slots of the newest claim, whose header is not stored.
pub fn reserve_body(ring: &SharedRing<InSlots>, producer: &mut RingSeat, capacity: u32)
    requires seat { IsSeatOf ring.now.table_id ring.now.key capacity producer.old }
    requires newest { (place : ℕ) × HasNewestAt producer.old.me.0 place IsPadded }
    ensures seat { IsSameHolder producer.old producer.new }
    ensures reserves { ReservesBody producer.old.me producer.new.me }
    ensures rising { AreRising producer.old.me.0.producer.claims }
{
    // Any word would do. This one was loaded for the claim, while the word of the claim's mark is on a line that other
    // threads used last: the line would be fetched to be read, and once more to be stored.
    ring.load::<ReserveBody>(producer, trailer_word(capacity, HEAD_CACHE_POSITION_WORD));
}

/// Stores the mark of an own claim, which had none, and gives its slots back with the words of a body of `wanted.len`
/// bytes. The claim is open from then on, and has this body.
pub fn open_record(
    ring: &SharedRing<InSlots>,
    producer: &mut RingSeat,
    capacity: u32,
    place: u64,
    wanted: Wanted,
)
    requires seat { IsHolderOf ring.now.table_id ring.now.key capacity producer.old }
    requires message { IsMessage capacity (blank wanted.type_id wanted.len) }
    requires body { (body : List ℕ) × (length body ≡ wanted.len)
        × IsReserved capacity place wanted.type_id body producer.old.me }
    ensures seat { IsSameHolder producer.old producer.new }
    ensures stores { StoresRecord Open producer.old.me producer.new.me }
    ensures rising { AreRising producer.old.me.0.producer.claims }
{
    let mark = record_mark(place, wanted.len, OPEN_KIND);
    ring.store::<OpenRecord>(producer, word_index(capacity, place), mark);
}

/// Stores the mark of an own claim, which had none, and gives its slots back with the words of a body of `wanted.len`
/// bytes. The claim is committed from then on, and has this body.
pub fn commit_record(
    ring: &SharedRing<InSlots>,
    producer: &mut RingSeat,
    capacity: u32,
    place: u64,
    wanted: Wanted,
)
    requires seat { IsHolderOf ring.now.table_id ring.now.key capacity producer.old }
    requires message { IsMessage capacity (blank wanted.type_id wanted.len) }
    requires body { (body : List ℕ) × (length body ≡ wanted.len)
        × IsReserved capacity place wanted.type_id body producer.old.me }
    ensures seat { IsSameHolder producer.old producer.new }
    ensures stores { StoresRecord Committed producer.old.me producer.new.me }
    ensures rising { AreRising producer.old.me.0.producer.claims }
{
    let mark = record_mark(place, wanted.len, COMMITTED_KIND);
    ring.store::<CommitRecord>(producer, word_index(capacity, place), mark);
}

/// Stores the mark of a run in place of the newest claim, which had none, and gives its slots back with the records of the
/// run. The messages of the run are committed from then on, each as a claim of its own.
pub fn commit_run(
    ring: &SharedRing<InSlots>,
    producer: &mut RingSeat,
    capacity: u32,
    place: u64,
    end: u64,
)
    requires seat { IsHolderOf ring.now.table_id ring.now.key capacity producer.old }
    requires run { (ms : List Message) × HasRun capacity place end ms producer.old.me }
    ensures seat { IsSameHolder producer.old producer.new }
    ensures stores { StoresRun producer.old.me producer.new.me }
    ensures rising { AreRising producer.old.me.0.producer.claims }
{
    ring.store::<CommitRun>(producer, word_index(capacity, place), end);
}

/// Takes the slots of an own open claim, which have the words of its body.
pub fn take_body(ring: &SharedRing<InSlots>, producer: &mut RingSeat, capacity: u32, place: u64)
    requires seat { IsSeatOf ring.now.table_id ring.now.key capacity producer.old }
    requires claim { HasClaimAt producer.old.me.0 place IsOpen }
    ensures seat { IsSameHolder producer.old producer.new }
    ensures takes { TakesBody (index capacity place) producer.old.me producer.new.me }
    ensures rising { AreRising producer.old.me.0.producer.claims }
{
    ring.load::<TakeBody>(producer, word_index(capacity, place));
}

/// Gives the slots of an own open claim back with the words of a body, which is the claim's from then on.
pub fn give_body(ring: &SharedRing<InSlots>, producer: &mut RingSeat, capacity: u32, place: u64)
    requires seat { IsHolderOf ring.now.table_id ring.now.key capacity producer.old }
    requires body { (body : List ℕ) × IsTaken capacity place body producer.old.me }
    ensures seat { IsSameHolder producer.old producer.new }
    ensures gives { GivesBody producer.old.me producer.new.me }
    ensures rising { AreRising producer.old.me.0.producer.claims }
{
    ring.load::<GiveBody>(producer, word_index(capacity, place));
}

/// Takes the slots of the message that the read got last, which have the words of its body.
pub fn lend_body(ring: &SharedRing<InSlots>, consumer: &mut RingSeat, capacity: u32, place: u64)
    requires seat { IsSeatOf ring.now.table_id ring.now.key capacity consumer.old }
    requires consumes { consumer.old.me.0.consumes ≡ true }
    requires last { HasLast place consumer.old.me.0 }
    ensures seat { IsSameHolder consumer.old consumer.new }
    ensures lends { LendsBody (index capacity place) consumer.old.me consumer.new.me }
{
    ring.load::<LendBody>(consumer, word_index(capacity, place));
}

/// Gives the slots of that message back, as they were.
pub fn return_body(ring: &SharedRing<InSlots>, consumer: &mut RingSeat, capacity: u32, place: u64)
    requires seat { IsHolderOf ring.now.table_id ring.now.key capacity consumer.old }
    requires consumes { consumer.old.me.0.consumes ≡ true }
    requires last { IsLent capacity place consumer.old.me }
    ensures seat { IsSameHolder consumer.old consumer.new }
    ensures returns { ReturnsBody consumer.old.me consumer.new.me }
{
    ring.load::<ReturnBody>(consumer, word_index(capacity, place));
}

/// Gives the slots of that message back, as they were, and logs nothing.
pub(crate) fn return_slots(
    ring: &SharedRing<InSlots>,
    consumer: &mut RingSeat,
    capacity: u32,
    place: u64,
)
    requires seat { IsHolderOf ring.now.table_id ring.now.key capacity consumer.old }
    requires consumes { consumer.old.me.0.consumes ≡ true }
    requires last { IsLent capacity place consumer.old.me }
    ensures seat { IsSameHolder consumer.old consumer.new }
    ensures returns { ReturnsSlots consumer.old.me consumer.new.me }
{
    ring.load::<ReturnSlots>(consumer, word_index(capacity, place));
}
