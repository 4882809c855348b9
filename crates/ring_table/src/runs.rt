//! Runs of records, which a producer writes into the slots of one claim and publishes by one store.
ghost use Rattle.std.specs.Prelude.{◌≡◌, ◌+◌, ◌*◌, ◌^◌, ◌≤◌, ◌<◌, [], ◌∷◌, ◌++◌, All, List, ℕ, length};
ghost use Rattle.ring_layout.specs.Headers.{committed_header};
ghost use Rattle.ring_table.specs.{Filling.Filling, Filling.IsSameTable, Seats.IsSameSeat, Seats.IsSeatOf};
ghost use Rattle.ring_table.specs.{ProducerSteps.HasNewestAt, Staged.headed, Staged.AreRising, Staged.StagedClaim};
ghost use Rattle.ring_table.specs.RunBodies.{messages_of, IsSendable, LiesAt, NeedsRun};
ghost use Rattle.ring_table.specs.Runs.{run_bytes, run_claims, run_slots, AreMessages};
ghost use Rattle.ring_table.specs.{SlotSteps.words_of, SlotSteps.HasBody, SlotSteps.HasSlots, Views.with_claims};

use crate::bodies::put_slot;
use crate::mode::InSlots;
use crate::steps::slots::{commit_run, reserve_body};
use crate::steps::{RingSeat, SharedRing};
use ring_layout::{committed_header, first_word, word_index};

/// A message that is to be written.
#[derive(Clone, Copy, Debug)]
pub struct Outgoing<'a> {
    /// 1 or more.
    pub type_id: i32,
    /// At most an eighth of the ring's capacity.
    pub body: &'a [u8],
}

/// Puts a header and the words of a body into the slots of a record, which begin `k` slots after the first of a run.
#[inline(always)]
fn fill_record(
    ring: &SharedRing<InSlots>,
    seat: &mut RingSeat,
    first: usize,
    k: usize,
    count: usize,
    header: u64,
    body: &[u8],
)
    requires seat { seat.old.table_id ≡ ring.now.table_id }
    requires small { first + count < 2 ^ 59 }
    requires more { k + words_of (8 + length body.now) ≤ count }
    requires filling { (run : List ℕ) × (LiesAt (8 * k) (headed header body.now) run)
        × Filling first k count run seat.old.me.1 }
    ensures seat { IsSameTable seat.old seat.new }
    ensures bytes { All (λ b. b < 256) body.now }
    ensures filling { (run : List ℕ) → LiesAt (8 * k) (headed header body.now) run
        → Filling first k count run seat.old.me.1
        → Filling first (k + words_of (8 + length body.now)) count run seat.new.me.1 }
{
    put_slot(ring, seat, first, k, count, header);
    let whole = body.len() / 8;
    for i in 0..whole {
        let word = first_word(&body[8 * i..8 * i + 8]);
        put_slot(ring, seat, first, k + 1 + i, count, word);
    }
    if 8 * whole < body.len() {
        let word = first_word(&body[8 * whole..body.len()]);
        put_slot(ring, seat, first, k + 1 + whole, count, word);
    }
}

/// Puts the records of messages one after another into the slots of a run, which are all that the seat has.
#[inline(always)]
fn fill_run(
    ring: &SharedRing<InSlots>,
    seat: &mut RingSeat,
    capacity: u32,
    first: usize,
    count: usize,
    messages: &[Outgoing<'_>],
)
    requires seat { seat.old.table_id ≡ ring.now.table_id }
    requires small { (first + count < 2 ^ 59) × (capacity ≤ 2 ^ 24) }
    requires messages { All (IsSendable capacity) messages.now }
    requires count { run_bytes (messages_of messages.now) ≡ 8 * count }
    requires has { HasSlots first count seat.old.me.1 }
    ensures seat { IsSameTable seat.old seat.new }
    ensures messages { AreMessages capacity (messages_of messages.now) }
    ensures has { HasBody first (run_slots (messages_of messages.now)) seat.new.me.1 }
{
    let mut k = 0;
    for message in messages {
        let header = committed_header(message.type_id, message.body.len());
        fill_record(ring, seat, first, k, count, header, message.body);
        k += message.body.len().div_ceil(8) + 1;
    }
}

/// Writes the records of messages into the slots of the newest claim, which they fill, and then stores the mark of the
/// run and no other. The messages are committed from then on, each as a claim of its own.
#[inline(always)]
pub fn write_run(
    ring: &SharedRing<InSlots>,
    producer: &mut RingSeat,
    capacity: u32,
    place: u64,
    bytes: usize,
    messages: &[Outgoing<'_>],
)
    requires seat { IsSeatOf ring.now.table_id ring.now.key capacity producer.old }
    requires small { (capacity ≤ 2 ^ 24) × (bytes < 2 ^ 31) × (place + bytes < 2 ^ 64) }
    requires some { 0 < length messages.now }
    requires messages { All (IsSendable capacity) messages.now }
    requires bytes { run_bytes (messages_of messages.now) ≡ bytes }
    requires newest { HasNewestAt producer.old.me.0 place (NeedsRun bytes) }
    ensures seat { IsSameSeat producer.old producer.new }
    ensures view { (others : List StagedClaim) (c : StagedClaim) → producer.old.me.0.producer.claims ≡ others ++ c ∷ []
        → producer.new.me.0
        ≡ with_claims (others ++ run_claims place (messages_of messages.now)) producer.old.me.0 }
    ensures rising { AreRising producer.old.me.0.producer.claims }
{
    reserve_body(ring, producer, capacity);
    let first = word_index(capacity, place);
    fill_run(ring, producer, capacity, first, bytes / 8, messages);
    commit_run(ring, producer, capacity, place, place + bytes as u64);
}
