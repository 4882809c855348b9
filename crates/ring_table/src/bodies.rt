//! Whole bodies in slots, which a seat has out: written, set to 0, and copied.
ghost use Rattle.std.specs.Prelude.{◌≡◌, ◌+◌, ◌*◌, ◌/◌, ◌^◌, ◌≤◌, ◌<◌, [], ◌∷◌, ◌++◌, All, List, ℕ, length, replicate, true};
ghost use Rattle.ring_table.specs.Filling.{Begins, Filling, IsSameTable};
ghost use Rattle.ring_layout.specs.History.{IsMessage};
ghost use Rattle.ring_table.specs.declared.claim.PlacedMessage.{PlacedMessage};
ghost use Rattle.ring_table.specs.Changes.{blank, recorded, with_header};
ghost use Rattle.ring_table.specs.ProducerSteps.{with_changed, HasClaimAt, HasNewestAt, NeedsHeader};
ghost use Rattle.ring_table.specs.{Seats.IsSameSeat, Seats.IsSeatOf, Staged.body_word, Staged.headed, Staged.AreRising};
ghost use Rattle.ring_table.specs.SlotSteps.{body_loads, words_of, HasBody, HasLast, HasSlots};

use crate::mode::InSlots;
use crate::steps::slots::{
    commit_record, lend_body, open_record, reserve_at, reserve_body, return_body,
};
use crate::steps::{RingSeat, SharedRing};
use crate::view::Wanted;
use ring_layout::{committed_header, first_word, put_word, word_index};

/// Puts a word into the slot taken last, which goes after the others.
#[inline(always)]
pub(crate) fn put_slot(
    ring: &SharedRing<InSlots>,
    seat: &mut RingSeat,
    first: usize,
    k: usize,
    count: usize,
    word: u64,
)
    requires seat { seat.old.table_id ≡ ring.now.table_id }
    requires small { first + k < 2 ^ 60 }
    requires filling { (body : List ℕ) × Filling first k count body seat.old.me.1 }
    requires more { k < count }
    ensures seat { IsSameTable seat.old seat.new }
    ensures filling { (body : List ℕ) → Filling first k count body seat.old.me.1 → word ≡ body_word body (8 * k)
        → Filling first (k + 1) count body seat.new.me.1 }
{
    ring.exchange(seat, first + k, word);
    seat.turn();
}

/// Puts a header into the first of the slots, which goes after the others.
#[inline(always)]
fn fill_header(
    ring: &SharedRing<InSlots>,
    seat: &mut RingSeat,
    first: usize,
    count: usize,
    header: u64,
)
    requires seat { seat.old.table_id ≡ ring.now.table_id }
    requires small { first < 2 ^ 60 }
    requires has { HasSlots first count seat.old.me.1 }
    requires some { 0 < count }
    ensures seat { IsSameTable seat.old seat.new }
    ensures filling { (body : List ℕ) → Filling first 1 count (headed header body) seat.new.me.1 }
{
    put_slot(ring, seat, first, 0, count, header);
}

/// Puts a header and the words of a body into the slots of a record, which are all that the seat has.
#[inline(always)]
pub fn fill_slots(
    ring: &SharedRing<InSlots>,
    seat: &mut RingSeat,
    first: usize,
    header: u64,
    body: &[u8],
)
    requires seat { seat.old.table_id ≡ ring.now.table_id }
    requires small { first + length body.now < 2 ^ 59 }
    requires has { HasSlots first (words_of (8 + length body.now)) seat.old.me.1 }
    ensures seat { IsSameTable seat.old seat.new }
    ensures has { HasBody first (headed header body.now) seat.new.me.1 }
{
    let count = body.len().div_ceil(8) + 1;
    fill_header(ring, seat, first, count, header);
    let whole = body.len() / 8;
    for k in 0..whole {
        let word = first_word(&body[8 * k..8 * k + 8]);
        put_slot(ring, seat, first, k + 1, count, word);
    }
    if 8 * whole < body.len() {
        let word = first_word(&body[8 * whole..body.len()]);
        put_slot(ring, seat, first, whole + 1, count, word);
    }
}

/// The same with a body of `len` zeros.
#[inline(always)]
pub fn fill_zeros(
    ring: &SharedRing<InSlots>,
    seat: &mut RingSeat,
    first: usize,
    header: u64,
    len: usize,
)
    requires seat { seat.old.table_id ≡ ring.now.table_id }
    requires small { first + len < 2 ^ 59 }
    requires has { HasSlots first (words_of (8 + len)) seat.old.me.1 }
    ensures seat { IsSameTable seat.old seat.new }
    ensures has { HasBody first (headed header (replicate len 0)) seat.new.me.1 }
{
    let count = len.div_ceil(8) + 1;
    fill_header(ring, seat, first, count, header);
    for k in 0..count - 1 {
        put_slot(ring, seat, first, k + 1, count, 0);
    }
}

/// Reads the slot taken last, which goes after the others.
#[inline(always)]
pub(crate) fn look_slot(ring: &SharedRing<InSlots>, seat: &mut RingSeat, slot: usize) -> u64
    requires seat { seat.old.table_id ≡ ring.now.table_id }
    requires front { (old : ℕ) × (rest : List (ℕ × ℕ)) × (seat.old.me.1 ≡ (slot, old) ∷ rest) }
    ensures seat { IsSameTable seat.old seat.new }
    ensures keeps { (old : ℕ) (rest : List (ℕ × ℕ)) → seat.old.me.1 ≡ (slot, old) ∷ rest
        → (result ≡ old) × (seat.new.me.1 ≡ rest ++ (slot, old) ∷ []) }
{
    let word = *seat.slot_mut(ring, slot);
    seat.turn();
    word
}

/// Copies the body of a record, whose `count` slots after that of the header, and this one, are all that the seat has,
/// to the front of the scratch.
#[inline(always)]
pub fn copy_slots(
    ring: &SharedRing<InSlots>,
    seat: &mut RingSeat,
    first: usize,
    count: usize,
    scratch: &mut [u8],
)
    requires seat { seat.old.table_id ≡ ring.now.table_id }
    requires small { first + count < 2 ^ 59 }
    requires room { 8 * count ≤ length scratch.old }
    requires has { HasSlots first (count + 1) seat.old.me.1 }
    ensures seat { IsSameTable seat.old seat.new }
    ensures same { seat.new.me.1 ≡ seat.old.me.1 }
    ensures copies { (h : ℕ) (body : List ℕ) → HasBody first (headed h body) seat.old.me.1 → All (λ b. b < 256) body
        → Begins body scratch.new }
{
    look_slot(ring, seat, first);
    // Four are read and then stored, so that the compiler makes wide moves of them.
    for turn in 0..count / 4 {
        let a = 4 * turn;
        let b = a + 1;
        let c = b + 1;
        let d = c + 1;
        let w = look_slot(ring, seat, first + 1 + a);
        let x = look_slot(ring, seat, first + 1 + b);
        let y = look_slot(ring, seat, first + 1 + c);
        let z = look_slot(ring, seat, first + 1 + d);
        put_word(scratch, 8 * a, w);
        put_word(scratch, 8 * b, x);
        put_word(scratch, 8 * c, y);
        put_word(scratch, 8 * d, z);
    }
    for k in count / 4 * 4..count {
        let word = look_slot(ring, seat, first + 1 + k);
        put_word(scratch, 8 * k, word);
    }
}

/// Fills the slots of a claim of `len` bytes with its header and zeros, and stores its mark. The claim is open from
/// then on, with zeros for its bytes.
pub fn store_claimed_slots(
    ring: &SharedRing<InSlots>,
    producer: &mut RingSeat,
    capacity: u32,
    place: u64,
    wanted: Wanted,
)
    requires seat { IsSeatOf ring.now.table_id ring.now.key capacity producer.old }
    requires message { IsMessage capacity (blank wanted.type_id wanted.len) }
    requires claim { HasClaimAt producer.old.me.0 place (NeedsHeader wanted.len) }
    ensures seat { IsSameSeat producer.old producer.new }
    ensures view { producer.new.me.0 ≡ with_changed place (with_header wanted.type_id wanted.len) producer.old.me.0 }
    ensures rising { AreRising producer.old.me.0.producer.claims }
{
    reserve_at(ring, producer, capacity, place);
    let header = committed_header(wanted.type_id, wanted.len);
    fill_zeros(
        ring,
        producer,
        word_index(capacity, place),
        header,
        wanted.len,
    );
    open_record(ring, producer, capacity, place, wanted);
}

/// Writes the header and the whole body of the newest claim into its slots, and then stores its mark and no other. The
/// claim is committed from then on, and has this body.
#[inline(always)]
pub fn write_slots(
    ring: &SharedRing<InSlots>,
    producer: &mut RingSeat,
    capacity: u32,
    place: u64,
    wanted: Wanted,
    body: &[u8],
)
    requires seat { IsSeatOf ring.now.table_id ring.now.key capacity producer.old }
    requires message { IsMessage capacity (blank wanted.type_id wanted.len) }
    requires len { length body.now ≡ wanted.len }
    requires newest { HasNewestAt producer.old.me.0 place (NeedsHeader wanted.len) }
    ensures seat { IsSameSeat producer.old producer.new }
    ensures view { producer.new.me.0
        ≡ with_changed place (recorded wanted.type_id body.now) producer.old.me.0 }
    ensures rising { AreRising producer.old.me.0.producer.claims }
{
    reserve_body(ring, producer, capacity);
    let header = committed_header(wanted.type_id, wanted.len);
    fill_slots(ring, producer, word_index(capacity, place), header, body);
    commit_record(ring, producer, capacity, place, wanted);
}

/// Copies the body of the message that the read got last, of `len` bytes, to the front of the scratch. The log gets its
/// words as if each was loaded.
#[inline(always)]
pub fn read_slots(
    ring: &SharedRing<InSlots>,
    consumer: &mut RingSeat,
    capacity: u32,
    place: u64,
    len: usize,
    scratch: &mut [u8],
)
    requires seat { IsSeatOf ring.now.table_id ring.now.key capacity consumer.old }
    requires consumes { consumer.old.me.0.consumes ≡ true }
    requires last { (last : HasLast place consumer.old.me.0) × (length last.message.message.body ≡ len) }
    requires room { (len < 2 ^ 58) × (8 * words_of len ≤ length scratch.old) }
    ensures seat { IsSameSeat consumer.old consumer.new }
    ensures view { (m : PlacedMessage) (front : List PlacedMessage) → consumer.old.me.0.consumer.got ≡ front ++ m ∷ []
        → consumer.new.me.0 ≡ record consumer.old.me.0 {
          log = consumer.old.me.0.log ++ body_loads capacity m (words_of (length m.message.body));
        } }
    ensures copies { (m : PlacedMessage) (front : List PlacedMessage) → consumer.old.me.0.consumer.got ≡ front ++ m ∷ []
        → All (λ b. b < 256) m.message.body → Begins m.message.body scratch.new }
{
    lend_body(ring, consumer, capacity, place);
    let first = word_index(capacity, place);
    copy_slots(ring, consumer, first, len.div_ceil(8), scratch);
    return_body(ring, consumer, capacity, place);
}
