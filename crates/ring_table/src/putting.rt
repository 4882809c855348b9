//! Bytes put into a body in slots.
ghost use Rattle.std.specs.Prelude.{◌≡◌, ◌+◌, ◌*◌, ◌/◌, ◌^◌, ◌≤◌, ◌<◌, [], ◌∷◌, ◌++◌, All, List, ℕ, length};
ghost use Rattle.std.specs.Int.{from_le_bytes, to_le_bytes, w64};
ghost use Rattle.ring_layout.specs.History.{overwritten};
ghost use Rattle.ring_table.specs.{declared.claim.StagedClaim.StagedClaim, Filling.IsSameTable, Filling.Takes};
ghost use Rattle.ring_table.specs.{Changes.with_body, SlotSteps.words_of, SlotSteps.HasBody, SlotSteps.IsOpenOf};
ghost use Rattle.ring_table.specs.ProducerSteps.{with_changed, HasClaim, HasClaimAt};
ghost use Rattle.ring_table.specs.{Seats.IsSameSeat, Seats.IsSeatOf, Staged.AreRising};

use crate::bodies::look_slot;
use crate::mode::InSlots;
use crate::steps::slots::{give_body, take_body};
use crate::steps::{RingSeat, SharedRing};
use ring_layout::{first_word, put_bytes_word, word_index};

/// The word with these bytes in place of its own from the byte `at` on.
#[inline(always)]
fn merged(word: u64, at: usize, bytes: &[u8]) -> u64
    requires { at + length bytes.now ≤ 8 }
    ensures { result ≡ from_le_bytes w64 (overwritten at bytes.now (to_le_bytes w64 word)) }
{
    if bytes.len() == 8 {
        return first_word(bytes);
    }
    put_bytes_word(word, at, bytes)
}

/// Puts bytes into the slot taken last, from its byte `at` on. It goes after the others.
#[inline(always)]
fn merge_slot(ring: &SharedRing<InSlots>, seat: &mut RingSeat, slot: usize, at: usize, bytes: &[u8])
    requires seat { seat.old.table_id ≡ ring.now.table_id }
    requires front { (old : ℕ) × (rest : List (ℕ × ℕ)) × (seat.old.me.1 ≡ (slot, old) ∷ rest) }
    requires within { at + length bytes.now ≤ 8 }
    ensures seat { IsSameTable seat.old seat.new }
    ensures puts { (old : ℕ) (rest : List (ℕ × ℕ)) → seat.old.me.1 ≡ (slot, old) ∷ rest → seat.new.me.1
        ≡ rest ++ (slot, from_le_bytes w64 (overwritten at bytes.now (to_le_bytes w64 old))) ∷ [] }
{
    let word = merged(*seat.slot_mut(ring, slot), at, bytes);
    ring.exchange(seat, slot, word);
    seat.turn();
}

/// Puts bytes into the body whose slots are all that the seat has, from the byte `offset` on.
#[inline(always)]
fn merge_slots(
    ring: &SharedRing<InSlots>,
    seat: &mut RingSeat,
    first: usize,
    len: usize,
    offset: usize,
    bytes: &[u8],
)
    requires seat { seat.old.table_id ≡ ring.now.table_id }
    requires small { first + len < 2 ^ 59 }
    requires room { offset + length bytes.now ≤ len }
    requires takes { (body : List ℕ) × Takes first len body seat.old.me.1 }
    ensures seat { IsSameTable seat.old seat.new }
    ensures has { (body : List ℕ) → Takes first len body seat.old.me.1
        → HasBody first (overwritten offset bytes.now body) seat.new.me.1 }
{
    let end = offset + bytes.len();
    let (low, high) = (offset / 8, end.div_ceil(8));
    for j in 0..low {
        look_slot(ring, seat, first + j);
    }
    for k in low..high {
        let from = (8 * k).max(offset);
        let to = (8 * k + 8).min(end);
        let chunk = &bytes[from - offset..to - offset];
        merge_slot(ring, seat, first + k, from - 8 * k, chunk);
    }
    for i in high..len.div_ceil(8) {
        look_slot(ring, seat, first + i);
    }
}

/// Puts bytes into the slots of an own open claim of `len` bytes, from the byte `offset` of its body on.
pub fn put_slots(
    ring: &SharedRing<InSlots>,
    producer: &mut RingSeat,
    capacity: u32,
    place: u64,
    len: usize,
    offset: usize,
    bytes: &[u8],
)
    requires seat { IsSeatOf ring.now.table_id ring.now.key capacity producer.old }
    requires claim { HasClaimAt producer.old.me.0 place (IsOpenOf len) }
    requires room { offset + length bytes.now ≤ len }
    requires small { len < 2 ^ 58 }
    ensures seat { IsSameSeat producer.old producer.new }
    ensures view { (k : ℕ) (c : StagedClaim) → HasClaim producer.old.me.0 k c → c.place ≡ place → producer.new.me.0
        ≡ with_changed place (with_body (overwritten offset bytes.now c.message.body)) producer.old.me.0 }
    ensures rising { AreRising producer.old.me.0.producer.claims }
{
    take_body(ring, producer, capacity, place);
    let first = word_index(capacity, place);
    merge_slots(ring, producer, first, 8 + len, 8 + offset, bytes);
    give_body(ring, producer, capacity, place);
}
