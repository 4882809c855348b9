//! The tests of every claim of a ring and of every transmission of a broadcast buffer. They say whether a message is
//! valid, where its record goes, and whether it fits.
ghost use Rattle.std.specs.Prelude.{◌≡◌, ℕ, ◌+◌, ◌/◌, ◌%◌, ◌≤◌, ◌↔◌, IsTrue, true, nat_le, int_le, pos};
ghost use Rattle.std.specs.Int.{is_power_of_two};
ghost use Rattle.ring_layout.specs.History.{span};
ghost use Rattle.ring_layout.specs.Places.{IsCapacity, max_position, next_place, end_after, Fits};

use crate::capacity::max_message;
use crate::placement::pad_and_span;
use crate::ring_buffer_descriptor::MAX_POSITION;

/// The place of the next record after `tail`. The record begins at `place`, after padding if `place` is greater than
/// `tail`, and ends at `end`. `tail`, `place` and `end` are positions in bytes.
#[derive(Clone, Copy, Debug, PartialEq, Eq)]
pub struct Admission {
    pub tail: u64,
    pub place: u64,
    pub end: u64,
}

/// Tests whether a message may have this type id, which must be 1 or more.
#[inline]
pub fn is_type_id(type_id: i32) -> bool
    ensures { result ≡ int_le (pos 1) type_id }
{
    type_id >= 1
}

/// Tests whether a message may have this length in bytes, which must be at most `max_message`.
#[inline]
pub fn is_length(capacity: u32, len: usize) -> bool
    ensures { result ≡ nat_le len (capacity / 8) }
{
    len <= max_message(capacity) as usize
}

/// Returns the place of the record of a message of `len` bytes, if it is the next record after a tail. The function
/// does not test whether the record may end there, and whether there is room.
#[inline]
pub fn place_record(capacity: u32, tail: u64, len: usize) -> Admission
    requires power { IsTrue (is_power_of_two capacity) }
    requires short { len ≤ capacity / 8 }
    requires limit { tail ≤ max_position }
    ensures tail { result.tail ≡ tail }
    ensures place { result.place ≡ next_place capacity tail (span len) }
    ensures end { result.end ≡ end_after capacity tail (span len) }
{
    let (pad, span) = pad_and_span(capacity, tail, len);
    let place = tail + pad;
    Admission {
        tail,
        place,
        end: place + span,
    }
}

/// Tests whether a record may end at this position, which must be at most 2^62.
#[inline]
pub fn is_position(end: u64) -> bool
    ensures { result ≡ nat_le end max_position }
{
    end <= MAX_POSITION
}

/// Tests whether there is room for a record that ends at `end`. There is room if `end` is at most one capacity after
/// the head. The head may be a cached one, which may be further back.
#[inline]
pub fn has_room(capacity: u32, end: u64, head: u64) -> bool
    requires { head ≤ max_position }
    ensures { result ≡ nat_le end (head + capacity) }
{
    end <= head + u64::from(capacity)
}

/// Tests whether a record with `len` bytes of body fits at this tail and head. It fits if its padding and its span
/// together are at most the free bytes. If it does not fit, it fits at no later tail either while the head stays the
/// same.
pub fn fits(capacity: u32, tail: u64, head: u64, len: usize) -> bool
    requires capacity { IsCapacity capacity }
    requires short { len ≤ capacity / 8 }
    requires limit { tail ≤ max_position }
    requires order { head ≤ tail }
    ensures fits { IsTrue result ↔ Fits capacity tail head (span len) }
    ensures lasting { (later : ℕ) → tail ≤ later → Fits capacity later head (span len) → result ≡ true }
{
    let Admission { end, .. } = place_record(capacity, tail, len);
    has_room(capacity, end, head)
}
