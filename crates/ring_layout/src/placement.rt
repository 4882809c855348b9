//! The places of records in a buffer.
ghost use Rattle.std.specs.Prelude.{◌≡◌, ◌+◌, ◌/◌, ◌%◌, ◌≤◌, IsTrue};
ghost use Rattle.std.specs.Int.{is_power_of_two};
ghost use Rattle.ring_layout.specs.{History.span, Places.index, Places.max_position, Places.next_place};

use crate::record_descriptor;

/// Returns the byte index of a position, in bytes, in a buffer whose capacity is a power of two.
pub fn byte_index(capacity: u32, position: u64) -> u64
    requires { IsTrue (is_power_of_two capacity) }
    ensures { result ≡ position % capacity }
{
    // The mask gives the remainder without a division.
    position & u64::from(capacity - 1)
}

/// Returns the index of the word at a position, in bytes, in a buffer whose capacity is a power of two.
pub fn word_index(capacity: u32, position: u64) -> usize
    requires { IsTrue (is_power_of_two capacity) }
    ensures { result ≡ index capacity position }
{
    byte_index(capacity, position) as usize / 8
}

/// Returns the padding that a record with `len` bytes of body needs at this tail, and the record's span, both in bytes.
/// If the record would cross the end of the buffer, padding fills the buffer up to its end.
#[inline]
pub fn pad_and_span(capacity: u32, tail: u64, len: usize) -> (u64, u64)
    requires power { IsTrue (is_power_of_two capacity) }
    requires short { len ≤ capacity / 8 }
    requires limit { tail ≤ max_position }
    ensures place { tail + result.0 ≡ next_place capacity tail (span len) }
    ensures span { result.1 ≡ span len }
{
    let span = record_descriptor::span(len);
    let room = u64::from(capacity) - byte_index(capacity, tail);
    (if span <= room { 0 } else { room }, span)
}
