//! The trait that the listings of rings and of broadcast buffers share.
ghost use Rattle.std.specs.Prelude.{◌≡◌, ℕ, ◌+◌, ◌%◌, ◌^◌, ◌<◌, ◌≤◌, IsTrue, IfOk, Result};
ghost use Rattle.std.specs.Int.{is_power_of_two};
ghost use Rattle.ring_layout.specs.Places.{rounded};
ghost use Rattle.ring_snapshot.specs.Listing.{lies_inside};

use ring_layout::record_descriptor::HEADER_LENGTH;
use ring_layout::{align8, byte_index, max_message};

/// The words of a ring or a broadcast buffer, which say what is at a position.
pub trait Buffer: Drop {
    /// A record as it is in memory.
    type Record: Drop;

    /// A finding about the words.
    type Finding: Drop;

    /// The number of bytes of a record, header included.
    ghost size: { Self.Record → ℕ };

    /// The entry at a position, if the records end at a tail.
    ghost entry: { Self → ℕ → ℕ → Result Self.Record Self.Finding };

    /// Returns what is at a position before the tail.
    fn entry_at(&self, tail: u64, at: u64) -> Result<Self::Record, Self::Finding>
        requires aligned { (at % 8 ≡ 0) × (tail % 8 ≡ 0) }
        requires before { at < tail }
        requires near { tail ≤ at + 2 ^ 24 }
        ensures entry { result ≡ entry self.now tail at }
        ensures inside { IfOk result (λ r. at + rounded (size r) < 2 ^ 64) };

    /// Returns the number of bytes of a record, header included.
    fn length_of(own: &Self::Record) -> u32
        ensures { result ≡ size own.now };
}

/// Tests whether a record of this length, header included, may be at a position. No message is longer, and the record
/// does not cross the end of the buffer.
pub(crate) fn lies_inside(capacity: u32, at: u64, length: u32) -> bool
    requires { IsTrue (is_power_of_two capacity) }
    ensures { result ≡ lies_inside capacity at length }
{
    if length < HEADER_LENGTH as u32 || length > HEADER_LENGTH as u32 + max_message(capacity) {
        return false;
    }
    align8(u64::from(length)) <= u64::from(capacity) - byte_index(capacity, at)
}
