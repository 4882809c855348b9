//! The capacities and start positions that a ring and a broadcast buffer may have.
ghost use Rattle.std.specs.Prelude.{◌≡◌, ◌%◌, ◌/◌, ◌<◌, ◌≤◌, ◌↔◌, IsTrue, OnOk, true};
ghost use Rattle.ring_layout.specs.Places.{is_capacity, is_board_capacity, IsCapacity, IsBoardCapacity, max_position};
ghost use Rattle.ring_layout.specs.Refusals.{make_refusal_of, IsRefusedBy};

use crate::broadcast_buffer_descriptor as board;
use crate::make_fault::MakeFault;
use crate::ring_buffer_descriptor::{MAX_CAPACITY, MAX_POSITION, MIN_CAPACITY};

/// Tests whether a ring may have this capacity, which must be a power of two from 128 to 2^24.
pub fn is_capacity(capacity: u32) -> bool
    ensures test { result ≡ is_capacity capacity }
    ensures lawful { IsTrue result ↔ IsCapacity capacity }
{
    capacity.is_power_of_two() && capacity >= MIN_CAPACITY && capacity <= MAX_CAPACITY
}

/// Tests whether a broadcast buffer may have this capacity, which must be a power of two from 256 to 2^24.
pub fn is_board_capacity(capacity: u32) -> bool
    ensures test { result ≡ is_board_capacity capacity }
    ensures lawful { IsTrue result ↔ IsBoardCapacity capacity }
{
    capacity.is_power_of_two() && capacity >= board::MIN_CAPACITY && capacity <= board::MAX_CAPACITY
}

/// Returns the number of bytes of the longest message, which is an eighth of the capacity.
pub fn max_message(capacity: u32) -> u32
    ensures { result ≡ capacity / 8 }
{
    capacity / 8
}

/// Tests the start of a buffer. `is_lawful` says whether this kind of buffer may have the capacity.
fn check_start(is_lawful: bool, capacity: u32, start: u64) -> Result<(), MakeFault>
    requires { is_lawful ≡ true → 0 < capacity }
    ensures { IsRefusedBy (make_refusal_of is_lawful capacity start) result }
{
    if !is_lawful {
        return Err(MakeFault::BadCapacity);
    }
    if start % u64::from(capacity) != 0 || start > MAX_POSITION {
        return Err(MakeFault::BadStart);
    }
    Ok(())
}

/// Tests whether a ring may have this capacity and start at this position. Returns `BadCapacity` if the capacity is not
/// a power of two from 128 to 2^24. Otherwise returns `BadStart` if the start is not a multiple of the capacity, or is
/// above 2^62.
pub fn check_ring(capacity: u32, start: u64) -> Result<(), MakeFault>
    ensures refused { IsRefusedBy (make_refusal_of (is_capacity capacity) capacity start) result }
    ensures lawful { OnOk result (IsCapacity capacity) }
    ensures start { OnOk result ((start % capacity ≡ 0) × (start ≤ max_position)) }
{
    check_start(is_capacity(capacity), capacity, start)
}

/// Tests whether a broadcast buffer may have this capacity and start at this position. Returns `BadCapacity` if the
/// capacity is not a power of two from 256 to 2^24. Otherwise returns `BadStart` if the start is not a multiple of the
/// capacity, or is above 2^62.
pub fn check_board(capacity: u32, start: u64) -> Result<(), MakeFault>
    ensures refused { IsRefusedBy (make_refusal_of (is_board_capacity capacity) capacity start) result }
    ensures lawful { OnOk result (IsBoardCapacity capacity) }
    ensures start { OnOk result ((start % capacity ≡ 0) × (start ≤ max_position)) }
{
    check_start(is_board_capacity(capacity), capacity, start)
}
