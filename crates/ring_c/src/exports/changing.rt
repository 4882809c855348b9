//! How a handle of counters changes a value, and puts out what it was.
// Written by c/bindings from felter.h and exports.txt. To change this file, change them and run c/bindings.
ghost use Rattle.ring_c.specs.Told.{Yields};
ghost use Rattle.ring_handles.specs.Counting.{WasAdded, WasCompared, WasReplaced};
ghost use Rattle.ring_handles.specs.Kinds.{some_counters};
ghost use Rattle.std.specs.Prelude.{pos, negsuc};

use crate::work_on::work_on;
use ring_handles::Handle;
use std::alloc::Global;

/// Adds 1 to the value as felter_counter_add does, with the same codes.
#[unsafe(no_mangle)]
pub extern "C" fn felter_counter_increment(
    alloc: Global,
    counters: &mut Handle,
    id: u32,
    before: &mut i64,
) -> i32
    ensures { Yields some_counters (WasAdded id (pos 1)) before.old before.new counters.old.held counters.new.held
        result }
{
    work_on!(counters, alloc, Counters(side) => side.increment(id, before))
}

/// Adds -1 to the value as felter_counter_add does, with the same codes.
#[unsafe(no_mangle)]
pub extern "C" fn felter_counter_decrement(
    alloc: Global,
    counters: &mut Handle,
    id: u32,
    before: &mut i64,
) -> i32
    ensures { Yields some_counters (WasAdded id (negsuc 0)) before.old before.new counters.old.held counters.new.held
        result }
{
    work_on!(counters, alloc, Counters(side) => side.decrement(id, before))
}

/// Sets the value, and writes the value that the counter had before. Codes: FELTER_BAD_ID, FELTER_NOT_ALLOCATED.
#[unsafe(no_mangle)]
pub extern "C" fn felter_counter_get_and_set(
    alloc: Global,
    counters: &mut Handle,
    id: u32,
    value: i64,
    before: &mut i64,
) -> i32
    ensures { Yields some_counters (WasReplaced id value) before.old before.new counters.old.held counters.new.held
        result }
{
    work_on!(counters, alloc, Counters(side) => side.get_and_set(id, value, before))
}

/// Sets the counter's value to `value` if the old value is `expected`. *was_set is 1 if the value was set, and
/// otherwise 0. Codes: FELTER_BAD_ID, FELTER_NOT_ALLOCATED.
#[unsafe(no_mangle)]
pub extern "C" fn felter_counter_compare_and_set(
    alloc: Global,
    counters: &mut Handle,
    id: u32,
    expected: i64,
    value: i64,
    was_set: &mut u32,
) -> i32
    ensures { Yields some_counters (WasCompared id expected value) was_set.old was_set.new counters.old.held
        counters.new.held result }
{
    work_on!(counters, alloc, Counters(side) => side.compare_and_set(id, expected, value, was_set))
}
