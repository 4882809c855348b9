//! What counters are asked of their records, and how a value is raised.
// Written by c/bindings from felter.h and exports.txt. To change this file, change them and run c/bindings.
ghost use Rattle.ring_c.specs.Told.{Yields};
ghost use Rattle.ring_counters.specs.{Counter.deadline_of, Counter.state_of, Registry.counter_at};
ghost use Rattle.ring_handles.specs.{Counting.Asks, Counting.TellsOfRecord, Counting.WasProposed, Kinds.some_counters};

use crate::work_on::work_on;
use ring_handles::{Handle, asking};
use std::alloc::Global;

/// Raises the counter's value to `value` if the old value was less. *raised is 1 if the value was raised, and otherwise
/// 0. Codes: FELTER_BAD_ID, FELTER_NOT_ALLOCATED.
#[unsafe(no_mangle)]
pub extern "C" fn felter_counter_propose_max(
    alloc: Global,
    counters: &mut Handle,
    id: u32,
    value: i64,
    raised: &mut u32,
) -> i32
    ensures { Yields some_counters (WasProposed id value) raised.old raised.new counters.old.held counters.new.held
        result }
{
    work_on!(counters, alloc, Counters(side) => side.propose_max(id, value, raised))
}

/// Writes the state of an id. The state is 0 if the id was never used, 1 if its counter is in use, and -1 if its
/// counter was freed. Codes: FELTER_BAD_ID.
#[unsafe(no_mangle)]
pub extern "C" fn felter_counter_state(
    alloc: Global,
    counters: &mut Handle,
    id: u32,
    state: &mut i32,
) -> i32
    ensures { Yields some_counters (Asks (TellsOfRecord (λ r. state_of (counter_at r id).metadata.status) id)) state.old
        state.new counters.old.held counters.new.held result }
{
    work_on!(counters, alloc, Counters(side) => asking::state(side.counters(), id, state))
}

/// Writes the moment from which an id may be allocated again. This moment is 0 if the id was never used, and 2^63 - 1
/// if its counter is in use. Codes: FELTER_BAD_ID.
#[unsafe(no_mangle)]
pub extern "C" fn felter_counter_deadline(
    alloc: Global,
    counters: &mut Handle,
    id: u32,
    deadline: &mut u64,
) -> i32
    ensures { Yields some_counters (Asks (TellsOfRecord (λ r. deadline_of (counter_at r id).metadata.status) id))
        deadline.old deadline.new counters.old.held counters.new.held result }
{
    work_on!(counters, alloc, Counters(side) => asking::deadline(side.counters(), id, deadline))
}
