//! What a conductor's counters are asked.
// Written by c/bindings from felter.h and exports.txt. To change this file, change them and run c/bindings.
ghost use Rattle.ring_c.specs.Told.{Yields};
ghost use Rattle.ring_counters.specs.{Counter.deadline_of, Counter.state_of, Registry.counter_at};
ghost use Rattle.ring_handles.specs.{Conducting.AsksIts, Counting.TellsOfRecord, Kinds.a_conductor};
ghost use Rattle.ring_handles.specs.Counting.{label_out, TellsCount, TellsFound, TellsKey, TellsLabel, TellsOf};

use crate::work_on::work_on;
use ring_handles::{Handle, asking};
use std::alloc::Global;

/// Finds the lowest id in use that has this type id and registration id, as felter_counter_find does.
#[unsafe(no_mangle)]
pub extern "C" fn felter_conductor_find(
    alloc: Global,
    conductor: &mut Handle,
    type_id: i32,
    registration: u64,
    id: &mut u32,
) -> i32
    ensures { Yields a_conductor (AsksIts (TellsFound type_id registration)) id.old id.new conductor.old.held
        conductor.new.held result }
{
    work_on!(conductor, alloc, Conductor(side) => asking::find(side.counters(), type_id, registration, id))
}

/// Writes the number of ids, whether they are in use or not, as felter_counters_count does.
#[unsafe(no_mangle)]
pub extern "C" fn felter_conductor_count(
    alloc: Global,
    conductor: &mut Handle,
    count: &mut u32,
) -> i32
    ensures { Yields a_conductor (AsksIts TellsCount) count.old count.new conductor.old.held conductor.new.held result }
{
    work_on!(conductor, alloc, Conductor(side) => asking::count(side.counters(), count))
}

/// Copies the label of a counter, and writes its length, as felter_counter_label does.
#[unsafe(no_mangle)]
pub extern "C" fn felter_conductor_label(
    alloc: Global,
    conductor: &mut Handle,
    id: u32,
    len: &mut usize,
    buffer: &mut [u8],
) -> i32
    ensures { Yields a_conductor (AsksIts (TellsLabel id)) (label_out len.old buffer.old) (label_out len.new buffer.new)
        conductor.old.held conductor.new.held result }
{
    work_on!(conductor, alloc, Conductor(side) => asking::label(side.counters(), id, len, buffer))
}

/// Copies the key of a counter, as felter_counter_key does.
#[unsafe(no_mangle)]
pub extern "C" fn felter_conductor_key(
    alloc: Global,
    conductor: &mut Handle,
    id: u32,
    buffer: &mut [u8],
) -> i32
    ensures { Yields a_conductor (AsksIts (TellsKey id)) buffer.old buffer.new conductor.old.held conductor.new.held
        result }
{
    work_on!(conductor, alloc, Conductor(side) => asking::key(side.counters(), id, buffer))
}

/// Writes the value of a counter, as felter_counter_value does.
#[unsafe(no_mangle)]
pub extern "C" fn felter_conductor_value(
    alloc: Global,
    conductor: &mut Handle,
    id: u32,
    value: &mut i64,
) -> i32
    ensures { Yields a_conductor (AsksIts (TellsOf (λ r. (counter_at r id).values.value) id)) value.old value.new
        conductor.old.held conductor.new.held result }
{
    work_on!(conductor, alloc, Conductor(side) => asking::value(side.counters(), id, value))
}

/// Writes the type id of a counter, as felter_counter_type_id does.
#[unsafe(no_mangle)]
pub extern "C" fn felter_conductor_type_id(
    alloc: Global,
    conductor: &mut Handle,
    id: u32,
    type_id: &mut i32,
) -> i32
    ensures { Yields a_conductor (AsksIts (TellsOf (λ r. (counter_at r id).metadata.type_id) id)) type_id.old
        type_id.new conductor.old.held conductor.new.held result }
{
    work_on!(conductor, alloc, Conductor(side) => asking::type_id(side.counters(), id, type_id))
}

/// Writes the registration id of a counter, as felter_counter_registration does.
#[unsafe(no_mangle)]
pub extern "C" fn felter_conductor_registration(
    alloc: Global,
    conductor: &mut Handle,
    id: u32,
    registration: &mut u64,
) -> i32
    ensures { Yields a_conductor (AsksIts (TellsOf (λ r. (counter_at r id).values.registration) id)) registration.old
        registration.new conductor.old.held conductor.new.held result }
{
    work_on!(conductor, alloc, Conductor(side) => asking::registration(side.counters(), id, registration))
}

/// Writes the owner of a counter, as felter_counter_owner does.
#[unsafe(no_mangle)]
pub extern "C" fn felter_conductor_owner(
    alloc: Global,
    conductor: &mut Handle,
    id: u32,
    owner: &mut u64,
) -> i32
    ensures { Yields a_conductor (AsksIts (TellsOf (λ r. (counter_at r id).values.owner) id)) owner.old owner.new
        conductor.old.held conductor.new.held result }
{
    work_on!(conductor, alloc, Conductor(side) => asking::owner(side.counters(), id, owner))
}

/// Writes the state of an id, as felter_counter_state does.
#[unsafe(no_mangle)]
pub extern "C" fn felter_conductor_state(
    alloc: Global,
    conductor: &mut Handle,
    id: u32,
    state: &mut i32,
) -> i32
    ensures { Yields a_conductor (AsksIts (TellsOfRecord (λ r. state_of (counter_at r id).metadata.status) id))
        state.old state.new conductor.old.held conductor.new.held result }
{
    work_on!(conductor, alloc, Conductor(side) => asking::state(side.counters(), id, state))
}

/// Writes the moment from which an id may be allocated again, as felter_counter_deadline does.
#[unsafe(no_mangle)]
pub extern "C" fn felter_conductor_deadline(
    alloc: Global,
    conductor: &mut Handle,
    id: u32,
    deadline: &mut u64,
) -> i32
    ensures { Yields a_conductor (AsksIts (TellsOfRecord (λ r. deadline_of (counter_at r id).metadata.status) id))
        deadline.old deadline.new conductor.old.held conductor.new.held result }
{
    work_on!(conductor, alloc, Conductor(side) => asking::deadline(side.counters(), id, deadline))
}
