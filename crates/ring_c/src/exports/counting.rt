//! What a handle of counters does.
// Written by c/bindings from felter.h and exports.txt. To change this file, change them and run c/bindings.
ghost use Rattle.ring_c.specs.Told.{Uses, Yields};
ghost use Rattle.ring_counters.specs.Registry.{counter_at};
ghost use Rattle.ring_handles.specs.Counting.{label_out, Asked, Asks, OwnerClosed, TellsAvailable, TellsCount};
ghost use Rattle.ring_handles.specs.Counting.{TellsKey, TellsLabel, WasAdded, WasAllocated, WasFound, WasFreed, WasSet};
ghost use Rattle.ring_handles.specs.Kinds.{some_counters};

use crate::work_on::work_on;
use ring_handles::{Handle, Wanted, asking};
use std::alloc::Global;

/// Allocates a counter with the value 0 at the moment `now`, and writes its id. Codes: FELTER_KEY_TOO_LONG,
/// FELTER_LABEL_TOO_LONG, FELTER_LABEL_NOT_ASCII, FELTER_NO_FREE_COUNTER.
#[unsafe(no_mangle)]
pub extern "C" fn felter_counter_allocate(
    alloc: Global,
    counters: &mut Handle,
    now: u64,
    type_id: i32,
    key: &[u8],
    label: &[u8],
    registration: u64,
    id: &mut u32,
) -> i32
    ensures { Yields some_counters (WasAllocated now type_id key.now label.now registration 0) id.old id.new
        counters.old.held counters.new.held result }
{
    let wanted = Wanted {
        now,
        type_id,
        key,
        label,
        registration,
        owner: 0,
    };
    work_on!(counters, alloc, Counters(side) => side.allocate(wanted, id))
}

/// Allocates a counter with an owner. Otherwise the call is the same as felter_counter_allocate. The owner 0 means that
/// the counter has no owner.
#[unsafe(no_mangle)]
pub extern "C" fn felter_counter_allocate_owned(
    alloc: Global,
    counters: &mut Handle,
    now: u64,
    type_id: i32,
    key: &[u8],
    label: &[u8],
    registration: u64,
    owner: u64,
    id: &mut u32,
) -> i32
    ensures { Yields some_counters (WasAllocated now type_id key.now label.now registration owner) id.old id.new
        counters.old.held counters.new.held result }
{
    let wanted = Wanted {
        now,
        type_id,
        key,
        label,
        registration,
        owner,
    };
    work_on!(counters, alloc, Counters(side) => side.allocate(wanted, id))
}

/// Sets the counter's value. Codes: FELTER_BAD_ID, FELTER_NOT_ALLOCATED.
#[unsafe(no_mangle)]
pub extern "C" fn felter_counter_set(
    alloc: Global,
    counters: &mut Handle,
    id: u32,
    value: i64,
) -> i32
    ensures { Uses some_counters (WasSet id value) counters.old.held counters.new.held result }
{
    work_on!(counters, alloc, Counters(side) => side.set(id, value))
}

/// Adds `delta` to the value, and writes the value before the addition. A sum that does not fit in 64 bits wraps.
/// Codes: FELTER_BAD_ID, FELTER_NOT_ALLOCATED.
#[unsafe(no_mangle)]
pub extern "C" fn felter_counter_add(
    alloc: Global,
    counters: &mut Handle,
    id: u32,
    delta: i64,
    before: &mut i64,
) -> i32
    ensures { Yields some_counters (WasAdded id delta) before.old before.new counters.old.held counters.new.held
        result }
{
    work_on!(counters, alloc, Counters(side) => side.add(id, delta, before))
}

/// Frees a counter at the moment `now`. Codes: FELTER_BAD_ID, FELTER_NOT_ALLOCATED, FELTER_BAD_MOMENT.
#[unsafe(no_mangle)]
pub extern "C" fn felter_counter_free(
    alloc: Global,
    counters: &mut Handle,
    now: u64,
    id: u32,
) -> i32
    ensures { Uses some_counters (WasFreed now id) counters.old.held counters.new.held result }
{
    work_on!(counters, alloc, Counters(side) => side.free(now, id))
}

/// Frees each counter of an owner, and writes how many counters were freed. Codes: FELTER_BAD_OWNER, FELTER_BAD_MOMENT.
#[unsafe(no_mangle)]
pub extern "C" fn felter_counters_close_owner(
    alloc: Global,
    counters: &mut Handle,
    now: u64,
    owner: u64,
    freed: &mut u32,
) -> i32
    ensures { Yields some_counters (OwnerClosed now owner) freed.old freed.new counters.old.held counters.new.held
        result }
{
    work_on!(counters, alloc, Counters(side) => side.close_owner(now, owner, freed))
}

/// Finds the lowest id in use that has this type id and registration id. Codes: FELTER_NOT_ALLOCATED if there is no
/// such id.
#[unsafe(no_mangle)]
pub extern "C" fn felter_counter_find(
    alloc: Global,
    counters: &mut Handle,
    type_id: i32,
    registration: u64,
    id: &mut u32,
) -> i32
    ensures { Yields some_counters (WasFound type_id registration) id.old id.new counters.old.held counters.new.held
        result }
{
    work_on!(counters, alloc, Counters(side) => asking::find(side.counters(), type_id, registration, id))
}

/// Writes the number of ids, whether they are in use or not. To list the counters in use, call felter_counter_type_id
/// with each id. The call returns FELTER_NOT_ALLOCATED if the id is not in use.
#[unsafe(no_mangle)]
pub extern "C" fn felter_counters_count(
    alloc: Global,
    counters: &mut Handle,
    count: &mut u32,
) -> i32
    ensures { Yields some_counters (Asks TellsCount) count.old count.new counters.old.held counters.new.held result }
{
    work_on!(counters, alloc, Counters(side) => asking::count(side.counters(), count))
}

/// Writes the number of counters that can be allocated at the moment `now`. A freed id is counted only if `now` is at
/// least the moment that felter_counter_deadline writes for the id.
#[unsafe(no_mangle)]
pub extern "C" fn felter_counters_available(
    alloc: Global,
    counters: &mut Handle,
    now: u64,
    available: &mut u32,
) -> i32
    ensures { Yields some_counters (Asks (TellsAvailable now)) available.old available.new counters.old.held
        counters.new.held result }
{
    work_on!(counters, alloc, Counters(side) => asking::available(side.counters(), now, available))
}

/// Writes the counter's value. Codes: FELTER_BAD_ID, FELTER_NOT_ALLOCATED.
#[unsafe(no_mangle)]
pub extern "C" fn felter_counter_value(
    alloc: Global,
    counters: &mut Handle,
    id: u32,
    value: &mut i64,
) -> i32
    ensures { Yields some_counters (Asked (λ r. (counter_at r id).values.value) id) value.old value.new
        counters.old.held counters.new.held result }
{
    work_on!(counters, alloc, Counters(side) => asking::value(side.counters(), id, value))
}

/// Writes the counter's type id. Codes: FELTER_BAD_ID, FELTER_NOT_ALLOCATED.
#[unsafe(no_mangle)]
pub extern "C" fn felter_counter_type_id(
    alloc: Global,
    counters: &mut Handle,
    id: u32,
    type_id: &mut i32,
) -> i32
    ensures { Yields some_counters (Asked (λ r. (counter_at r id).metadata.type_id) id) type_id.old type_id.new
        counters.old.held counters.new.held result }
{
    work_on!(counters, alloc, Counters(side) => asking::type_id(side.counters(), id, type_id))
}

/// Writes the counter's registration id. Codes: FELTER_BAD_ID, FELTER_NOT_ALLOCATED.
#[unsafe(no_mangle)]
pub extern "C" fn felter_counter_registration(
    alloc: Global,
    counters: &mut Handle,
    id: u32,
    registration: &mut u64,
) -> i32
    ensures { Yields some_counters (Asked (λ r. (counter_at r id).values.registration) id) registration.old
        registration.new counters.old.held counters.new.held result }
{
    work_on!(counters, alloc, Counters(side) => asking::registration(side.counters(), id, registration))
}

/// Writes the counter's owner, which is 0 if the counter has no owner. Codes: FELTER_BAD_ID, FELTER_NOT_ALLOCATED.
#[unsafe(no_mangle)]
pub extern "C" fn felter_counter_owner(
    alloc: Global,
    counters: &mut Handle,
    id: u32,
    owner: &mut u64,
) -> i32
    ensures { Yields some_counters (Asked (λ r. (counter_at r id).values.owner) id) owner.old owner.new
        counters.old.held counters.new.held result }
{
    work_on!(counters, alloc, Counters(side) => asking::owner(side.counters(), id, owner))
}

/// Copies the label, which has at most 380 bytes, and writes its length. No 0 is put at the end of the label. Codes:
/// FELTER_BAD_ID, FELTER_NOT_ALLOCATED, and FELTER_SHORT_BUFFER if the room is less than the length. After
/// FELTER_SHORT_BUFFER the length is written too.
#[unsafe(no_mangle)]
pub extern "C" fn felter_counter_label(
    alloc: Global,
    counters: &mut Handle,
    id: u32,
    len: &mut usize,
    buffer: &mut [u8],
) -> i32
    ensures { Yields some_counters (Asks (TellsLabel id)) (label_out len.old buffer.old) (label_out len.new buffer.new)
        counters.old.held counters.new.held result }
{
    work_on!(counters, alloc, Counters(side) => asking::label(side.counters(), id, len, buffer))
}

/// Copies the key, which is filled up to 112 bytes with zeros. Codes: FELTER_BAD_ID, FELTER_NOT_ALLOCATED, and
/// FELTER_SHORT_BUFFER if the room is less than 112 bytes.
#[unsafe(no_mangle)]
pub extern "C" fn felter_counter_key(
    alloc: Global,
    counters: &mut Handle,
    id: u32,
    buffer: &mut [u8],
) -> i32
    ensures { Yields some_counters (Asks (TellsKey id)) buffer.old buffer.new counters.old.held counters.new.held
        result }
{
    work_on!(counters, alloc, Counters(side) => asking::key(side.counters(), id, buffer))
}
