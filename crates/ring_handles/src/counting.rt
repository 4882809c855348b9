//! What a handle's counters do.
ghost use Rattle.std.specs.Prelude.{◌≡◌, pos, negsuc};
ghost use Rattle.ring_counters.specs.Codes.{allocate_code, id_code};
ghost use Rattle.ring_handles.specs.Counting.{result_code, OwnerClosed, Tells, TellsSet, WasAdded, WasAllocated, WasCompared};
ghost use Rattle.ring_handles.specs.Counting.{WasFreed, WasProposed, WasReplaced, WasSet};

use crate::asking::tell;
use crate::code::{BAD_MOMENT, BAD_OWNER, DONE};
use crate::counters::CountersSide;
use ring_counters::{AllocateRefused, CountersManager, IdFault};

/// The greatest moment, in milliseconds.
pub(crate) const LAST_MOMENT: u64 = 1 << 62;

/// What a counter is allocated with.
#[derive(Drop)]
pub struct Wanted<'a> {
    pub now: u64,
    pub type_id: i32,
    pub key: &'a [u8],
    pub label: &'a [u8],
    pub registration: u64,
    pub owner: u64,
}

/// The code of what a call returned: 0, or the number of the refusal.
fn code_of(answer: Result<(), IdFault>) -> i32
    ensures { result ≡ result_code id_code answer }
{
    match answer {
        Ok(()) => DONE,
        Err(fault) => fault.code(),
    }
}

/// Reports 1 if a call set a value, or otherwise 0, and returns the code.
fn tell_set(answer: Result<bool, IdFault>, was_set: &mut u32) -> i32
    ensures { TellsSet answer was_set.old was_set.new result }
{
    match answer {
        Ok(it_was) => {
            *was_set = u32::from(it_was);
            DONE
        }
        Err(fault) => fault.code(),
    }
}

/// Reports the id of a counter that was allocated, and returns the code.
fn tell_id(made: Result<u32, AllocateRefused>, id: &mut u32) -> i32
    ensures { Tells allocate_code made id.old id.new result }
{
    match made {
        Ok(allocated) => {
            *id = allocated;
            DONE
        }
        Err(refused) => refused.code(),
    }
}

impl CountersSide {
    /// Returns the manager, which is asked by the functions of `asking`.
    pub fn counters(&self) -> &CountersManager
        ensures { result.now ≡ self.now.end.manager }
    {
        self.end.counters()
    }

    /// Allocates a counter, and reports its id.
    pub fn allocate(&mut self, wanted: Wanted<'_>, id: &mut u32) -> i32
        ensures { WasAllocated wanted.entry.now wanted.entry.type_id wanted.entry.key.now wanted.entry.label.now
            wanted.entry.registration wanted.entry.owner id.old id.new self.old self.new result }
    {
        let made = self.end.allocate_owned(
            wanted.now,
            wanted.type_id,
            wanted.key,
            wanted.label,
            wanted.registration,
            wanted.owner,
        );
        tell_id(made, id)
    }

    /// Sets a counter's value.
    pub fn set(&mut self, id: u32, value: i64) -> i32
        ensures { WasSet id value self.old self.new result }
    {
        code_of(self.end.set(id, value))
    }

    /// Adds to a counter's value, and reports the value before.
    pub fn add(&mut self, id: u32, delta: i64, before: &mut i64) -> i32
        ensures { WasAdded id delta before.old before.new self.old self.new result }
    {
        tell(self.end.add(id, delta), before)
    }

    /// Adds 1 to a counter's value, and reports the value before.
    pub fn increment(&mut self, id: u32, before: &mut i64) -> i32
        ensures { WasAdded id (pos 1) before.old before.new self.old self.new result }
    {
        tell(self.end.increment(id), before)
    }

    /// Subtracts 1 from a counter's value, and reports the value before.
    pub fn decrement(&mut self, id: u32, before: &mut i64) -> i32
        ensures { WasAdded id (negsuc 0) before.old before.new self.old self.new result }
    {
        tell(self.end.decrement(id), before)
    }

    /// Sets a counter's value, and reports the value before.
    pub fn get_and_set(&mut self, id: u32, value: i64, before: &mut i64) -> i32
        ensures { WasReplaced id value before.old before.new self.old self.new result }
    {
        tell(self.end.get_and_set(id, value), before)
    }

    /// Frees a counter.
    pub fn free(&mut self, now: u64, id: u32) -> i32
        ensures { WasFreed now id self.old self.new result }
    {
        if now > LAST_MOMENT {
            return BAD_MOMENT;
        }
        code_of(self.end.free(now, id))
    }

    /// Frees each counter of an owner, and reports how many.
    pub fn close_owner(&mut self, now: u64, owner: u64, freed: &mut u32) -> i32
        ensures { OwnerClosed now owner freed.old freed.new self.old self.new result }
    {
        if now > LAST_MOMENT {
            return BAD_MOMENT;
        }
        match self.end.close_owner(now, owner) {
            Ok(count) => {
                *freed = count;
                DONE
            }
            Err(_) => BAD_OWNER,
        }
    }

    /// Raises a counter's value to this one if it is below it, and reports 1, or otherwise 0.
    pub fn propose_max(&mut self, id: u32, value: i64, raised: &mut u32) -> i32
        ensures { WasProposed id value raised.old raised.new self.old self.new result }
    {
        tell_set(self.end.propose_max(id, value), raised)
    }

    /// Sets a counter's value if it is the expected one, and reports 1, or otherwise 0.
    pub fn compare_and_set(&mut self, id: u32, expected: i64, value: i64, was_set: &mut u32) -> i32
        ensures { WasCompared id expected value was_set.old was_set.new self.old self.new result }
    {
        tell_set(self.end.compare_and_set(id, expected, value), was_set)
    }
}
