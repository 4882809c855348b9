//! What is asked of counters, be they those of a handle or a conductor's.
ghost use Rattle.std.specs.Prelude.{◌≡◌};
ghost use Rattle.ring_counters.specs.{Codes.id_code, Counter.deadline_of, Counter.state_of, Registry.counter_at};
ghost use Rattle.ring_handles.specs.Counting.{label_out, Tells, TellsAvailable, TellsCount, TellsFound, TellsKey, TellsLabel};
ghost use Rattle.ring_handles.specs.Counting.{TellsOf, TellsOfRecord};

use crate::code::{DONE, NOT_ALLOCATED, SHORT_BUFFER};
use crate::copying::copy_at;
use ring_counters::{CountersManager, IdFault};
use ring_layout::counter_descriptor::{MAX_KEY_LENGTH, MAX_LABEL_LENGTH};

/// Reports what a call returned, and returns the code: 0, or the number of the refusal, with what is out as it was.
pub(crate) fn tell<T: Copy>(answer: Result<T, IdFault>, out: &mut T) -> i32
    ensures { Tells id_code answer out.old out.new result }
{
    match answer {
        Ok(told) => {
            *out = told;
            DONE
        }
        Err(fault) => fault.code(),
    }
}

/// Finds the lowest id in use of a type and a registration id.
pub fn find(manager: &CountersManager, type_id: i32, registration: u64, id: &mut u32) -> i32
    ensures { TellsFound type_id registration manager.now id.old id.new result }
{
    match manager.find(type_id, registration) {
        Some(found) => {
            *id = found;
            DONE
        }
        None => NOT_ALLOCATED,
    }
}

/// Reports how many ids there are.
pub fn count(manager: &CountersManager, count: &mut u32) -> i32
    ensures { TellsCount manager.now count.old count.new result }
{
    *count = manager.count();
    DONE
}

/// Reports how many counters can be allocated at a moment.
pub fn available(manager: &CountersManager, now: u64, available: &mut u32) -> i32
    ensures { TellsAvailable now manager.now available.old available.new result }
{
    *available = manager.available(now);
    DONE
}

/// Reports a counter's value.
pub fn value(manager: &CountersManager, id: u32, value: &mut i64) -> i32
    ensures { TellsOf (λ r. (counter_at r id).values.value) id manager.now value.old value.new result }
{
    tell(manager.value(id), value)
}

/// Reports a counter's type.
pub fn type_id(manager: &CountersManager, id: u32, type_id: &mut i32) -> i32
    ensures { TellsOf (λ r. (counter_at r id).metadata.type_id) id manager.now type_id.old type_id.new result }
{
    tell(manager.type_id(id), type_id)
}

/// Reports a counter's registration id.
pub fn registration(manager: &CountersManager, id: u32, registration: &mut u64) -> i32
    ensures { TellsOf (λ r. (counter_at r id).values.registration) id manager.now registration.old registration.new
        result }
{
    tell(manager.registration(id), registration)
}

/// Reports a counter's owner, 0 for none.
pub fn owner(manager: &CountersManager, id: u32, owner: &mut u64) -> i32
    ensures { TellsOf (λ r. (counter_at r id).values.owner) id manager.now owner.old owner.new result }
{
    tell(manager.owner(id), owner)
}

/// Copies a counter's label to the front of a buffer, and reports its length.
pub fn label(manager: &CountersManager, id: u32, len: &mut usize, buffer: &mut [u8]) -> i32
    ensures { TellsLabel id manager.now (label_out len.old buffer.old) (label_out len.new buffer.new) result }
{
    let mut label = [0; MAX_LABEL_LENGTH];
    match manager.label_into(id, &mut label) {
        Ok(found) => {
            *len = found;
            if buffer.len() < found {
                return SHORT_BUFFER;
            }
            copy_at(buffer, 0, &label[..found]);
            DONE
        }
        Err(fault) => fault.code(),
    }
}

/// Copies a counter's key to the front of a buffer.
pub fn key(manager: &CountersManager, id: u32, buffer: &mut [u8]) -> i32
    ensures { TellsKey id manager.now buffer.old buffer.new result }
{
    let mut key = [0; MAX_KEY_LENGTH];
    match manager.key_into(id, &mut key) {
        Ok(()) => {
            if buffer.len() < key.len() {
                return SHORT_BUFFER;
            }
            copy_at(buffer, 0, &key);
            DONE
        }
        Err(fault) => fault.code(),
    }
}

/// Reports the state of a record: 0 if it was never used, 1 if the counter is in use, -1 if it was freed.
pub fn state(manager: &CountersManager, id: u32, state: &mut i32) -> i32
    ensures { TellsOfRecord (λ r. state_of (counter_at r id).metadata.status) id manager.now state.old state.new
        result }
{
    tell(manager.state(id), state)
}

/// Reports the moment from which an id may be allocated again.
pub fn deadline(manager: &CountersManager, id: u32, deadline: &mut u64) -> i32
    ensures { TellsOfRecord (λ r. deadline_of (counter_at r id).metadata.status) id manager.now deadline.old deadline.new
        result }
{
    tell(manager.deadline(id), deadline)
}
