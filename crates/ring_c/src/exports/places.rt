//! Where receivers are, how they were lapped last, and how large rings and boards are.
// Written by c/bindings from felter.h and exports.txt. To change this file, change them and run c/bindings.
ghost use Rattle.ring_c.specs.Told.{sizes, SaysSizes, Yields};
ghost use Rattle.ring_handles.specs.Boards.{lap_out, SaysLap, SaysPlace};
ghost use Rattle.ring_handles.specs.Kinds.{a_raw_receiver, a_receiver};
ghost use Rattle.std.specs.Prelude.{◌≡◌, pos};

use crate::work_on::work_on;
use ring_handles::Handle;
use std::alloc::Global;

/// Writes the position at which the next call looks for a message.
#[unsafe(no_mangle)]
pub extern "C" fn felter_receiver_place(
    alloc: Global,
    receiver: &mut Handle,
    place: &mut u64,
) -> i32
    ensures { Yields a_receiver (λ _ told. SaysPlace told) place.old place.new receiver.old.held receiver.new.held
        result }
{
    work_on!(receiver, alloc, Receiver(side) => side.place(place))
}

/// Writes the place at which the receiver was lapped last, and the intent that showed the lap. The intent is the
/// position up to which the transmitter had begun to write. Right after FELTER_LAPPED, felter_receiver_place minus this
/// place is the number of bytes that the receiver missed. Codes: FELTER_NO_MESSAGE if the receiver was never lapped.
#[unsafe(no_mangle)]
pub extern "C" fn felter_receiver_lap(
    alloc: Global,
    receiver: &mut Handle,
    place: &mut u64,
    intent: &mut u64,
) -> i32
    ensures { Yields a_receiver SaysLap (lap_out place.old intent.old) (lap_out place.new intent.new) receiver.old.held
        receiver.new.held result }
{
    work_on!(receiver, alloc, Receiver(side) => side.lap(place, intent))
}

/// Writes the position at which the next call looks for a record.
#[unsafe(no_mangle)]
pub extern "C" fn felter_raw_receiver_place(
    alloc: Global,
    receiver: &mut Handle,
    place: &mut u64,
) -> i32
    ensures { Yields a_raw_receiver (λ _ told. SaysPlace told) place.old place.new receiver.old.held receiver.new.held
        result }
{
    work_on!(receiver, alloc, RawReceiver(side) => side.place(place))
}

/// Writes the place at which the raw receiver was lapped last, and the intent that showed the lap, as
/// felter_receiver_lap does for a receiver. Codes: FELTER_NO_MESSAGE if the raw receiver was never lapped.
#[unsafe(no_mangle)]
pub extern "C" fn felter_raw_receiver_lap(
    alloc: Global,
    receiver: &mut Handle,
    place: &mut u64,
    intent: &mut u64,
) -> i32
    ensures { Yields a_raw_receiver SaysLap (lap_out place.old intent.old) (lap_out place.new intent.new)
        receiver.old.held receiver.new.held result }
{
    work_on!(receiver, alloc, RawReceiver(side) => side.lap(place, intent))
}

/// Writes the capacity of the ring or board of a handle, and the length of its longest message. This length is an
/// eighth of the capacity. The handle is a producer, a consumer, a transmitter, or a receiver of either kind:
/// felter_capacity(&producer.handle, ..).
#[unsafe(no_mangle)]
pub extern "C" fn felter_capacity(
    alloc: Global,
    handle: &mut Handle,
    capacity: &mut u32,
    longest: &mut u32,
) -> i32
    ensures { SaysSizes (sizes capacity.old longest.old) (sizes capacity.new longest.new) handle.old.held
        handle.new.held result }
{
    match handle.take(alloc) {
        Some(held) => {
            let code = match held.capacity() {
                Some(bytes) => {
                    *capacity = bytes;
                    *longest = bytes / 8;
                    ring_handles::code::DONE
                }
                None => ring_handles::code::WRONG_HANDLE,
            };
            handle.put(held);
            code
        }
        None => ring_handles::code::NO_HANDLE,
    }
}

/// Returns the version of the library that the program runs with: 10,000 times the major number, plus 100 times the
/// minor number, plus the patch number. The result is not a code.
#[unsafe(no_mangle)]
pub extern "C" fn felter_version() -> i32
    ensures { result ≡ pos 100 }
{
    100
}
