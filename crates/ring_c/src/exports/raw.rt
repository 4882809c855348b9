//! What handles of raw receivers do.
// Written by c/bindings from felter.h and exports.txt. To change this file, change them and run c/bindings.
ghost use Rattle.ring_c.specs.Told.{GivesInto, Uses, Yields};
ghost use Rattle.ring_handles.specs.{Boards.seen, Boards.SaysLapped, Kinds.a_raw_receiver, Kinds.a_transmitter};
ghost use Rattle.ring_handles.specs.Raw.{BodyLoaded, IsUnwatched, NextSeen, ReturnsOut, SubscribesRaw, Tested};

use crate::work_on::{make_into, work_on};
use ring_handles::Handle;
use std::alloc::Global;

/// Makes a raw receiver, which returns each record without its body. Otherwise the call is the same as
/// felter_subscribe.
#[unsafe(no_mangle)]
pub extern "C" fn felter_subscribe_raw(
    alloc: Global,
    transmitter: &mut Handle,
    receiver: &mut Handle,
) -> i32
    ensures { GivesInto a_transmitter a_raw_receiver SubscribesRaw IsUnwatched transmitter.old.held receiver.old.held
        transmitter.new.held receiver.new.held result }
{
    make_into!(transmitter, alloc, Transmitter(side) => side.subscribe_raw(), receiver, RawReceiver)
}

/// Writes the type id of the next record and the length of its body, and moves past the record. No byte of the body is
/// copied. Codes: FELTER_NO_MESSAGE, and FELTER_LAPPED as for felter_receive.
#[unsafe(no_mangle)]
pub extern "C" fn felter_receive_next(
    alloc: Global,
    receiver: &mut Handle,
    type_id: &mut i32,
    len: &mut usize,
    lapped: &mut u64,
) -> i32
    ensures copied { Yields a_raw_receiver (λ _ told. ReturnsOut told) (seen type_id.old len.old lapped.old)
        (seen type_id.new len.new lapped.new) receiver.old.held receiver.new.held result }
    ensures does { Yields a_raw_receiver NextSeen (seen type_id.old len.old lapped.old)
        (seen type_id.new len.new lapped.new) receiver.old.held receiver.new.held result }
{
    work_on!(receiver, alloc, RawReceiver(side) => side.receive_next(type_id, len, lapped))
}

/// Copies the body of the record that felter_receive_next returned last to the front of a buffer. The bytes are certain
/// to be those of this record only if felter_validate then returns FELTER_OK. Codes: FELTER_NO_MESSAGE if no record was
/// returned yet, FELTER_SHORT_BUFFER if the body is longer than the room.
#[unsafe(no_mangle)]
pub extern "C" fn felter_load_body(alloc: Global, receiver: &mut Handle, buffer: &mut [u8]) -> i32
    ensures { Yields a_raw_receiver BodyLoaded buffer.old buffer.new receiver.old.held receiver.new.held result }
{
    work_on!(receiver, alloc, RawReceiver(side) => side.load_body(buffer))
}

/// Tests whether the record that felter_receive_next returned last was overwritten. If the call returns FELTER_OK, each
/// copy of the body that was made before is the body that was transmitted. Codes: FELTER_LAPPED if the record may be
/// overwritten, FELTER_NO_MESSAGE if no record was returned yet.
#[unsafe(no_mangle)]
pub extern "C" fn felter_validate(alloc: Global, receiver: &mut Handle) -> i32
    ensures { Uses a_raw_receiver Tested receiver.old.held receiver.new.held result }
{
    work_on!(receiver, alloc, RawReceiver(side) => side.validate())
}

/// Writes how often felter_receive_next returned FELTER_LAPPED.
#[unsafe(no_mangle)]
pub extern "C" fn felter_raw_lapped_count(
    alloc: Global,
    receiver: &mut Handle,
    count: &mut u64,
) -> i32
    ensures { Yields a_raw_receiver (λ _ told. SaysLapped told) count.old count.new receiver.old.held receiver.new.held
        result }
{
    work_on!(receiver, alloc, RawReceiver(side) => side.lapped_count(count))
}
