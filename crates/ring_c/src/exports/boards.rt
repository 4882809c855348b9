//! What handles of a broadcast buffer do.
// Written by c/bindings from felter.h and exports.txt. To change this file, change them and run c/bindings.
ghost use Rattle.ring_c.specs.Told.{GivesInto, OpensBoard, Uses, Yields};
ghost use Rattle.ring_handles.specs.Boards.{IsUnheard, heard_out, CopiesOut, Received, SaysLapped, Subscribes};
ghost use Rattle.ring_handles.specs.{Boards.TransmitsOut, Boards.Transmitted, Kinds.a_receiver, Kinds.a_transmitter};

use crate::work_on::{fill, make_into, work_on};
use ring_handles::{Handle, Identity, open_board};
use std::alloc::Global;

/// Makes a board of `capacity` bytes and its transmitter. A board has 65,536 shares, and the transmitter begins with
/// all of them. The capacity must be a power of two from 256 to 2^24. Positions begin at 0. Codes: FELTER_BAD_CAPACITY,
/// FELTER_OUT_OF_MEMORY, FELTER_HANDLE_IN_USE.
#[unsafe(no_mangle)]
pub extern "C" fn felter_board_new_numbered(
    alloc: Global,
    number: u64,
    capacity: u32,
    transmitter: &mut Handle,
) -> i32
    ensures { OpensBoard number capacity 0 transmitter.old.held transmitter.new.held result }
{
    fill!(
        transmitter,
        alloc,
        open_board(alloc, Identity { number }, capacity, 0)
    )
}

/// Makes a board whose positions begin at `start`. Otherwise the call is the same as felter_board_new. Codes: also
/// FELTER_BAD_START.
#[unsafe(no_mangle)]
pub extern "C" fn felter_board_new_at_numbered(
    alloc: Global,
    number: u64,
    capacity: u32,
    start: u64,
    transmitter: &mut Handle,
) -> i32
    ensures { OpensBoard number capacity start transmitter.old.held transmitter.new.held result }
{
    fill!(
        transmitter,
        alloc,
        open_board(alloc, Identity { number }, capacity, start)
    )
}

/// Transmits a message. Codes: FELTER_BAD_TYPE, FELTER_TOO_LONG, FELTER_POSITION_LIMIT.
#[unsafe(no_mangle)]
pub extern "C" fn felter_transmit(
    alloc: Global,
    transmitter: &mut Handle,
    type_id: i32,
    body: &[u8],
) -> i32
    ensures transmitted { Uses a_transmitter (TransmitsOut type_id body.now) transmitter.old.held transmitter.new.held
        result }
    ensures does { Uses a_transmitter (Transmitted type_id body.now) transmitter.old.held transmitter.new.held result }
{
    work_on!(transmitter, alloc, Transmitter(side) => side.transmit(type_id, body))
}

/// Makes a receiver, which starts with the message that was transmitted last. The receiver gets one share of the
/// transmitter. This share is lost if the receiver is freed without felter_board_join. Codes: FELTER_NO_SHARES,
/// FELTER_OUT_OF_MEMORY, FELTER_HANDLE_IN_USE. FELTER_NO_SHARES is returned, for example, after 65,535 receivers were
/// freed in this way.
#[unsafe(no_mangle)]
pub extern "C" fn felter_subscribe(
    alloc: Global,
    transmitter: &mut Handle,
    receiver: &mut Handle,
) -> i32
    ensures { GivesInto a_transmitter a_receiver Subscribes IsUnheard transmitter.old.held receiver.old.held
        transmitter.new.held receiver.new.held result }
{
    make_into!(transmitter, alloc, Transmitter(side) => side.subscribe(alloc), receiver, Receiver)
}

/// Copies the next message into a buffer. Codes:
/// - FELTER_NO_MESSAGE;
/// - FELTER_LAPPED if the transmitter overtook the receiver. *lapped is then the number of times that the receiver was
///   lapped. The next call goes on with the message that was transmitted last;
/// - FELTER_SHORT_BUFFER if the room is less than an eighth of the capacity, even if the message is short. *len is then
///   an eighth of the capacity, and no message is taken.
#[unsafe(no_mangle)]
pub extern "C" fn felter_receive(
    alloc: Global,
    receiver: &mut Handle,
    type_id: &mut i32,
    len: &mut usize,
    lapped: &mut u64,
    buffer: &mut [u8],
) -> i32
    ensures copied { Yields a_receiver CopiesOut (heard_out type_id.old len.old lapped.old buffer.old)
        (heard_out type_id.new len.new lapped.new buffer.new) receiver.old.held receiver.new.held result }
    ensures does { Yields a_receiver Received (heard_out type_id.old len.old lapped.old buffer.old)
        (heard_out type_id.new len.new lapped.new buffer.new) receiver.old.held receiver.new.held result }
{
    work_on!(receiver, alloc, Receiver(side) => side.receive(type_id, len, lapped, buffer))
}

/// Writes how often the receiver was lapped.
#[unsafe(no_mangle)]
pub extern "C" fn felter_lapped_count(alloc: Global, receiver: &mut Handle, count: &mut u64) -> i32
    ensures { Yields a_receiver (λ _ told. SaysLapped told) count.old count.new receiver.old.held receiver.new.held
        result }
{
    work_on!(receiver, alloc, Receiver(side) => side.lapped_count(count))
}
