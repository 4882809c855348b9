//! What a consumer's handle does.
// Written by c/bindings from felter.h and exports.txt. To change this file, change them and run c/bindings.
ghost use Rattle.ring_c.specs.Told.{Uses, Yields};
ghost use Rattle.ring_handles.specs.{Batch.batch, Batch.ReadBatch, Batch.ReceivesBatch, Consuming.TakeOne};
ghost use Rattle.ring_handles.specs.Consuming.{out, Beat, PeekOne, ReadOne, ReceivesNone, ReceivesOne, ReceivesOut};
ghost use Rattle.ring_handles.specs.Kinds.{a_consumer};

use crate::work_on::work_on;
use ring_handles::Handle;
use std::alloc::Global;

/// Reads the next message into a buffer, and removes the message from the ring. Codes: FELTER_NO_MESSAGE, and
/// FELTER_SHORT_BUFFER if the message is longer than the buffer. After FELTER_SHORT_BUFFER, *len is the length of the
/// message, and *type_id is its type id. No byte of the message is copied, and the message stays in the ring. A buffer
/// of an eighth of the capacity is always long enough.
#[unsafe(no_mangle)]
pub extern "C" fn felter_read(
    alloc: Global,
    consumer: &mut Handle,
    type_id: &mut i32,
    len: &mut usize,
    buffer: &mut [u8],
) -> i32
    ensures received { Yields a_consumer (λ _ told. ReceivesOut told) (out type_id.old len.old buffer.old)
        (out type_id.new len.new buffer.new) consumer.old.held consumer.new.held result }
    ensures does { Yields a_consumer ReadOne (out type_id.old len.old buffer.old) (out type_id.new len.new buffer.new)
        consumer.old.held consumer.new.held result }
{
    work_on!(consumer, alloc, Consumer(side) => side.read(type_id, len, buffer))
}

/// Copies the next message into a buffer as felter_read does, with the same codes, but leaves the message in the ring.
/// The next call finds the message again.
#[unsafe(no_mangle)]
pub extern "C" fn felter_peek(
    alloc: Global,
    consumer: &mut Handle,
    type_id: &mut i32,
    len: &mut usize,
    buffer: &mut [u8],
) -> i32
    ensures received { Uses a_consumer (λ r s _. ReceivesNone r s) consumer.old.held consumer.new.held result }
    ensures does { Yields a_consumer PeekOne (out type_id.old len.old buffer.old) (out type_id.new len.new buffer.new)
        consumer.old.held consumer.new.held result }
{
    work_on!(consumer, alloc, Consumer(side) => side.peek(type_id, len, buffer))
}

/// Removes the next message, which felter_peek showed, from the ring. The call copies no byte of the message, so its
/// time does not grow with the length of the message. Codes: FELTER_NO_MESSAGE.
///
/// The two calls together are a controlled read. Peek, look at the message, and then do what one of Agrona's actions
/// does:
/// - ABORT: stop. The message stays.
/// - BREAK: take the message, and stop.
/// - COMMIT, CONTINUE: take the message, and go on.
///
/// The head moves at each felter_take, so the producers get the room of each message that was taken.
#[unsafe(no_mangle)]
pub extern "C" fn felter_take(alloc: Global, consumer: &mut Handle) -> i32
    ensures received { Uses a_consumer ReceivesOne consumer.old.held consumer.new.held result }
    ensures does { Uses a_consumer TakeOne consumer.old.held consumer.new.held result }
{
    work_on!(consumer, alloc, Consumer(side) => side.take())
}

/// Reads up to `limit` messages into a buffer, one after another. Each message is a felter_record followed by its
/// bytes. The first message begins at the front of the buffer. If a message has the length len, the next message begins
/// FELTER_SPAN(len) bytes after the beginning of this message. The call writes the number of messages, and how many
/// bytes they take. The call stops when the buffer has no room for the next message, which stays in the ring. No byte
/// of this message is copied. The call can return fewer messages than are in the ring. After the call returns,
/// producers can reuse the room of the messages that were read.
///
/// Codes: FELTER_NO_MESSAGE if no message is there yet or the limit is 0, and FELTER_SHORT_BUFFER if the buffer has no
/// room for the first message. After FELTER_SHORT_BUFFER, felter_read reports the length of that message. A buffer of
/// FELTER_SPAN(capacity / 8) bytes is always long enough for one message.
#[unsafe(no_mangle)]
pub extern "C" fn felter_read_batch(
    alloc: Global,
    consumer: &mut Handle,
    limit: u32,
    count: &mut u32,
    used: &mut usize,
    buffer: &mut [u8],
) -> i32
    ensures received { Yields a_consumer ReceivesBatch (batch count.old used.old buffer.old)
        (batch count.new used.new buffer.new) consumer.old.held consumer.new.held result }
    ensures does { Yields a_consumer (ReadBatch limit) (batch count.old used.old buffer.old)
        (batch count.new used.new buffer.new) consumer.old.held consumer.new.held result }
{
    work_on!(consumer, alloc, Consumer(side) => side.read_batch(limit, count, used, buffer))
}

/// Stores a heartbeat, which may be any number.
#[unsafe(no_mangle)]
pub extern "C" fn felter_set_heartbeat(alloc: Global, consumer: &mut Handle, value: u64) -> i32
    ensures received { Uses a_consumer (λ r s _. ReceivesNone r s) consumer.old.held consumer.new.held result }
    ensures does { Uses a_consumer (Beat value) consumer.old.held consumer.new.held result }
{
    work_on!(consumer, alloc, Consumer(side) => side.set_heartbeat(value))
}
