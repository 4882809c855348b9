//! What a producer's handle does.
// Written by c/bindings from felter.h and exports.txt. To change this file, change them and run c/bindings.
ghost use Rattle.ring_c.specs.Told.{Uses, Yields};
ghost use Rattle.ring_handles.specs.{Kinds.a_producer, WritingBatch.WroteBatch};
ghost use Rattle.ring_handles.specs.Producing.{positions, Claimed, Counted, Drew, HeardBeat, Positioned, Put};
ghost use Rattle.ring_handles.specs.Producing.{SendsClaim, SendsNone, SendsOut, Settled, Wrote};
ghost use Rattle.ring_layout.specs.declared.message.ClaimState.TheVariants.{Aborted, Committed};

use crate::work_on::work_on;
use ring_handles::Handle;
use std::alloc::Global;

/// Tries once to write a message. The type id must be at least 1, and `len` must be at most an eighth of the capacity.
/// Codes: FELTER_BAD_TYPE, FELTER_TOO_LONG, FELTER_POSITION_LIMIT, FELTER_INSUFFICIENT_CAPACITY, and FELTER_CONTENDED
/// for a many-to-one ring.
#[unsafe(no_mangle)]
pub extern "C" fn felter_write(
    alloc: Global,
    producer: &mut Handle,
    type_id: i32,
    body: &[u8],
) -> i32
    ensures sent { Uses a_producer (λ p q. SendsOut type_id body.now p.view q.view) producer.old.held producer.new.held
        result }
    ensures does { Uses a_producer (Wrote type_id body.now) producer.old.held producer.new.held result }
{
    work_on!(producer, alloc, Producer(side) => side.write(type_id, body))
}

/// Writes the messages of a batch in their order. The buffer must have the layout that felter_read_batch writes. Only
/// the padding after the last message may be missing. Messages that are next to one another in the ring are published
/// by one store, so the consumer sees all of them at once. A batch of short messages costs less than single writes.
///
/// The call tests all records before it writes the first message. If it refuses a record, it writes no message. Then it
/// writes messages until all are written, or a try to write the next one is refused as felter_write would refuse it.
/// `written` is set to the number of messages that were written. If the call returns FELTER_OK, all messages were
/// written. After FELTER_NO_HANDLE and FELTER_WRONG_HANDLE, `written` is unchanged. Codes, in this order:
/// - FELTER_PUT_RANGE if a record is not completely inside the bytes, FELTER_BAD_TYPE, or FELTER_TOO_LONG. The first
///   record that is refused decides. FELTER_PUT_RANGE also if there are 2^32 bytes or more;
/// - FELTER_POSITION_LIMIT, FELTER_INSUFFICIENT_CAPACITY, and FELTER_CONTENDED for a many-to-one ring. The first
///   messages of the batch may have been written.
#[unsafe(no_mangle)]
pub extern "C" fn felter_write_batch(
    alloc: Global,
    producer: &mut Handle,
    records: &[u8],
    written: &mut u32,
) -> i32
    ensures { Yields a_producer (λ _ told. WroteBatch records.now told) written.old written.new producer.old.held
        producer.new.held result }
{
    work_on!(producer, alloc, Producer(side) => side.write_batch(records, written))
}

/// Tries once to claim room for a message of `len` bytes. Each byte is 0 until felter_put stores it. Writes the number
/// of the claim, which is the claim's position in the ring. No other claim of the ring ever has this number.
///
/// Any number of claims may be open at once. They may be settled, which means committed or aborted, in any order. The
/// time to settle a claim does not grow with the number of open claims. The consumer does not go past an open claim, so
/// each claim must be settled.
///
/// Codes: those of felter_write. If there is no memory to keep one more claim, the call returns FELTER_OUT_OF_MEMORY,
/// and does not try to make the claim.
#[unsafe(no_mangle)]
pub extern "C" fn felter_claim(
    alloc: Global,
    producer: &mut Handle,
    type_id: i32,
    len: usize,
    claim: &mut u64,
) -> i32
    ensures sent { Uses a_producer (λ p q _. SendsNone p.view q.view) producer.old.held producer.new.held result }
    ensures does { Yields a_producer (Claimed type_id len) claim.old claim.new producer.old.held producer.new.held
        result }
{
    work_on!(producer, alloc, Producer(side) => side.claim(type_id, len, claim))
}

/// Puts bytes into an open claim of the producer, from the byte at `offset` on. Codes: FELTER_NO_CLAIM,
/// FELTER_PUT_RANGE.
#[unsafe(no_mangle)]
pub extern "C" fn felter_put(
    alloc: Global,
    producer: &mut Handle,
    claim: u64,
    offset: usize,
    bytes: &[u8],
) -> i32
    ensures sent { Uses a_producer (λ p q _. SendsNone p.view q.view) producer.old.held producer.new.held result }
    ensures does { Uses a_producer (Put claim offset bytes.now) producer.old.held producer.new.held result }
{
    work_on!(producer, alloc, Producer(side) => side.put(claim, offset, bytes))
}

/// Commits an open claim of the producer. The consumer is then shown the message. Codes: FELTER_NO_CLAIM.
#[unsafe(no_mangle)]
pub extern "C" fn felter_commit(alloc: Global, producer: &mut Handle, claim: u64) -> i32
    ensures sent { Uses a_producer (λ p q. SendsClaim claim p.view q.view) producer.old.held producer.new.held result }
    ensures does { Uses a_producer (Settled Committed claim) producer.old.held producer.new.held result }
{
    work_on!(producer, alloc, Producer(side) => side.commit(claim))
}

/// Aborts an open claim of the producer. The consumer then skips the claim. Codes: FELTER_NO_CLAIM.
#[unsafe(no_mangle)]
pub extern "C" fn felter_abort(alloc: Global, producer: &mut Handle, claim: u64) -> i32
    ensures sent { Uses a_producer (λ p q _. SendsNone p.view q.view) producer.old.held producer.new.held result }
    ensures does { Uses a_producer (Settled Aborted claim) producer.old.held producer.new.held result }
{
    work_on!(producer, alloc, Producer(side) => side.abort(claim))
}

/// Loads the head of the ring, and then its tail.
#[unsafe(no_mangle)]
pub extern "C" fn felter_positions(
    alloc: Global,
    producer: &mut Handle,
    head: &mut u64,
    tail: &mut u64,
) -> i32
    ensures { Yields a_producer (λ _ told. Positioned told) (positions head.old tail.old) (positions head.new tail.new)
        producer.old.held producer.new.held result }
{
    work_on!(producer, alloc, Producer(side) => side.positions(head, tail))
}

/// Draws the ring's next correlation id.
#[unsafe(no_mangle)]
pub extern "C" fn felter_next_id(alloc: Global, producer: &mut Handle, id: &mut u64) -> i32
    ensures { Yields a_producer (λ _ told. Drew told) id.old id.new producer.old.held producer.new.held result }
{
    work_on!(producer, alloc, Producer(side) => side.next_id(id))
}

/// Loads the heartbeat that the consumer stored last. The heartbeat is 0 before the consumer stores one.
#[unsafe(no_mangle)]
pub extern "C" fn felter_heartbeat(alloc: Global, producer: &mut Handle, value: &mut u64) -> i32
    ensures { Yields a_producer (λ _ told. HeardBeat told) value.old value.new producer.old.held producer.new.held
        result }
{
    work_on!(producer, alloc, Producer(side) => side.heartbeat(value))
}

/// Writes how many of the ring's 65,536 shares the producer holds.
#[unsafe(no_mangle)]
pub extern "C" fn felter_shares(alloc: Global, producer: &mut Handle, shares: &mut u32) -> i32
    ensures { Yields a_producer (λ _ told. Counted told) shares.old shares.new producer.old.held producer.new.held
        result }
{
    work_on!(producer, alloc, Producer(side) => side.shares(shares))
}
