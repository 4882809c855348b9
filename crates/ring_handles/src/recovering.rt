//! The messages of a ring whose process died, laid into a buffer.
ghost use Rattle.std.specs.Prelude.{◌≡◌, ℕ, ◌+◌, ◌*◌, ◌≤◌, ℤ, length};
ghost use Rattle.ring_layout.specs.{History.overwritten, declared.message.Message.Message};
ghost use Rattle.ring_recovery.specs.Recovered.{messages_left};
ghost use Rattle.ring_handles.specs.Batch.{batch, laid, laid_end, placed, span_in, Batch};
ghost use Rattle.ring_handles.specs.Recovering.{recovery, still_to_come, Finds, LaysAll, Recovers};

use crate::batch::{place_head, span_in};
use crate::code::{
    BAD_HEADER_LENGTH, BAD_HEADER_TYPE, DONE, NO_IMAGE, SHORT_BUFFER, TAIL_BEFORE_HEAD,
    TAIL_TOO_FAR, UNALIGNED_POSITION,
};
use ring_recovery::{Body, Recovered, RingFinding, recover};

/// Copies a body into a buffer, from its byte `at` on.
fn copy_body(buffer: &mut [u8], at: usize, body: Body<'_>)
    requires { at + length body ≤ length buffer.old }
    ensures { buffer.new ≡ overwritten at body.entry buffer.old }
{
    let mut end = at;
    for byte in body {
        buffer[end] = byte;
        end += 1;
    }
}

/// Places a message into a buffer: its length, its type id and its body.
fn place_body(buffer: &mut [u8], at: usize, type_id: i32, body: Body<'_>)
    requires { at + span_in (length body) ≤ length buffer.old }
    ensures { buffer.new ≡ placed at (record { type_id = type_id; body = body.entry }) buffer.old }
{
    place_head(buffer, at, type_id, body.len());
    copy_body(buffer, at + 16, body);
}

/// Returns the number of messages that are still to come, and the bytes that they take in a buffer.
fn measure(recovered: &Recovered<'_>) -> (u32, usize)
    requires { laid_end 0 (still_to_come recovered.now) ≤ 2 * recovered.now.capacity }
    ensures count { result.0 ≡ length (messages_left recovered.now) }
    ensures used { result.1 ≡ laid_end 0 (still_to_come recovered.now) }
{
    let mut count = 0;
    let mut used = 0;
    for message in recovered.again() {
        count += 1;
        used += span_in(message.body.len());
    }
    (count, used)
}

/// Lays the messages into a buffer, one after another.
fn lay_all(recovered: Recovered<'_>, buffer: &mut [u8])
    requires room { laid_end 0 (still_to_come recovered) ≤ length buffer.old }
    requires within { laid_end 0 (still_to_come recovered) ≤ 2 * recovered.capacity }
    ensures { buffer.new ≡ laid 0 (still_to_come recovered.entry) buffer.old }
{
    let mut at = 0;
    for message in recovered {
        let span = span_in(message.body.len());
        place_body(buffer, at, message.type_id, message.body);
        at += span;
    }
}

/// Lays the messages into a buffer if it has room for all of them. Reports how many they are and the bytes that they
/// take, also if there is no room.
fn lay_recovered(
    recovered: Recovered<'_>,
    open_claims: &mut u64,
    count: &mut u32,
    used: &mut usize,
    buffer: &mut [u8],
) -> i32
    requires { laid_end 0 (still_to_come recovered) ≤ 2 * recovered.capacity }
    ensures { (place : ℕ) (found : ℤ) → LaysAll recovered.entry
        (recovery open_claims.old (batch count.old used.old buffer.old) place found)
        (recovery open_claims.new (batch count.new used.new buffer.new) place found) result }
{
    *open_claims = recovered.open_claims();
    (*count, *used) = measure(&recovered);
    if buffer.len() < *used {
        return SHORT_BUFFER;
    }
    lay_all(recovered, buffer);
    DONE
}

/// Reports a finding: its code, its place, and what is there.
fn report(finding: RingFinding, place: &mut u64, found: &mut i64) -> i32
    ensures { (open_claims : ℕ) (b : Batch) → Finds finding (recovery open_claims b place.old found.old)
        (recovery open_claims b place.new found.new) result }
{
    let (code, at, value) = match finding {
        RingFinding::UnalignedPosition { head, tail } => {
            (UNALIGNED_POSITION, head, tail.cast_signed())
        }
        RingFinding::TailBeforeHead { head, tail } => (TAIL_BEFORE_HEAD, head, tail.cast_signed()),
        RingFinding::TailTooFar { head, tail } => (TAIL_TOO_FAR, head, tail.cast_signed()),
        RingFinding::BadLength { index, length } => {
            (BAD_HEADER_LENGTH, u64::from(index), i64::from(length))
        }
        RingFinding::BadType { index, type_id } => {
            (BAD_HEADER_TYPE, u64::from(index), i64::from(type_id))
        }
        RingFinding::BadSize { .. }
        | RingFinding::BadBodies { .. }
        | RingFinding::OutsideOfRecords { .. } => return NO_IMAGE,
    };
    *place = at;
    *found = value;
    code
}

/// Recovers the messages of a ring whose threads all died, each at any step, and lays them into a buffer. `words` are
/// the words of the ring, which have marks, and `slots` its slots, which have the headers and the bodies.
///
/// The messages are those that `ring_recovery::recover` returns, in the same order. The call reports how many messages
/// there are, how many bytes of the buffer they take, and how many claims were open. The messages take at most twice
/// the capacity of the ring.
///
/// Codes:
/// - `SHORT_BUFFER` if the buffer has no room for all messages. The buffer stays as it was. The three numbers are
///   reported all the same.
/// - The code of the first finding, if `recover` returns one. `place` and `found` are then the head and the tail, or
///   the byte of the ring's buffer at which a header is and the length or the type id in this header. After `NO_IMAGE`,
///   and without a finding, they stay unchanged. The three numbers and the buffer stay unchanged after a finding.
///
/// The call allocates no memory. Any thread may call it.
pub fn recover_into(
    words: &[u64],
    slots: &[u64],
    place: &mut u64,
    found: &mut i64,
    open_claims: &mut u64,
    count: &mut u32,
    used: &mut usize,
    buffer: &mut [u8],
) -> i32
    ensures { Recovers words.now slots.now
        (recovery open_claims.old (batch count.old used.old buffer.old) place.old found.old)
        (recovery open_claims.new (batch count.new used.new buffer.new) place.new found.new) result }
{
    match recover(words, slots) {
        Ok(recovered) => lay_recovered(recovered, open_claims, count, used, buffer),
        Err(finding) => report(finding, place, found),
    }
}
