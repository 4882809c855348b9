//! What recovers the messages that a ring left.
// Written by c/bindings from felter.h and exports.txt. To change this file, change them and run c/bindings.
ghost use Rattle.ring_handles.specs.{Batch.batch, Recovering.recovery, Recovering.Recovers};

/// Recovers the messages of a ring whose process died, and lays them into a buffer as felter_read_batch does. `words`
/// are the `word_count` words of the ring, and `slots` are its `slot_count` slots, which have headers and bodies. If
/// the ring was in memory of the caller, felter_recover below finds both by itself.
///
/// The messages are those that were committed, from the head on. Each message comes whole, once, and in the order of
/// the claims. What the consumer was shown, and after which it had not moved the head, comes again, before the other
/// messages. A claim that was open has no message. All this is proved for the memory of any ring, whatever step each of
/// its threads had come to.
///
/// Writes how many claims were open, how many messages were recovered, and how many bytes of the buffer they take. A
/// buffer of twice the capacity of the ring is always long enough. Codes, in this order:
/// - FELTER_NO_IMAGE if no ring has this many words, or if a ring of this many words has another number of slots. A
///   ring has capacity / 8 + 96 words, and capacity / 8 slots;
/// - FELTER_UNALIGNED_POSITION, FELTER_TAIL_BEFORE_HEAD or FELTER_TAIL_TOO_FAR. *place is then the head, and *found is
///   the tail;
/// - FELTER_BAD_HEADER_LENGTH or FELTER_BAD_HEADER_TYPE for the first header that no record has there, or that is
///   inside another record. *place is then the byte of the ring's buffer at which the header is, and *found is the
///   length or the type id in the header;
/// - FELTER_SHORT_BUFFER if the buffer is too short for all messages. The three numbers are then written as above, so
///   *used says how long the buffer must be. The buffer has the bytes that it had before.
///
/// The call requests no memory, and does not write to the words and the slots. No thread and no process may write to
/// them during the call. Otherwise nothing is promised, and the call may write outside the buffer.
#[unsafe(no_mangle)]
pub extern "C" fn felter_recover_words(
    words: &[u64],
    slots: &[u64],
    place: &mut u64,
    found: &mut i64,
    open_claims: &mut u64,
    count: &mut u32,
    used: &mut usize,
    buffer: &mut [u8],
) -> i32
    ensures { Recovers words.now slots.now
        (recovery open_claims.old (batch count.old used.old buffer.old) place.old found.old)
        (recovery open_claims.new (batch count.new used.new buffer.new) place.new found.new) result }
{
    ring_handles::recover_into(words, slots, place, found, open_claims, count, used, buffer)
}
