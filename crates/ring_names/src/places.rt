//! `ring_layout`: headers, places, bytes of words, and the descriptors.

/// Where a record of 16 bytes goes that does not fit before the end of the buffer, and whether there is room for it.
fn placed(capacity: u32) -> ((u64, u64), bool) {
    if !ring_layout::is_capacity(capacity) {
        return ((0, 0), false);
    }
    let tail = u64::from(capacity) - 8;
    (
        ring_layout::pad_and_span(capacity, tail, 5),
        ring_layout::fits(capacity, tail, 0, 5),
    )
}

/// A length rounded up, a header and its parts, the longest message, a place, and bytes of a word.
pub fn words() -> ((u64, u64, (i32, i32)), (u32, (u64, u64), bool), (u64, u8)) {
    let header = ring_layout::pack_header(13, 7);
    let parts = ring_layout::unpack_header(header);
    let longest = ring_layout::max_message(1024);
    let (place, fits) = placed(1024);
    let word = ring_layout::put_bytes_word(0, 2, b"ab");
    let byte = ring_layout::get_byte_word(word, 2);
    (
        (ring_layout::align8(13), header, parts),
        (longest, place, fits),
        (word, byte),
    )
}

/// Where the fields of a record, the trailers of a ring and of a broadcast buffer, and the records of a counter are.
pub fn descriptors() -> ([usize; 3], [usize; 6], [usize; 4], [usize; 11]) {
    use ring_layout::{broadcast_buffer_descriptor as board, counter_descriptor as counter};
    use ring_layout::{record_descriptor as record, ring_buffer_descriptor as ring};
    (
        [
            record::LENGTH_OFFSET,
            record::TYPE_OFFSET,
            record::ENCODED_MSG_OFFSET,
        ],
        [
            ring::TAIL_POSITION_OFFSET,
            ring::HEAD_CACHE_POSITION_OFFSET,
            ring::HEAD_POSITION_OFFSET,
            ring::CORRELATION_COUNTER_OFFSET,
            ring::CONSUMER_HEARTBEAT_OFFSET,
            ring::TRAILER_LENGTH,
        ],
        [
            board::TAIL_INTENT_COUNTER_OFFSET,
            board::TAIL_COUNTER_OFFSET,
            board::LATEST_COUNTER_OFFSET,
            board::TRAILER_LENGTH,
        ],
        [
            counter::VALUE_OFFSET,
            counter::REGISTRATION_ID_OFFSET,
            counter::OWNER_ID_OFFSET,
            counter::REFERENCE_ID_OFFSET,
            counter::COUNTER_LENGTH,
            counter::STATE_OFFSET,
            counter::TYPE_ID_OFFSET,
            counter::FREE_FOR_REUSE_DEADLINE_OFFSET,
            counter::KEY_OFFSET,
            counter::LABEL_OFFSET,
            counter::METADATA_LENGTH,
        ],
    )
}
