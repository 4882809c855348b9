//! The rows of the formats. Each is stated in plain words, and is compared with the constants.
use crate::{
    broadcast_buffer_descriptor as board, counter_descriptor as counter,
    record_descriptor as record, ring_buffer_descriptor as ring,
};

// A record ---------------------------------------------------------------------

// The length is at byte 0 of a header. It has 32 bits, up to the type id.
const _: () = prove!(record::LENGTH_OFFSET == 0);

// The type id is at byte 4 of a header. It has 32 bits, up to the header's end.
const _: () = prove!(record::TYPE_OFFSET == 4);

// The message begins at byte 8, after the header.
const _: () = prove!(record::ENCODED_MSG_OFFSET == 8);

// A header has 8 bytes, which are one word.
const _: () = prove!(record::HEADER_LENGTH == 8);

// Records begin and end at multiples of 8 bytes.
const _: () = prove!(record::ALIGNMENT == 8);

// Padding and aborted records have the type id -1.
const _: () = prove!(record::PADDING_MSG_TYPE_ID == -1);

// A ring's trailer -------------------------------------------------------------

// The tail is at byte 128 of the trailer, which is word 16.
const _: () = prove!(ring::TAIL_POSITION_OFFSET == 128 && ring::TAIL_POSITION_WORD == 16);

// The head cache is at byte 256, which is word 32.
const _: () = prove!(
    ring::HEAD_CACHE_POSITION_OFFSET == 256 && ring::HEAD_CACHE_POSITION_WORD == 32
);

// The head is at byte 384, which is word 48.
const _: () = prove!(ring::HEAD_POSITION_OFFSET == 384 && ring::HEAD_POSITION_WORD == 48);

// The correlation counter is at byte 512, which is word 64.
const _: () = prove!(
    ring::CORRELATION_COUNTER_OFFSET == 512 && ring::CORRELATION_COUNTER_WORD == 64
);

// The consumer's heartbeat is at byte 640, which is word 80.
const _: () = prove!(ring::CONSUMER_HEARTBEAT_OFFSET == 640 && ring::CONSUMER_HEARTBEAT_WORD == 80);

// The trailer has 768 bytes, which are 96 words.
const _: () = prove!(ring::TRAILER_LENGTH == 768 && ring::TRAILER_WORDS == 96);

// A capacity is at least 128 and at most 2^24 bytes.
const _: () = prove!(ring::MIN_CAPACITY == 128 && ring::MAX_CAPACITY == 16_777_216);

// No position is above 2^62.
const _: () = prove!(ring::MAX_POSITION == 4_611_686_018_427_387_904);

// A broadcast buffer's trailer -------------------------------------------------

// The tail intent is at byte 0 of the trailer, which is word 0.
const _: () = prove!(
    board::TAIL_INTENT_COUNTER_OFFSET == 0 && board::TAIL_INTENT_COUNTER_WORD == 0
);

// The tail is at byte 8, which is word 1.
const _: () = prove!(board::TAIL_COUNTER_OFFSET == 8 && board::TAIL_COUNTER_WORD == 1);

// The latest record's place is at byte 16, which is word 2.
const _: () = prove!(board::LATEST_COUNTER_OFFSET == 16 && board::LATEST_COUNTER_WORD == 2);

// The trailer has 128 bytes, which are 16 words.
const _: () = prove!(board::TRAILER_LENGTH == 128 && board::TRAILER_WORDS == 16);

// A capacity is at least 256 and at most 2^24 bytes.
const _: () = prove!(board::MIN_CAPACITY == 256 && board::MAX_CAPACITY == 16_777_216);

// A counter's value record -------------------------------------------------------

// The value is at byte 0, which is word 0. It is signed.
const _: () = prove!(counter::VALUE_OFFSET == 0 && counter::VALUE_WORD == 0);

// The registration id is at byte 8, which is word 1.
const _: () = prove!(counter::REGISTRATION_ID_OFFSET == 8 && counter::REGISTRATION_ID_WORD == 1);

// The owner id is at byte 16, which is word 2.
const _: () = prove!(counter::OWNER_ID_OFFSET == 16 && counter::OWNER_ID_WORD == 2);

// The reference id is at byte 24, which is word 3.
const _: () = prove!(counter::REFERENCE_ID_OFFSET == 24 && counter::REFERENCE_ID_WORD == 3);

// The record has 128 bytes, which are 16 words. The words after the reference id are 0.
const _: () = prove!(counter::COUNTER_LENGTH == 128 && counter::COUNTER_WORDS == 16);

// A counter's metadata record ----------------------------------------------------

// The state is at byte 0, in the low half of word 0. It is 0 if unused, 1 if allocated, and -1 if reclaimed.
const _: () = prove!(counter::STATE_OFFSET == 0 && counter::STATE_WORD == 0);

const _: () = prove!(counter::RECORD_UNUSED == 0);

const _: () = prove!(counter::RECORD_ALLOCATED == 1);

const _: () = prove!(counter::RECORD_RECLAIMED == -1);

// The type id is at byte 4, in the high half of word 0.
const _: () = prove!(counter::TYPE_ID_OFFSET == 4);

// The deadline is at byte 8, which is word 1. The deadline of an allocated counter is 0x7FFFFFFFFFFFFFFF.
const _: () = prove!(counter::FREE_FOR_REUSE_DEADLINE_OFFSET == 8);

const _: () = prove!(counter::FREE_FOR_REUSE_DEADLINE_WORD == 1);

const _: () = prove!(counter::NOT_FREE_FOR_REUSE == 0x7FFF_FFFF_FFFF_FFFF);

// The key is at byte 16, and has 112 bytes. It begins at word 2.
const _: () = prove!(counter::KEY_OFFSET == 16 && counter::KEY_WORD == 2);

const _: () = prove!(counter::MAX_KEY_LENGTH == 112);

// The label's length is at byte 128, in the low half of word 16. It has 4 bytes.
const _: () = prove!(counter::LABEL_OFFSET == 128 && counter::LABEL_WORD == 16);

const _: () = prove!(counter::LABEL_LENGTH_BYTES == 4);

// The label follows its length, at byte 132. It has 380 bytes, up to the record's end.
const _: () = prove!(counter::MAX_LABEL_LENGTH == 380 && counter::FULL_LABEL_LENGTH == 384);

// The record has 512 bytes, which are 64 words.
const _: () = prove!(counter::METADATA_LENGTH == 512 && counter::METADATA_WORDS == 64);

// There are at most 4,096 counters.
const _: () = prove!(counter::MAX_COUNTERS == 4096);

// No moment is above 2^62 milliseconds.
const _: () = prove!(counter::MAX_MOMENT == 4_611_686_018_427_387_904);
