//! The layout of a ring, after Agrona's `RingBufferDescriptor`.
//!
//! ```text
//!   0                         capacity                                              capacity + 768
//!   +-------------------------+-------+-------+-------+-------+-------+-------+
//!   | records                 |       | tail  | cache | head  | corr. | beat  |
//!   +-------------------------+-------+-------+-------+-------+-------+-------+
//!     from the trailer's start: 0      128     256     384     512     640     768
//! ```
//!
//! Each field of the trailer is one word of 64 bits, at the start of 128 bytes that have no other field. So no two
//! threads write near each other. The tail, the head and the head cache are positions, which are running counts of
//! bytes.

/// The smallest capacity, in bytes.
pub const MIN_CAPACITY: u32 = 128;

/// The greatest capacity, in bytes.
pub const MAX_CAPACITY: u32 = 1 << 24;

/// The greatest position, in bytes.
pub const MAX_POSITION: u64 = 1 << 62;

/// The byte offset of the producers' tail in the trailer.
pub const TAIL_POSITION_OFFSET: usize = 128;

/// The byte offset of the producers' cached head in the trailer.
pub const HEAD_CACHE_POSITION_OFFSET: usize = 256;

/// The byte offset of the consumer's head in the trailer.
pub const HEAD_POSITION_OFFSET: usize = 384;

/// The byte offset of the counter of correlation ids in the trailer.
pub const CORRELATION_COUNTER_OFFSET: usize = 512;

/// The byte offset of the consumer's heartbeat in the trailer.
pub const CONSUMER_HEARTBEAT_OFFSET: usize = 640;

/// The length of the trailer, in bytes.
pub const TRAILER_LENGTH: usize = 768;

/// The index of the word of the producers' tail, from the trailer's start.
pub const TAIL_POSITION_WORD: usize = TAIL_POSITION_OFFSET / 8;

/// The index of the word of the producers' cached head, from the trailer's start.
pub const HEAD_CACHE_POSITION_WORD: usize = HEAD_CACHE_POSITION_OFFSET / 8;

/// The index of the word of the consumer's head, from the trailer's start.
pub const HEAD_POSITION_WORD: usize = HEAD_POSITION_OFFSET / 8;

/// The index of the word of the counter of correlation ids, from the trailer's start.
pub const CORRELATION_COUNTER_WORD: usize = CORRELATION_COUNTER_OFFSET / 8;

/// The index of the word of the consumer's heartbeat, from the trailer's start.
pub const CONSUMER_HEARTBEAT_WORD: usize = CONSUMER_HEARTBEAT_OFFSET / 8;

/// The number of words of the trailer.
pub const TRAILER_WORDS: usize = TRAILER_LENGTH / 8;
