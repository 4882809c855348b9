//! The layout of a broadcast buffer, after Agrona's `BroadcastBufferDescriptor`.
//!
//! ```text
//!   0                         capacity                                  capacity + 128
//!   +-------------------------+-----------+--------+--------+-----------+
//!   | records                 | intent    | tail   | latest | (unused)  |
//!   +-------------------------+-----------+--------+--------+-----------+
//!     from the trailer's start: 0           8        16       24          128
//! ```
//!
//! Each field of the trailer is one word of 64 bits. It is a position, which is a running count of bytes. The three
//! positions are the end of the transmission that is being made, the end of the last transmission, and the start of the
//! last record.

/// The smallest capacity, in bytes.
pub const MIN_CAPACITY: u32 = 256;

/// The greatest capacity, in bytes.
pub const MAX_CAPACITY: u32 = 1 << 24;

/// The byte offset of the tail intent in the trailer. The tail intent is the end of the transmission that is being
/// made.
pub const TAIL_INTENT_COUNTER_OFFSET: usize = 0;

/// The byte offset of the tail in the trailer. The tail is the end of the last transmission.
pub const TAIL_COUNTER_OFFSET: usize = 8;

/// The byte offset of latest in the trailer. Latest is the start of the last record.
pub const LATEST_COUNTER_OFFSET: usize = 16;

/// The length of the trailer, in bytes.
pub const TRAILER_LENGTH: usize = 128;

/// The index of the word of the tail intent, from the trailer's start.
pub const TAIL_INTENT_COUNTER_WORD: usize = TAIL_INTENT_COUNTER_OFFSET / 8;

/// The index of the word of the tail, from the trailer's start.
pub const TAIL_COUNTER_WORD: usize = TAIL_COUNTER_OFFSET / 8;

/// The index of the word of latest, from the trailer's start.
pub const LATEST_COUNTER_WORD: usize = LATEST_COUNTER_OFFSET / 8;

/// The number of words of the trailer.
pub const TRAILER_WORDS: usize = TRAILER_LENGTH / 8;
