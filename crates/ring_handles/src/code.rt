//! The codes that exports return: 0, the number of a refusal, or what only handles refuse or say, from 100 on.

pub use ring_layout::refusal_codes::{
    BAD_CAPACITY, BAD_COUNT, BAD_ID, BAD_OWNER, BAD_TYPE, CLAIMS_OPEN, LAPPED, NO_SHARES,
    NOT_ALLOCATED, OUT_OF_MEMORY, PRODUCERS_OUT, PUT_RANGE, RECEIVERS_OUT, TOO_LONG,
};

/// The call did what it says.
pub const DONE: i32 = 0;
/// The handle is empty.
pub const NO_HANDLE: i32 = 100;
/// The handle is of another kind.
pub const WRONG_HANDLE: i32 = 101;
/// The handle that was to be filled is not empty.
pub const HANDLE_IN_USE: i32 = 102;
/// No claim of this number is open.
pub const NO_CLAIM: i32 = 104;
/// Nothing is there yet.
pub const NO_MESSAGE: i32 = 105;
/// The message is longer than the buffer, and stays.
pub const SHORT_BUFFER: i32 = 106;
/// The moment is above 2^62.
pub const BAD_MOMENT: i32 = 107;
/// The two handles are of two rings, broadcast buffers, conductors, sets of counters or shared counters.
pub const OTHER_RING: i32 = 108;
/// What came is the reply to another command, or none.
pub const OTHER_REPLY: i32 = 109;
/// Another handle holds what was to be closed.
pub const IN_USE: i32 = 110;
/// The memory is not that of a ring.
pub const NO_IMAGE: i32 = 113;
/// The head or the tail of the ring is not a multiple of 8.
pub const UNALIGNED_POSITION: i32 = 114;
/// The tail of the ring is before the head.
pub const TAIL_BEFORE_HEAD: i32 = 115;
/// The tail of the ring is more than the capacity after the head.
pub const TAIL_TOO_FAR: i32 = 116;
/// A header has a length that no record has there.
pub const BAD_HEADER_LENGTH: i32 = 117;
/// A header has a type id that no record has.
pub const BAD_HEADER_TYPE: i32 = 118;
