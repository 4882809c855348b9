//! The number of each refusal, which texts, replies and exports to C use. No two refusals have the same number. A
//! refusal that several calls return has the same number everywhere.

/// The capacity is not allowed for a ring or a broadcast buffer.
pub const BAD_CAPACITY: i32 = 1;

/// A start is not a multiple of the capacity, or is above 2^62.
pub const BAD_START: i32 = 2;

/// Out of memory.
pub const OUT_OF_MEMORY: i32 = 3;

/// A type id is below 1.
pub const BAD_TYPE: i32 = 4;

/// A message has more than an eighth of the capacity.
pub const TOO_LONG: i32 = 5;

/// A record would end above 2^62.
pub const POSITION_LIMIT: i32 = 6;

/// A record does not fit after the head.
pub const INSUFFICIENT_CAPACITY: i32 = 7;

/// Another producer was faster.
pub const CONTENDED: i32 = 8;

/// Bytes are not inside a claim.
pub const PUT_RANGE: i32 = 9;

/// Claims are open.
pub const CLAIMS_OPEN: i32 = 10;

/// Other producers have shares.
pub const PRODUCERS_OUT: i32 = 11;

/// One share is left, and its holder needs it.
pub const NO_SHARES: i32 = 12;

/// A receiver was overtaken.
pub const LAPPED: i32 = 13;

/// Receivers have shares.
pub const RECEIVERS_OUT: i32 = 14;

/// A number of counters is 0 or above 4,096.
pub const BAD_COUNT: i32 = 15;

/// A key has more than 112 bytes.
pub const KEY_TOO_LONG: i32 = 16;

/// A label has more than 380 bytes.
pub const LABEL_TOO_LONG: i32 = 17;

/// A label has a byte of 128 or more.
pub const LABEL_NOT_ASCII: i32 = 18;

/// Every id was used, and the deadline of no freed id has passed.
pub const NO_FREE_COUNTER: i32 = 19;

/// An id is not below the number of counters.
pub const BAD_ID: i32 = 20;

/// No counter with an id is in use.
pub const NOT_ALLOCATED: i32 = 21;

/// A body is not an encoding of its command.
pub const MALFORMED: i32 = 22;

/// No command has this type id.
pub const UNKNOWN_TYPE: i32 = 23;

/// A line is not a line of a scenario.
pub const BAD_LINE: i32 = 25;

/// A number of a storm's plan is not allowed.
pub const BAD_PLAN: i32 = 26;

/// A wait took the number of turns that it was allowed.
pub const TURNS_SPENT: i32 = 27;

/// The owner is 0, which means that there is no owner.
pub const BAD_OWNER: i32 = 28;
