//! The kinds of the marks in the words of a ring whose messages are in slots.
//!
//! The word at the index of a position is a *mark* if it is greater than the position. A mark is the position at which
//! the record or the padding ends, plus a kind. Positions are multiples of 8, so the kind is in the low three bits.

/// The kind of a committed record.
pub const COMMITTED_KIND: u64 = 0;

/// The kind of padding.
pub const PADDING_KIND: u64 = 1;

/// The kind of an open claim.
pub const OPEN_KIND: u64 = 2;

/// The kind of an aborted record.
pub const ABORTED_KIND: u64 = 3;
