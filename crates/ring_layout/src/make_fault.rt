//! The reasons why a ring or a broadcast buffer is not made.
ghost use Rattle.std.specs.Prelude.{◌≡◌};
ghost use Rattle.ring_layout.specs.Refusals.{make_code};

use crate::refusal_codes::{BAD_CAPACITY, BAD_START, OUT_OF_MEMORY};
use thiserror::Error;

/// The reason why a ring or a broadcast buffer could not be made.
#[derive(Clone, Copy, Debug, PartialEq, Eq, Error)]
pub enum MakeFault {
    /// The capacity is not a power of two, or is out of range. The range is 128 to 2^24 for a ring, and 256 to 2^24 for
    /// a broadcast buffer.
    #[error("{} BadCapacity", self.code())]
    BadCapacity,
    /// The start is not a multiple of the capacity, or is above 2^62.
    #[error("{} BadStart", self.code())]
    BadStart,
    /// Out of memory.
    #[error("{} OutOfMemory", self.code())]
    OutOfMemory,
}

impl MakeFault {
    /// Returns the number of the refusal.
    pub fn code(self) -> i32
        ensures { result ≡ make_code self }
    {
        match self {
            MakeFault::BadCapacity => BAD_CAPACITY,
            MakeFault::BadStart => BAD_START,
            MakeFault::OutOfMemory => OUT_OF_MEMORY,
        }
    }
}
