//! The reasons why calls refuse.
ghost use Rattle.std.specs.Prelude.{◌≡◌, pos};
ghost use Rattle.ring_counters.specs.Codes.{allocate_code, id_code, make_code};

use ring_layout::refusal_codes::{
    BAD_COUNT, BAD_ID, BAD_OWNER, KEY_TOO_LONG, LABEL_NOT_ASCII, LABEL_TOO_LONG, NO_FREE_COUNTER,
    NOT_ALLOCATED, OUT_OF_MEMORY,
};
use thiserror::Error;

/// The reason why no counters could be made.
#[derive(Clone, Copy, Debug, PartialEq, Eq, Error)]
pub enum MakeFault {
    /// The number of counters is 0 or above 4,096.
    #[error("{} BadCount", self.code())]
    BadCount,
    /// Out of memory.
    #[error("{} OutOfMemory", self.code())]
    OutOfMemory,
}

impl MakeFault {
    /// Returns the number of the refusal.
    pub fn code(self) -> i32
        ensures { result ≡ make_code self }
    {
        match self {
            MakeFault::BadCount => BAD_COUNT,
            MakeFault::OutOfMemory => OUT_OF_MEMORY,
        }
    }
}

/// The reason why no counter was allocated.
#[derive(Clone, Copy, Debug, PartialEq, Eq, Error)]
pub enum AllocateRefused {
    /// The key has more than 112 bytes.
    #[error("{} KeyTooLong", self.code())]
    KeyTooLong,
    /// The label has more than 380 bytes.
    #[error("{} LabelTooLong", self.code())]
    LabelTooLong,
    /// The label has a byte of 128 or more.
    #[error("{} LabelNotAscii", self.code())]
    LabelNotAscii,
    /// Every id was used, and the deadline of no freed id has passed.
    #[error("{} NoFreeCounter", self.code())]
    NoFreeCounter,
}

impl AllocateRefused {
    /// Returns the number of the refusal.
    pub fn code(self) -> i32
        ensures { result ≡ allocate_code self }
    {
        match self {
            AllocateRefused::KeyTooLong => KEY_TOO_LONG,
            AllocateRefused::LabelTooLong => LABEL_TOO_LONG,
            AllocateRefused::LabelNotAscii => LABEL_NOT_ASCII,
            AllocateRefused::NoFreeCounter => NO_FREE_COUNTER,
        }
    }
}

/// The reason why an id is refused.
#[derive(Clone, Copy, Debug, PartialEq, Eq, Error)]
pub enum IdFault {
    /// The id is not below the number of counters.
    #[error("{} BadId", self.code())]
    BadId,
    /// No counter in use has this id.
    #[error("{} NotAllocated", self.code())]
    NotAllocated,
}

impl IdFault {
    /// Returns the number of the refusal.
    pub fn code(self) -> i32
        ensures { result ≡ id_code self }
    {
        match self {
            IdFault::BadId => BAD_ID,
            IdFault::NotAllocated => NOT_ALLOCATED,
        }
    }
}

/// The id is not below the number of counters.
#[derive(Clone, Copy, Debug, PartialEq, Eq, Error)]
#[error("{} BadId", self.code())]
pub struct BadId;

impl BadId {
    /// Returns the number of the refusal.
    pub fn code(self) -> i32
        ensures { result ≡ pos 20 }
    {
        BAD_ID
    }
}

/// The owner is 0, which means that there is no owner.
#[derive(Clone, Copy, Debug, PartialEq, Eq, Error)]
#[error("{} BadOwner", self.code())]
pub struct BadOwner;

impl BadOwner {
    /// Returns the number of the refusal.
    pub fn code(self) -> i32
        ensures { result ≡ pos 28 }
    {
        BAD_OWNER
    }
}

/// Out of memory.
#[derive(Clone, Copy, Debug, PartialEq, Eq, Error)]
#[error("{} OutOfMemory", self.code())]
pub struct OutOfMemory;

impl OutOfMemory {
    /// Returns the number of the refusal.
    pub fn code(self) -> i32
        ensures { result ≡ pos 3 }
    {
        OUT_OF_MEMORY
    }
}
