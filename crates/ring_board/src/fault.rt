//! The reasons why calls refuse.
ghost use Rattle.std.specs.Prelude.{◌≡◌, pos};
ghost use Rattle.ring_board.specs.Refusals.{subscribe_code, transmit_code};

use ring_layout::refusal_codes::{
    BAD_TYPE, LAPPED, NO_SHARES, OUT_OF_MEMORY, POSITION_LIMIT, RECEIVERS_OUT, TOO_LONG,
};
use thiserror::Error;

/// The reason why a message was not transmitted.
#[derive(Clone, Copy, Debug, PartialEq, Eq, Error)]
pub enum TransmitFault {
    /// The type id is below 1.
    #[error("{} BadType {type_id}", self.code())]
    BadType { type_id: i32 },
    /// The body has more bytes than an eighth of the capacity.
    #[error("{} TooLong {len} max {max}", self.code())]
    TooLong { len: usize, max: u32 },
    /// The record would end above 2^62. `tail` is the tail of the transmitter.
    #[error("{} PositionLimit tail {tail}", self.code())]
    PositionLimit { tail: u64 },
}

impl TransmitFault {
    /// Returns the number of the refusal.
    pub fn code(self) -> i32
        ensures { result ≡ transmit_code self }
    {
        match self {
            TransmitFault::BadType { type_id: _ } => BAD_TYPE,
            TransmitFault::TooLong { len: _, max: _ } => TOO_LONG,
            TransmitFault::PositionLimit { tail: _ } => POSITION_LIMIT,
        }
    }
}

/// The reason why a copying receiver was not made.
#[derive(Clone, Copy, Debug, PartialEq, Eq, Error)]
pub enum SubscribeFault {
    /// The transmitter has one share left, and needs it.
    #[error("{} NoShares", self.code())]
    NoShares,
    /// Out of memory.
    #[error("{} OutOfMemory", self.code())]
    OutOfMemory,
}

impl SubscribeFault {
    /// Returns the number of the refusal.
    pub fn code(self) -> i32
        ensures { result ≡ subscribe_code self }
    {
        match self {
            SubscribeFault::NoShares => NO_SHARES,
            SubscribeFault::OutOfMemory => OUT_OF_MEMORY,
        }
    }
}

/// The receiver was lapped for the `count`-th time, at `place`. The intent `intent` showed this. The receiver missed as
/// many bytes as its own `place` after the call is above this `place`.
#[derive(Clone, Copy, Debug, PartialEq, Eq, Error)]
#[error("{} Lapped {count} place {place} intent {intent}", self.code())]
pub struct Lapped {
    pub count: u64,
    pub place: u64,
    pub intent: u64,
}

impl Lapped {
    /// Returns the number of the refusal.
    pub fn code(self) -> i32
        ensures { result ≡ pos 13 }
    {
        LAPPED
    }
}

/// The number of shares that are with receivers.
#[derive(Clone, Copy, Debug, PartialEq, Eq, Error)]
#[error("{} ReceiversOut {receivers}", self.code())]
pub struct ReceiversOut {
    pub receivers: u32,
}

impl ReceiversOut {
    /// Returns the number of the refusal.
    pub fn code(self) -> i32
        ensures { result ≡ pos 14 }
    {
        RECEIVERS_OUT
    }
}
