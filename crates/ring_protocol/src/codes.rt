//! The reasons why commands are refused, and the numbers of these reasons in replies.

ghost use Rattle.std.specs.Prelude.{◌≡◌, pos};
ghost use Rattle.ring_counters.specs.Codes.{allocate_code, id_code};
ghost use Rattle.ring_protocol.specs.Codes.{IsNamed, bad_code, bad_correlation, number_of};
ghost use Rattle.ring_protocol.specs.Codes.{of_allocate, of_bad, of_bad_owner, of_id};

use crate::fault::Bad;
use ring_counters::{AllocateRefused, BadOwner, IdFault};
use ring_layout::refusal_codes::{
    BAD_ID, BAD_OWNER, KEY_TOO_LONG, LABEL_NOT_ASCII, LABEL_TOO_LONG, MALFORMED, NO_FREE_COUNTER,
    NOT_ALLOCATED, UNKNOWN_TYPE,
};
use std::fmt;
use thiserror::Error;

/// The reason why the conductor refused a command. `Reply::Refused` has the number of the reason. `try_from` makes the
/// reason from this number.
#[derive(Clone, Copy, Debug, PartialEq, Eq)]
pub enum RefusalCode {
    /// The key has more than 112 bytes.
    KeyTooLong,
    /// The label has more than 380 bytes.
    LabelTooLong,
    /// The label has a byte of 128 or more.
    LabelNotAscii,
    /// Every id was used, and the deadline of no freed id has passed.
    NoFreeCounter,
    /// The id is not below the number of counters.
    BadId,
    /// No counter with the id is in use.
    NotAllocated,
    /// The type id is one of a command, but the body is not an encoding of such a command.
    Malformed,
    /// No command has this type id.
    UnknownType,
    /// The owner is 0, which means that there is no owner.
    BadOwner,
}

/// A number that no refusal has.
#[derive(Clone, Copy, Debug, PartialEq, Eq, Error)]
#[error("no refusal has the number {number}")]
pub struct UnknownCode {
    pub number: i32,
}

impl RefusalCode {
    /// Returns the number that a reply gives for this reason.
    pub fn number(self) -> i32
        ensures { result ≡ number_of self }
    {
        match self {
            RefusalCode::KeyTooLong => KEY_TOO_LONG,
            RefusalCode::LabelTooLong => LABEL_TOO_LONG,
            RefusalCode::LabelNotAscii => LABEL_NOT_ASCII,
            RefusalCode::NoFreeCounter => NO_FREE_COUNTER,
            RefusalCode::BadId => BAD_ID,
            RefusalCode::NotAllocated => NOT_ALLOCATED,
            RefusalCode::Malformed => MALFORMED,
            RefusalCode::UnknownType => UNKNOWN_TYPE,
            RefusalCode::BadOwner => BAD_OWNER,
        }
    }
}

/// Writes the number and the name, as `16 KeyTooLong`.
impl fmt::Display for RefusalCode {
    fn fmt<W: fmt::Write>(&self, f: &mut fmt::Formatter<W>) -> fmt::Result {
        write!(f, "{} {:?}", self.number(), self)
    }
}

/// Returns `UnknownCode` if no refusal has this number.
impl TryFrom<i32> for RefusalCode {
    type Error = UnknownCode;

    ghost try_from_gives = { IsNamed };

    fn try_from(number: i32) -> Result<Self, UnknownCode> {
        match number {
            KEY_TOO_LONG => Ok(RefusalCode::KeyTooLong),
            LABEL_TOO_LONG => Ok(RefusalCode::LabelTooLong),
            LABEL_NOT_ASCII => Ok(RefusalCode::LabelNotAscii),
            NO_FREE_COUNTER => Ok(RefusalCode::NoFreeCounter),
            BAD_ID => Ok(RefusalCode::BadId),
            NOT_ALLOCATED => Ok(RefusalCode::NotAllocated),
            MALFORMED => Ok(RefusalCode::Malformed),
            UNKNOWN_TYPE => Ok(RefusalCode::UnknownType),
            BAD_OWNER => Ok(RefusalCode::BadOwner),
            _ => Err(UnknownCode { number }),
        }
    }
}

impl From<AllocateRefused> for RefusalCode {
    ghost from_gives = { λ fault code. (code ≡ of_allocate fault) × (number_of code ≡ allocate_code fault) };

    fn from(fault: AllocateRefused) -> Self {
        match fault {
            AllocateRefused::KeyTooLong => RefusalCode::KeyTooLong,
            AllocateRefused::LabelTooLong => RefusalCode::LabelTooLong,
            AllocateRefused::LabelNotAscii => RefusalCode::LabelNotAscii,
            AllocateRefused::NoFreeCounter => RefusalCode::NoFreeCounter,
        }
    }
}

impl From<IdFault> for RefusalCode {
    ghost from_gives = { λ fault code. (code ≡ of_id fault) × (number_of code ≡ id_code fault) };

    fn from(fault: IdFault) -> Self {
        match fault {
            IdFault::BadId => RefusalCode::BadId,
            IdFault::NotAllocated => RefusalCode::NotAllocated,
        }
    }
}

impl From<BadOwner> for RefusalCode {
    ghost from_gives = { λ _ code. code ≡ of_bad_owner };

    fn from(_fault: BadOwner) -> Self {
        RefusalCode::BadOwner
    }
}

impl From<Bad> for RefusalCode {
    ghost from_gives = { λ fault code. code ≡ of_bad fault };

    fn from(fault: Bad) -> Self {
        match fault {
            Bad::Malformed { .. } => RefusalCode::Malformed,
            Bad::UnknownType { .. } => RefusalCode::UnknownType,
        }
    }
}

impl Bad {
    /// Returns the number of the fault.
    pub fn code(self) -> i32
        ensures { result ≡ bad_code self }
    {
        RefusalCode::from(self).number()
    }

    /// Returns the correlation id of the reply.
    pub fn correlation(self) -> u64
        ensures { result ≡ bad_correlation self }
    {
        match self {
            Bad::Malformed { correlation } | Bad::UnknownType { correlation } => correlation,
        }
    }
}
