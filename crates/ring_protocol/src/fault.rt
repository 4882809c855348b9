//! The reasons why bytes are not a message of the protocol.

use crate::codes::RefusalCode;
use std::error::Error;
use std::fmt;

/// The reason why a type id and a body are not a message. The correlation id is that of the reply. It is the first 8
/// bytes of the body, or `u64::MAX` if the body is shorter.
#[derive(Clone, Copy, Debug, PartialEq, Eq)]
pub enum Bad {
    /// The type id is known, but the body is not an encoding of such a message.
    Malformed { correlation: u64 },
    /// The type id is not known.
    UnknownType { correlation: u64 },
}

/// Writes the number and the name of the refusal.
impl fmt::Display for Bad {
    fn fmt<W: fmt::Write>(&self, f: &mut fmt::Formatter<W>) -> fmt::Result {
        write!(f, "{}", RefusalCode::from(*self))
    }
}

impl Error for Bad {}
