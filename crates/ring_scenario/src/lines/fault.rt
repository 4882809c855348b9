//! The reasons why a line is not executed.
ghost use Rattle.std.specs.Prelude.{◌≡◌, ◌↔◌};

use hex::FromHexError;
use std::alloc::{AllocError, AllocFailed};
use thiserror::Error;

/// The reason why a line is not executed.
#[derive(Clone, Copy, Debug, PartialEq, Eq)]
pub enum LineFault {
    /// The text is not a line of a scenario, for this reason.
    Bad(LineError),
    /// Out of memory.
    OutOfMemory,
}

/// The reason why a text is not a line of a scenario.
#[derive(Clone, Copy, Debug, PartialEq, Eq, Error)]
pub enum LineError {
    /// The first word names no call.
    #[error("no call has this name")]
    NoSuchCall,
    /// The call takes more words.
    #[error("a word is missing")]
    MissingWord,
    /// The call takes fewer words.
    #[error("there is a word too many")]
    ExtraWord,
    /// A word must be decimal digits. If negative numbers are allowed, it may be `-` and decimal digits.
    #[error("a word is not a number")]
    NotANumber,
    /// A word is a number that is not allowed there.
    #[error("a number is out of its range")]
    OutOfRange,
    /// A word must be hexadecimal digits, two for each byte, or `-`.
    #[error("a word is not hexadecimal digits, two for each byte")]
    NotHexadecimal,
    /// A word must be letters of actions, or `-`.
    #[error("a letter is not a, b, c or n")]
    NotALetter,
    /// The line is bad for one of the reasons above, and its last byte is a carriage return. A carriage return belongs
    /// to a word.
    #[error("the line ends in a carriage return")]
    CarriageReturn,
    /// No open claim, receiver, listener or watcher has this number.
    #[error("nothing is held under this number")]
    NotHeld,
    /// The command is longer than the runner's buffer.
    #[error("the command has more than 4096 bytes")]
    CommandTooLong,
    /// Only comments may follow the line `end`.
    #[error("a line follows `end`")]
    AfterEnd,
    /// The scenario has no line `end`.
    #[error("the scenario has no `end`")]
    NoEnd,
}

impl LineFault {
    /// Returns the fault of a line that has this text. If the line is bad and ends in a carriage return, the fault says
    /// so.
    pub(super) fn in_text(self, text: &[u8]) -> LineFault
        ensures { (result ≡ LineFault.OutOfMemory) ↔ (self ≡ LineFault.OutOfMemory) }
    {
        match self {
            LineFault::Bad(_) if text.last() == Some(&b'\r') => LineFault::Bad(
                LineError::CarriageReturn,
            ),
            fault => fault,
        }
    }
}

impl From<AllocError> for LineFault {
    ghost use Rattle.ring_scenario.specs.declared.lines.fault.LineFault.TheVariants.{OutOfMemory};
    ghost use Rattle.std.specs.Prelude.{◌≡◌};

    ghost from_gives = { λ _ fault. fault ≡ OutOfMemory };

    fn from(_error: AllocError) -> LineFault {
        LineFault::OutOfMemory
    }
}

impl<T: Drop> From<AllocFailed<T>> for LineFault {
    ghost use Rattle.ring_scenario.specs.declared.lines.fault.LineFault.TheVariants.{OutOfMemory};
    ghost use Rattle.std.specs.Prelude.{◌≡◌};

    ghost from_gives = { λ _ fault. fault ≡ OutOfMemory };

    fn from(_error: AllocFailed<T>) -> LineFault {
        LineFault::OutOfMemory
    }
}

impl From<FromHexError> for LineFault {
    ghost use Rattle.hex.specs.declared.error.FromHexError.TheVariants.{OutOfMemory as NoMemory};
    ghost use Rattle.ring_scenario.specs.declared.lines.fault.LineError.TheVariants.{NotHexadecimal};
    ghost use Rattle.ring_scenario.specs.declared.lines.fault.LineFault.TheVariants.{Bad, OutOfMemory};
    ghost use Rattle.std.specs.Prelude.{◌≡◌, ◌≢◌};

    ghost from_gives = { λ error fault.
        (error ≡ NoMemory → fault ≡ OutOfMemory) × (error ≢ NoMemory → fault ≡ Bad NotHexadecimal) };

    fn from(error: FromHexError) -> LineFault {
        match error {
            FromHexError::OutOfMemory => LineFault::OutOfMemory,
            _ => LineFault::Bad(LineError::NotHexadecimal),
        }
    }
}
