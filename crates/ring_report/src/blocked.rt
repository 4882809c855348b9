//! The first record at which the consumer of a ring stops, and whether it was blocked there.
ghost use Rattle.std.specs.Prelude.{◌≡◌, true, Some, IfSome, is_some};

use crate::report::Report;
use std::alloc::AllocError;
use std::fmt::Write;

/// An open claim.
#[derive(Clone, Copy, Debug, PartialEq, Eq)]
pub struct OpenClaim {
    /// The type id of the claim.
    pub type_id: i32,
    /// The number of bytes of the header and the message.
    pub length: u32,
}

/// The first record at which the consumer of a ring stops.
#[derive(Clone, Copy, Debug, PartialEq, Eq)]
pub struct Stop {
    /// The position of the record, in bytes.
    pub place: u64,
    /// The claim that is open at this position, or `None` if its header is not yet stored.
    pub claim: Option<OpenClaim>,
}

/// The state of the consumer of a ring, as one look shows it. If two looks show the same state, the consumer was
/// blocked between them. The head did not move, and the first record that is not settled was the same.
#[derive(Clone, Copy, Debug, PartialEq, Eq)]
pub struct Sight {
    head: u64,
    stop: Stop,
}

/// Adds the record at which the consumer stops, and the time for which it was blocked there.
fn push_stop(text: &mut String, stop: Stop, blocked_ms: Option<u64>) -> Result<(), AllocError> {
    let place = stop.place;
    match blocked_ms {
        Some(millis) => write!(text, "; blocked for at least {millis} ms at {place}")?,
        None => write!(text, "; a read stops at {place}")?,
    }
    match stop.claim {
        Some(OpenClaim { type_id, length }) => {
            write!(text, " (open, type {type_id}, length {length})")
        }
        None => text.push_str(" (header not yet stored)"),
    }
}

impl Report {
    /// Returns the state of the consumer of a ring, as this look shows it. Returns `None` if nothing stops a read, or
    /// if the positions changed while the memory was read.
    pub fn sight(&self) -> Option<Sight>
        ensures settled { IfSome result (λ _. self.now.is_settled ≡ true) }
        ensures stops { IfSome result (λ _. is_some self.now.stop ≡ true) }
    {
        let (stop, head) = (self.stop?, self.number("head")?);
        if self.is_settled {
            Some(Sight { head, stop })
        } else {
            None
        }
    }

    /// Notes that a look this many milliseconds earlier showed the same state, so that the consumer was blocked
    /// meanwhile.
    pub fn note_blocked(&mut self, millis: u64)
        ensures { self.new ≡ record self.old { blocked_ms = Some millis } }
    {
        self.blocked_ms = Some(millis);
    }

    /// Tests whether two looks showed that the consumer is blocked.
    pub fn is_blocked(&self) -> bool
        ensures { result ≡ is_some self.now.blocked_ms }
    {
        self.blocked_ms.is_some()
    }

    /// Adds one line without its end. The line has the number of records of each kind, the place at which a read stops
    /// or was blocked, and whether the positions changed all the time.
    pub fn push_summary(&self, text: &mut String) -> Result<(), AllocError> {
        text.push_str(self.summary.as_str())?;
        if let Some(stop) = self.stop {
            push_stop(text, stop, self.blocked_ms)?;
        }
        if !self.is_settled {
            text.push_str("; positions changed during each of 3 reads")?;
        }
        Ok(())
    }
}
