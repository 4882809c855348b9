//! The positions of a ring, and what two of them and a read between them show.
ghost use Rattle.std.specs.Prelude.{◌≡◌, ◌↔◌, ℕ, ◌-◌};
ghost use Rattle.ring_words.specs.Standing.{IsBlockedAt, IsEmpty};
ghost use Rattle.ring_words.specs.declared.positions.Standing.TheVariants.{Blocked, Empty, Moving};

use crate::read::end::{ReadEnd, Stop};

/// The positions of a ring, as running byte counts: the head, up to which messages were taken, and the tail, up to
/// which room is claimed.
#[derive(Clone, Copy, Debug, PartialEq, Eq)]
pub struct Positions {
    pub head: u64,
    pub tail: u64,
}

impl Positions {
    /// Returns the bytes from the head to the tail, padding included: what is claimed and not taken yet. In a shared
    /// ring the tail is loaded after the head, so the result may be more than there was at any one moment.
    pub fn used(&self) -> u64
        ensures { result ≡ self.now.tail - self.now.head }
    {
        self.tail.saturating_sub(self.head)
    }
}

/// Why a read showed no message, as far as the loads show.
#[derive(Clone, Copy, Debug, PartialEq, Eq)]
pub enum Standing {
    /// Nothing is claimed after the head.
    Empty,
    /// A claim was made at this head before the read, and was not settled when the read got there. Whether its producer
    /// is slow or lost is for the caller to judge, by time.
    Blocked { head: u64 },
    /// The read passed something, or may find something if it is repeated.
    Moving,
}

impl ReadEnd {
    /// Returns what a read shows together with the positions loaded before and after it. It is exact for what was
    /// loaded if no other thread reads the ring. It only computes.
    pub fn standing(&self, before: Positions, after: Positions) -> Standing
        ensures empty { result ≡ Empty ↔ IsEmpty before self.now after }
        ensures blocked { (head : ℕ) → result ≡ Blocked head ↔ IsBlockedAt before self.now after head }
    {
        let head = before.head;
        if self.stopped != Stop::Unpublished || self.bytes > 0 || after.head != head {
            return Standing::Moving;
        }
        if after.tail <= head {
            return Standing::Empty;
        }
        if before.tail > head {
            Standing::Blocked { head }
        } else {
            Standing::Moving
        }
    }
}
