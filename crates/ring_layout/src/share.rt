//! Shares, which are parts of the right to produce, to transmit, or to write values. All shares must be back before a
//! ring or a broadcast buffer is closed.
ghost use Rattle.std.specs.Prelude.{◌≡◌, ◌<◌, ◌↔◌, IsTrue, nat_lt, pos};

use crate::refusal_codes::NO_SHARES;
use thiserror::Error;

/// The number of shares of a ring, of a broadcast buffer, and of counters' values. At first the first producer, the
/// transmitter or the manager has all shares.
pub const ALL_SHARES: u32 = 1 << 16;

/// One share is left, and its holder needs it.
#[derive(Clone, Copy, Debug, PartialEq, Eq, Error)]
#[error("{} NoShares", self.code())]
pub struct NoShares;

impl NoShares {
    /// Returns the number of the refusal.
    pub fn code(self) -> i32
        ensures { result ≡ pos 12 }
    {
        NO_SHARES
    }
}

/// Tests whether a holder of this many shares can give one away. The holder must keep one share.
#[inline]
pub fn has_spare_share(shares: u32) -> bool
    ensures test { result ≡ nat_lt 1 shares }
    ensures spare { IsTrue result ↔ (1 < shares) }
{
    shares > 1
}
