//! The reasons why a call of a shared ring refuses.
ghost use Rattle.std.specs.Prelude.{◌≡◌};
ghost use Rattle.ring_rings.specs.{declared.fault.TryFault.TheVariants.Refused, Claiming.try_code, Closing.close_code};

use ring_layout::refusal_codes::{CLAIMS_OPEN, CONTENDED, PRODUCERS_OUT};
use ring_words::ClaimFault;
use thiserror::Error;

/// The reason why one try of a claim was refused.
#[derive(Clone, Copy, Debug, PartialEq, Eq, Error)]
pub enum TryFault {
    /// The ring refuses the claim.
    #[error("{0}")]
    Refused(ClaimFault),
    /// Another producer was faster. `tail` was loaded first, and then `seen`, which is greater.
    #[error("{} Contended tail {tail} seen {seen}", self.code())]
    Contended { tail: u64, seen: u64 },
}

impl TryFault {
    /// Returns the number of the refusal.
    pub fn code(self) -> i32
        ensures { result ≡ try_code self }
    {
        match self {
            TryFault::Refused(fault) => fault.code(),
            TryFault::Contended { tail: _, seen: _ } => CONTENDED,
        }
    }
}

impl From<ClaimFault> for TryFault {
    ghost from_gives = { λ fault e. e ≡ Refused fault };

    fn from(fault: ClaimFault) -> Self {
        TryFault::Refused(fault)
    }
}

/// The reason why a ring was not closed.
#[derive(Clone, Copy, Debug, PartialEq, Eq, Error)]
pub enum CloseFault {
    /// This many claims of this producer are open.
    #[error("{} ClaimsOpen {claims}", self.code())]
    ClaimsOpen { claims: u64 },
    /// Other producers have this many shares.
    #[error("{} ProducersOut {shares}", self.code())]
    ProducersOut { shares: u32 },
}

impl CloseFault {
    /// Returns the number of the refusal.
    pub fn code(self) -> i32
        ensures { result ≡ close_code self }
    {
        match self {
            CloseFault::ClaimsOpen { claims: _ } => CLAIMS_OPEN,
            CloseFault::ProducersOut { shares: _ } => PRODUCERS_OUT,
        }
    }
}
