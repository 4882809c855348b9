//! The lines that are printed for refusals.
ghost use Rattle.std.specs.Prelude.{◌≡◌, IfOk, List, string_bytes, ℕ};
ghost use Rattle.ring_scenario.specs.RefusalTexts.{claim_refused, id_refused, load_refused, memory_refused, put_refused, shares_refused, storm_refused, subscribe_refused, transmit_refused};

use ring_board::{SubscribeFault, TransmitFault};
use ring_counters::{BadId, IdFault, NoShares, OutOfMemory};
use ring_storm::StormFault;
use ring_words::{ClaimFault, PutRange};
use std::alloc::{AllocError, Global};

/// A fault that a line prints. Its `Display` prints the same, but its contract states no text.
pub trait Refusal {
    /// The line of the fault.
    ghost line: { Self → List ℕ };

    /// Returns the line of the fault.
    fn line(self, alloc: Global) -> Result<String, AllocError>
        ensures { IfOk result (λ text. string_bytes text ≡ line self) };
}

impl Refusal for ClaimFault {
    ghost line = { claim_refused };

    fn line(self, alloc: Global) -> Result<String, AllocError> {
        let code = self.code();
        match self {
            ClaimFault::BadType { type_id } => format!(in alloc;
                "refused {code} BadType {type_id}\n"
            ),
            ClaimFault::TooLong { len, max } => format!(in alloc;
                "refused {code} TooLong {len} max {max}\n"
            ),
            ClaimFault::PositionLimit { tail } => format!(in alloc;
                "refused {code} PositionLimit tail {tail}\n"
            ),
            ClaimFault::InsufficientCapacity { tail, head } => format!(in alloc;
                "refused {code} InsufficientCapacity tail {tail} head {head}\n"
            ),
        }
    }
}

impl Refusal for PutRange {
    ghost line = { put_refused };

    fn line(self, alloc: Global) -> Result<String, AllocError> {
        format!(in alloc; "refused {} PutRange\n", self.code())
    }
}

impl Refusal for TransmitFault {
    ghost line = { transmit_refused };

    fn line(self, alloc: Global) -> Result<String, AllocError> {
        let code = self.code();
        match self {
            TransmitFault::BadType { type_id } => format!(in alloc;
                "refused {code} BadType {type_id}\n"
            ),
            TransmitFault::TooLong { len, max } => format!(in alloc;
                "refused {code} TooLong {len} max {max}\n"
            ),
            TransmitFault::PositionLimit { tail } => format!(in alloc;
                "refused {code} PositionLimit tail {tail}\n"
            ),
        }
    }
}

impl Refusal for SubscribeFault {
    ghost line = { subscribe_refused };

    fn line(self, alloc: Global) -> Result<String, AllocError> {
        let code = self.code();
        match self {
            SubscribeFault::NoShares => format!(in alloc; "refused {code} NoShares\n"),
            SubscribeFault::OutOfMemory => format!(in alloc; "refused {code} OutOfMemory\n"),
        }
    }
}

impl Refusal for NoShares {
    ghost line = { shares_refused };

    fn line(self, alloc: Global) -> Result<String, AllocError> {
        format!(in alloc; "refused {} NoShares\n", self.code())
    }
}

impl Refusal for OutOfMemory {
    ghost line = { memory_refused };

    fn line(self, alloc: Global) -> Result<String, AllocError> {
        format!(in alloc; "refused {} OutOfMemory\n", self.code())
    }
}

impl Refusal for IdFault {
    ghost line = { id_refused };

    fn line(self, alloc: Global) -> Result<String, AllocError> {
        let code = self.code();
        match self {
            IdFault::BadId => format!(in alloc; "refused {code} BadId\n"),
            IdFault::NotAllocated => format!(in alloc; "refused {code} NotAllocated\n"),
        }
    }
}

impl Refusal for BadId {
    ghost line = { load_refused };

    fn line(self, alloc: Global) -> Result<String, AllocError> {
        format!(in alloc; "refused {} BadId\n", self.code())
    }
}

impl Refusal for StormFault {
    ghost line = { storm_refused };

    fn line(self, alloc: Global) -> Result<String, AllocError> {
        let code = self.code();
        match self {
            StormFault::BadPlan => format!(in alloc; "refused {code} BadPlan\n"),
            StormFault::OutOfMemory => format!(in alloc; "refused {code} OutOfMemory\n"),
            StormFault::TurnsSpent => format!(in alloc; "refused {code} TurnsSpent\n"),
        }
    }
}
