//! Why a call was not made, or not as it should be.

/// Why a try of a call failed.
#[derive(Clone, Copy, Debug, PartialEq, Eq)]
pub enum Failure {
    /// It was refused with `OutOfMemory`, and left everything unchanged.
    Refused,
    /// It gave another return value, or something had changed.
    Wrong,
}

impl From<ring_rings::MakeFault> for Failure {
    fn from(fault: ring_rings::MakeFault) -> Failure {
        match fault {
            ring_rings::MakeFault::OutOfMemory => Failure::Refused,
            _ => Failure::Wrong,
        }
    }
}

impl From<ring_board::SubscribeFault> for Failure {
    fn from(fault: ring_board::SubscribeFault) -> Failure {
        match fault {
            ring_board::SubscribeFault::OutOfMemory => Failure::Refused,
            ring_board::SubscribeFault::NoShares => Failure::Wrong,
        }
    }
}

impl From<ring_counters::MakeFault> for Failure {
    fn from(fault: ring_counters::MakeFault) -> Failure {
        match fault {
            ring_counters::MakeFault::OutOfMemory => Failure::Refused,
            ring_counters::MakeFault::BadCount => Failure::Wrong,
        }
    }
}

impl From<ring_conductor::StormFault> for Failure {
    fn from(fault: ring_conductor::StormFault) -> Failure {
        match fault {
            ring_conductor::StormFault::OutOfMemory => Failure::Refused,
            _ => Failure::Wrong,
        }
    }
}

/// The result of a call after which something was looked at that should not have changed.
pub fn where_kept<F: Into<Failure> + Drop>(
    answer: Result<(), F>,
    is_kept: bool,
) -> Result<(), Failure> {
    if is_kept {
        answer.map_err(F::into)
    } else {
        Err(Failure::Wrong)
    }
}
