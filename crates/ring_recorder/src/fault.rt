//! The reasons why nothing was recorded.
use ring_rings::{MakeFault, NoShares};
use std::alloc::{AllocError, AllocFailed};
use thiserror::Error;

/// The reason why nothing was recorded.
#[derive(Clone, Copy, Debug, Error)]
pub enum RecordFault {
    /// The command line is wrong.
    #[error("usage: ring_recorder words|slots CAPACITY PRODUCERS CLAIMS SEED")]
    BadWords,
    /// No ring has this capacity.
    #[error("there is no such ring")]
    NoRing,
    /// A call was refused that is never refused.
    #[error("a call was refused")]
    Refused,
    /// A write failed.
    #[error("output cannot be written")]
    OutputUnwritten,
    /// Memory ran out.
    #[error("out of memory")]
    OutOfMemory,
}

impl From<MakeFault> for RecordFault {
    fn from(_fault: MakeFault) -> RecordFault {
        RecordFault::NoRing
    }
}

impl From<NoShares> for RecordFault {
    fn from(_fault: NoShares) -> RecordFault {
        RecordFault::NoRing
    }
}

impl From<AllocError> for RecordFault {
    fn from(_error: AllocError) -> RecordFault {
        RecordFault::OutOfMemory
    }
}

impl<T: Drop> From<AllocFailed<T>> for RecordFault {
    fn from(_error: AllocFailed<T>) -> RecordFault {
        RecordFault::OutOfMemory
    }
}
