//! Why a text is no run.

use std::alloc::{AllocError, AllocFailed};
use thiserror::Error;

/// Why a line is not one of a recorded run.
#[derive(Clone, Copy, Debug, PartialEq, Eq, Error)]
pub enum LineFault {
    /// The first line that is neither empty nor a comment does not say what was recorded.
    #[error("a recorded run begins with a line `queue`, `broadcast` or `ring`")]
    NoKind,
    /// No line begins with this word.
    #[error("no line begins with this word")]
    UnknownWord,
    /// A word is missing.
    #[error("a word is missing")]
    TooFewWords,
    /// There is a word too many.
    #[error("there is a word too many")]
    TooManyWords,
    /// A word is not a number.
    #[error("a word is not a number in decimal digits")]
    NotANumber,
    /// A number is too large.
    #[error("a number is too large: a producer or a receiver is at most 65535, a type id at most 2147483647, a length at most 4294967295, another number at most 18446744073709551615")]
    TooLarge,
    /// A ring cannot have this capacity.
    #[error("a capacity is a power of two from 128 to 1073741824")]
    BadCapacity,
    /// A ring cannot begin at this position.
    #[error("a start is a multiple of 8, and at most 4611686018427387904")]
    BadStart,
    /// A message that was transmitted has not the next number.
    #[error("the messages that were transmitted have the numbers 0, 1, 2 and so on, without a gap")]
    NotNext,
    /// Memory ran out.
    #[error("out of memory")]
    OutOfMemory,
}

/// The line of a text that is not one of a recorded run, counted from 1, and why.
#[derive(Clone, Copy, Debug, PartialEq, Eq)]
pub struct BadLine {
    pub line: usize,
    pub fault: LineFault,
}

impl From<AllocError> for LineFault {
    fn from(_error: AllocError) -> LineFault {
        LineFault::OutOfMemory
    }
}

impl<T: Drop> From<AllocFailed<T>> for LineFault {
    fn from(_error: AllocFailed<T>) -> LineFault {
        LineFault::OutOfMemory
    }
}
