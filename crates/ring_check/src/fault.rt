//! The reasons why nothing was judged.
use ring_judge::{BadLine, LineFault};
use std::alloc::{AllocError, AllocFailed};
use std::io::ErrorKind;
use thiserror::Error;

/// The reason why nothing was judged.
#[derive(Clone, Copy, Debug, Error)]
pub enum CheckFault<'a> {
    /// The file cannot be read.
    #[error("cannot read {file:?}: {reason}")]
    Unread {
        file: &'a str,
        reason: &'static str,
    },
    /// A line is not one of a recorded run.
    #[error("{file:?}, line {line}: {fault}")]
    BadLine {
        file: &'a str,
        line: usize,
        fault: LineFault,
    },
    /// An argument cannot be read.
    #[error("an argument is not UTF-8")]
    NotUtf8,
    /// A write failed.
    #[error("output cannot be written")]
    OutputUnwritten,
    /// Memory ran out.
    #[error("out of memory")]
    OutOfMemory,
}

impl<'a> CheckFault<'a> {
    /// Returns the fault of a line. Out of memory is not a fault of a line.
    pub fn of_line(file: &'a str, bad: BadLine) -> Self {
        let BadLine { line, fault } = bad;
        match fault {
            LineFault::OutOfMemory => CheckFault::OutOfMemory,
            _ => CheckFault::BadLine { file, line, fault },
        }
    }

    /// Returns the fault of a file.
    pub fn of_file(file: &'a str, kind: ErrorKind) -> Self {
        let reason = match kind {
            ErrorKind::NotFound => "no such file",
            ErrorKind::PermissionDenied => "permission denied",
            ErrorKind::IsADirectory => "it is a folder",
            ErrorKind::OutOfMemory => return CheckFault::OutOfMemory,
            _ => "the system cannot read it",
        };
        CheckFault::Unread { file, reason }
    }
}

impl<'a> From<AllocError> for CheckFault<'a> {
    fn from(_error: AllocError) -> CheckFault<'a> {
        CheckFault::OutOfMemory
    }
}

impl<'a, T: Drop> From<AllocFailed<T>> for CheckFault<'a> {
    fn from(_error: AllocFailed<T>) -> CheckFault<'a> {
        CheckFault::OutOfMemory
    }
}
