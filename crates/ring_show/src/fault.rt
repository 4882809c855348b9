//! The reasons why nothing was shown.
use ring_report::{InputFault, Printable};
use std::alloc::{AllocError, AllocFailed};
use thiserror::Error;

/// The reason why nothing was shown.
#[derive(Clone, Copy, Debug, Error)]
pub enum ShowFault<'a> {
    /// No words were read.
    #[error("{0}")]
    Input(InputFault<'a>),
    /// The value of an option is not a number of bytes.
    #[error("--{option} {}: a number of bytes is decimal, or hexadecimal after 0x", Printable(value))]
    NotBytes { option: &'a str, value: &'a str },
    /// Bodies that are stored separately are to be read from standard input.
    #[error("--bodies-at: standard input has one section, so give a file")]
    BodiesOfInput,
    /// What is to be recovered is on standard input.
    #[error("recover reads a file in parts, so give a file and not standard input")]
    RecoverOfInput,
    /// The file has no image of a ring at this place.
    #[error("no image of a ring of version 2: it begins with FELTERIM, or --bodies-at names the place of the bodies")]
    NotImage,
    /// There is no such process.
    #[error("{pid}: no such process")]
    NoProcess { pid: &'a str },
    /// The memory of the process may not be read.
    #[error("{pid}: its memory may not be read: be its user, with kernel.yama.ptrace_scope 0, or have CAP_SYS_PTRACE")]
    NotAllowed { pid: &'a str },
    /// The memory of the process cannot be read.
    #[error("{pid}: its memory cannot be read: {reason}")]
    NoMemory { pid: &'a str, reason: &'static str },
    /// The options ask for no look.
    #[error("--times 0: there is at least one look")]
    NoLook,
    /// The file has another version, or is shorter than its header says.
    #[error("no command-and-control file of version 0.1.0 or 0.2.0, or too short")]
    NotCnc,
    /// The clock cannot be read.
    #[error("the clock cannot be read")]
    NoClock,
    /// An argument cannot be read.
    #[error("an argument is not UTF-8")]
    NotUtf8,
    /// A write failed.
    #[error("output cannot be written")]
    OutputUnwritten,
    /// Memory ran out.
    #[error("out of memory")]
    OutOfMemory,
}

impl<'a> From<InputFault<'a>> for ShowFault<'a> {
    fn from(fault: InputFault<'a>) -> ShowFault<'a> {
        ShowFault::Input(fault)
    }
}

impl<'a> From<AllocError> for ShowFault<'a> {
    fn from(_error: AllocError) -> ShowFault<'a> {
        ShowFault::OutOfMemory
    }
}

impl<'a, T: Drop> From<AllocFailed<T>> for ShowFault<'a> {
    fn from(_error: AllocFailed<T>) -> ShowFault<'a> {
        ShowFault::OutOfMemory
    }
}
