//! The reasons why no words were read.
use crate::printable::Printable;
use std::fmt;
use std::io::ErrorKind;

/// The reason why no words of a file were read.
#[derive(Clone, Copy, Debug, PartialEq, Eq)]
pub enum Cause {
    /// The file cannot be opened.
    Unopened(ErrorKind),
    /// A read failed, or the file cannot go to the place at which the section begins.
    Unread(ErrorKind),
    /// The section has more bytes than the largest ring.
    TooLarge,
    /// The section is beyond the end of the file.
    TooShort,
    /// The section does not consist of words of 8 bytes.
    NotWords,
    /// Memory ran out.
    OutOfMemory,
}

/// The reason why no words were read, and the file. The name `-` is standard input.
#[derive(Clone, Copy, Debug, PartialEq, Eq)]
pub struct InputFault<'a> {
    pub file: &'a str,
    pub cause: Cause,
}

/// Returns the error of the system in plain words.
pub fn reason(kind: ErrorKind) -> &'static str {
    match kind {
        ErrorKind::NotFound => "no such file",
        ErrorKind::PermissionDenied => "permission denied",
        ErrorKind::IsADirectory => "it is a folder",
        ErrorKind::NotADirectory => "a part of its path is no folder",
        _ => "the system cannot read there",
    }
}

impl Cause {
    /// Returns the text before the name of the file, and the text after it.
    fn around(self) -> (&'static str, &'static str) {
        match self {
            Cause::Unopened(kind) => ("cannot open ", reason(kind)),
            Cause::Unread(kind) => ("cannot read ", reason(kind)),
            Cause::TooLarge => (
                "",
                "the section is too large: at most 16777984 bytes are read",
            ),
            Cause::TooShort => ("", "the file ends before the section does"),
            Cause::NotWords => ("", "the section is not made of words of 8 bytes"),
            Cause::OutOfMemory => ("", "out of memory"),
        }
    }
}

impl<'a> fmt::Display for InputFault<'a> {
    fn fmt<W: fmt::Write>(&self, f: &mut fmt::Formatter<W>) -> fmt::Result {
        let (file, (before, after)) = (Printable(self.file), self.cause.around());
        write!(f, "{before}{file}: {after}")
    }
}
