//! A section of a file, read as words.
ghost use Rattle.std.specs.Prelude.{◌≤◌, IfOk};

use crate::input_fault::{Cause, InputFault};
use ring_layout::first_word;
use std::alloc::{AllocError, AllocFailed, Global};
use std::fs;
use std::io::{ErrorKind, Input, Read, Seek, SeekFrom};
use std::rt::Files;

/// A section of a file, in bytes. A section without a length goes to the file's end.
#[derive(Clone, Copy)]
pub struct Section<'a> {
    /// The name of the file. The name `-` is standard input.
    pub file: &'a str,
    /// The byte at which the section begins.
    pub at: u64,
    /// The number of bytes of the section.
    pub length: Option<u64>,
}

/// The largest number of bytes of a section, which is that of the largest ring.
const MAX_SECTION: u64 = (1 << 24) + 768;

/// The largest number of bytes that are read at once.
const CHUNK: usize = 4096;

impl From<AllocError> for Cause {
    fn from(_error: AllocError) -> Cause {
        Cause::OutOfMemory
    }
}

impl<T: Drop> From<AllocFailed<T>> for Cause {
    fn from(_error: AllocFailed<T>) -> Cause {
        Cause::OutOfMemory
    }
}

/// Reads up to this many bytes, and tries again after an interrupt. Returns 0 at the end of the file.
fn read_some<R: Read>(reader: &mut R, chunk: &mut [u8; CHUNK], most: u64) -> Result<usize, Cause>
    ensures { IfOk result (λ n. n ≤ 4096) }
{
    let most = most.min(CHUNK as u64) as usize;
    for _ in 0..u64::MAX {
        match reader.read(&mut chunk[..most]) {
            Ok(n) => return Ok(n),
            Err(error) if error.kind() == ErrorKind::Interrupted => {}
            Err(error) => return Err(Cause::Unread(error.kind())),
        }
    }
    Err(Cause::Unread(ErrorKind::Interrupted))
}

/// Passes the bytes before a section of a file that cannot seek.
fn skip<R: Read>(reader: &mut R, bytes: u64) -> Result<(), Cause> {
    let mut left = bytes;
    let mut chunk = [0u8; CHUNK];
    for _ in 0..u64::MAX {
        if left == 0 {
            return Ok(());
        }
        let n = read_some(reader, &mut chunk, left)?;
        if n == 0 {
            return Err(Cause::TooShort);
        }
        left = left.saturating_sub(n as u64);
    }
    Err(Cause::TooShort)
}

/// Adds this many bytes, or the bytes up to the end.
fn read_bytes<R: Read>(
    bytes: &mut Vec<u8>,
    reader: &mut R,
    length: Option<u64>,
    limit: u64,
) -> Result<(), Cause> {
    // (one byte more shows that the section is too large)
    let wanted = length.unwrap_or(limit.saturating_add(1));
    if length.is_some() && wanted > limit {
        return Err(Cause::TooLarge);
    }
    let mut chunk = [0u8; CHUNK];
    for _ in 0..u64::MAX {
        let left = wanted.saturating_sub(bytes.len() as u64);
        let n = read_some(reader, &mut chunk, left)?;
        if n == 0 {
            break;
        }
        bytes.extend_from_slice(&chunk[..n])?;
    }
    let read = bytes.len() as u64;
    if read > limit {
        Err(Cause::TooLarge)
    } else if length.is_some() && read < wanted {
        Err(Cause::TooShort)
    } else {
        Ok(())
    }
}

/// Returns the words of these bytes, little-endian. Returns `NotWords` if the last word is not whole.
pub fn words_of_bytes(alloc: Global, bytes: &[u8]) -> Result<Vec<u64>, Cause> {
    if bytes.len() % 8 != 0 {
        return Err(Cause::NotWords);
    }
    let mut words = Vec::new(alloc);
    for k in 0..bytes.len() / 8 {
        words.push(first_word(&bytes[8 * k..]))?;
    }
    Ok(words)
}

/// Goes to the place at which a section begins. Seeks in a file that can seek, and otherwise reads up to the place.
fn go_to<R: Read + Seek>(reader: &mut R, at: u64) -> Result<(), Cause> {
    if at == 0 {
        return Ok(());
    }
    match reader.seek(SeekFrom::Start(at)) {
        Ok(_) => Ok(()),
        Err(error) if error.kind() == ErrorKind::NotSeekable => skip(reader, at),
        Err(error) => Err(Cause::Unread(error.kind())),
    }
}

/// Adds the bytes of a section of an open file.
fn read_section<R: Read + Seek>(
    bytes: &mut Vec<u8>,
    file: &mut R,
    section: Section<'_>,
    limit: u64,
) -> Result<(), Cause> {
    go_to(file, section.at)?;
    read_bytes(bytes, file, section.length, limit)
}

/// Adds the bytes of a section of a file.
fn read_file<R: AllocGlobal + Files>(
    rt: &R,
    bytes: &mut Vec<u8>,
    section: Section<'_>,
    limit: u64,
) -> Result<(), Cause> {
    match fs::open(rt, section.file) {
        Ok(mut file) => read_section(bytes, &mut file, section, limit),
        Err(error) => Err(Cause::Unopened(error.kind())),
    }
}

/// Adds the bytes of a section of standard input.
fn read_input<R: AllocGlobal + Input>(
    rt: &R,
    bytes: &mut Vec<u8>,
    section: Section<'_>,
    limit: u64,
) -> Result<(), Cause> {
    let mut reader = rt.reader();
    skip(&mut reader, section.at)?;
    read_bytes(bytes, &mut reader, section.length, limit)
}

/// Returns the words of a section that has at most `limit` bytes, as `section_words` does.
pub fn words_of<R: AllocGlobal + Files + Input>(
    rt: &R,
    section: Section<'_>,
    limit: u64,
) -> Result<Vec<u64>, Cause> {
    let mut bytes = Vec::new(rt.alloc());
    if section.file == "-" {
        read_input(rt, &mut bytes, section, limit)?;
    } else {
        read_file(rt, &mut bytes, section, limit)?;
    }
    words_of_bytes(rt.alloc(), bytes.as_slice())
}

/// Returns the words of a section of a file or of standard input, little-endian. A file that can seek is read from the
/// section's begin on. So `/proc/PID/mem` can be read.
///
/// The fault names the file and the cause. These are the causes:
/// - `Unopened` if the file cannot be opened;
/// - `Unread` if a read fails;
/// - `TooLarge` if the section has more than 16,777,984 bytes;
/// - `TooShort` if the file ends before the section does;
/// - `NotWords` if the last word is not whole;
/// - `OutOfMemory`.
pub fn section_words<'a, R: AllocGlobal + Files + Input>(
    rt: &R,
    section: Section<'a>,
) -> Result<Vec<u64>, InputFault<'a>> {
    match words_of(rt, section, MAX_SECTION) {
        Ok(words) => Ok(words),
        Err(cause) => Err(InputFault {
            file: section.file,
            cause,
        }),
    }
}
