//! The memory of a process, of a core file, or of a copy.
use crate::fault::ShowFault;
use ring_report::{InputFault, Section, process_of, reason, section_words};
use std::alloc::{AllocError, Global};
use std::fs;
use std::io::{ErrorKind, Input};
use std::rt::Files;

/// A piece of memory that a program can write.
#[derive(Clone, Copy)]
pub struct Region {
    /// The address in the program.
    pub address: u64,
    /// The place in the file.
    pub at: u64,
    /// The number of bytes.
    pub length: u64,
}

/// Returns the piece of memory of a line of `/proc/PID/maps`, if the program can write it.
fn mapped(line: &str) -> Option<Region> {
    let (range, rest) = line.split_once(' ')?;
    let (start, end) = range.split_once('-')?;
    if !rest.starts_with("rw") {
        return None;
    }
    let start = u64::from_str_radix(start, 16).ok()?;
    let end = u64::from_str_radix(end, 16).ok()?;
    Some(Region {
        address: start,
        at: start,
        length: end.checked_sub(start)?,
    })
}

/// Adds the pieces of memory of the lines of `/proc/PID/maps` that the program can write.
fn add_mapped(regions: &mut Vec<Region>, maps: &str) -> Result<(), AllocError> {
    for line in maps.lines() {
        if let Some(region) = mapped(line) {
            regions.push(region)?;
        }
    }
    Ok(())
}

/// Returns the reason why the memory of a process is not read.
fn refused(pid: &str, kind: ErrorKind) -> ShowFault<'_> {
    match kind {
        ErrorKind::NotFound => ShowFault::NoProcess { pid },
        ErrorKind::PermissionDenied => ShowFault::NotAllowed { pid },
        _ => ShowFault::NoMemory {
            pid,
            reason: reason(kind),
        },
    }
}

/// Adds the pieces of memory that a process can write.
fn add_process<'a, R: AllocGlobal + Files>(
    rt: &R,
    regions: &mut Vec<Region>,
    pid: &'a str,
) -> Result<(), ShowFault<'a>> {
    let path = format!(in rt.alloc(); "/proc/{pid}/maps")?;
    match fs::read_to_string(rt, path.as_str()) {
        Ok(maps) => Ok(add_mapped(regions, maps.as_str())?),
        Err(error) => Err(refused(pid, error.kind())),
    }
}

/// Tests whether the memory of a process can be opened. A system may show the pieces of memory of a process, but refuse
/// to show what is in them.
fn check_process<'a, R: AllocGlobal + Files>(rt: &R, pid: &'a str) -> Result<(), ShowFault<'a>> {
    let path = format!(in rt.alloc(); "/proc/{pid}/mem")?;
    match fs::open(rt, path.as_str()) {
        Ok(_file) => Ok(()),
        Err(error) => Err(refused(pid, error.kind())),
    }
}

/// The first word of a core file, which is `ELF` in its 64-bit form, little-endian.
const CORE_MAGIC: u64 = 0x0001_0102_464c_457f;

/// The number of bytes of a core file's header.
const HEADER: u64 = 64;

/// The number of bytes of a program header.
const PROGRAM_HEADER: u64 = 56;

/// Returns the piece of memory of a program header of a core file, if the program could write it.
fn loaded(header: &[u64]) -> Option<Region> {
    let [flags, at, address, _, length, ..] = header else {
        return None;
    };
    // (PT_LOAD is 1, and PF_W is 2)
    if *flags & 0xffff_ffff != 1 || (*flags >> 32) & 2 == 0 {
        return None;
    }
    Some(Region {
        address: *address,
        at: *at,
        length: *length,
    })
}

/// Returns the place of the program headers of a core file, or `None` if the file is not a core file.
fn program_headers<'a>(file: &'a str, head: &[u64]) -> Option<Section<'a>> {
    let [magic, _, _, _, table, _, sizes, count] = head else {
        return None;
    };
    if *magic != CORE_MAGIC || *sizes >> 48 != PROGRAM_HEADER {
        return None;
    }
    Some(Section {
        file,
        at: *table,
        length: Some((*count & 0xffff) * PROGRAM_HEADER),
    })
}

/// Returns the first words of a file.
fn head_of<'a, R: AllocGlobal + Files + Input>(
    rt: &R,
    file: &'a str,
) -> Result<Vec<u64>, InputFault<'a>> {
    let section = Section {
        file,
        at: 0,
        length: Some(HEADER),
    };
    section_words(rt, section)
}

/// Returns a piece of memory, cut off at the end of the file. No byte of a core file is in two pieces. So all pieces
/// together have at most as many bytes as the file, and `left` of these bytes are not in an earlier piece.
fn bounded(region: Region, file: u64, left: u64) -> Region {
    Region {
        address: region.address,
        at: region.at,
        length: region.length.min(file.saturating_sub(region.at)).min(left),
    }
}

/// Adds the pieces of memory of the program headers of a core file, which has this many bytes.
fn add_loaded(regions: &mut Vec<Region>, headers: &[u64], file: u64) -> Result<(), AllocError> {
    let mut left = file;
    for header in headers.chunks(7) {
        if let Some(region) = loaded(header) {
            let region = bounded(region, file, left);
            left = left.saturating_sub(region.length);
            if region.length > 0 {
                regions.push(region)?;
            }
        }
    }
    regions.sort_unstable_by_key(|region| region.address);
    Ok(())
}

/// Returns the number of bytes of a file, or 0 if the system does not say it.
fn length_of<R: AllocGlobal + Files>(rt: &R, file: &str) -> u64 {
    match fs::metadata(rt, file) {
        Ok(metadata) => metadata.len(),
        Err(_unknown) => 0,
    }
}

/// Adds the pieces of memory of a core file, or all of any other file.
fn add_file<'a, R: AllocGlobal + Files + Input>(
    rt: &R,
    regions: &mut Vec<Region>,
    file: &'a str,
) -> Result<(), ShowFault<'a>> {
    let head = head_of(rt, file)?;
    let length = length_of(rt, file);
    let Some(table) = program_headers(file, head.as_slice()) else {
        return Ok(regions.push(Region {
            address: 0,
            at: 0,
            length,
        })?);
    };
    let headers = section_words(rt, table)?;
    Ok(add_loaded(regions, headers.as_slice(), length)?)
}

/// Returns the number of the process that a name means. The name is the number itself, or the name of the file with the
/// memory of the process.
pub fn pid_of(name: &str) -> Option<&str> {
    if !name.is_empty() && name.bytes().all(|byte| byte.is_ascii_digit()) {
        Some(name)
    } else {
        process_of(name)
    }
}

/// Returns the file with the memory of a process, if the name means a process. Otherwise returns the file with this
/// name.
pub fn file_of(alloc: Global, name: &str) -> Result<String, AllocError> {
    match pid_of(name) {
        Some(pid) => format!(in alloc; "/proc/{pid}/mem"),
        None => String::from_str(alloc, name),
    }
}

/// Adds the pieces of memory of a process, if the name means a process, and otherwise those of a file. The pieces are
/// in the order of their addresses.
///
/// Returns `NoProcess` if there is no such process, `NotAllowed` if its memory may not be read, and `NoMemory` if the
/// memory cannot be read for another reason. Returns `Input` if a file cannot be read.
pub fn add_regions<'a, R: AllocGlobal + Files + Input>(
    rt: &R,
    regions: &mut Vec<Region>,
    name: &'a str,
) -> Result<(), ShowFault<'a>> {
    match pid_of(name) {
        Some(pid) => {
            add_process(rt, regions, pid)?;
            check_process(rt, pid)
        }
        None => add_file(rt, regions, name),
    }
}
