//! Finds rings, broadcast buffers and counters in the memory of a process, in a core file, or in a copy.
use crate::fault::ShowFault;
use crate::found::Found;
use crate::known::Pieces;
use crate::memory::{Region, add_regions, file_of, pid_of};
use crate::search::{Search, Unread};
use crate::show::status_of;
use crate::trailer::Trailer;
use crate::watch::{Round, Wanted, Watched};
use ring_report::{InputFault, Printable};
use std::alloc::{AllocError, Global};
use std::io::Input;
use std::process::ExitCode;
use std::rt::{Clock, Files};

/// The largest number of lines of the same kind on standard error.
const LINES: usize = 8;

/// Prints on standard error which memory was not read, and why.
fn say_unread(rt: &impl Eprint, file: &str, unread: &[Unread]) {
    for it in unread.iter().take(LINES) {
        let (address, length) = (it.address, it.length);
        let fault = InputFault {
            file,
            cause: it.cause,
        };
        let _ = eprintln!(rt; "ring-show: {length} bytes at 0x{address:x} were not read: {fault}");
    }
    let more = unread.len().saturating_sub(LINES);
    if more > 0 {
        let _ = eprintln!(rt; "ring-show: and {more} more pieces of memory were not read");
    }
}

/// Prints on standard error which buffers change all the time, so that they were not found.
fn say_busy(rt: &impl Eprint, busy: &[Trailer]) {
    for it in busy.iter().take(LINES) {
        let (kind, address) = (it.kind.name(), it.address);
        let _ = eprintln!(rt;
            "\
ring-show: 0x{address:x}: positions like those of a {kind} change all the time, so that its capacity cannot be told: try \
again, or stop the process meanwhile (kill -STOP)"
        );
    }
}

/// Prints on standard error that nothing was found, and what to do.
fn say_nothing(rt: &impl Eprint, name: &str, regions: &[Region]) {
    let bytes = regions
        .iter()
        .fold(0u64, |sum, region| sum.saturating_add(region.length));
    let (shown, pieces) = (Printable(name), regions.len());
    let advice = if pid_of(name).is_some() {
        ", or all of them changed while they were read: try again, or stop the process meanwhile (kill -STOP)"
    } else {
        ""
    };
    let _ = eprintln!(rt;
        "\
ring-show: {shown}: nothing found; {bytes} bytes in {pieces} pieces of memory have no ring, broadcast buffer or counters \
that were used{advice}"
    );
}

/// Returns all that was found, before a look is taken at it.
fn watched(alloc: Global, found: &[Found]) -> Result<Vec<Watched>, AllocError> {
    let mut watched = Vec::new(alloc);
    for it in found {
        watched.push(Watched::new(*it))?;
    }
    Ok(watched)
}

/// Adds all that is found in these pieces of memory. Prints on standard error what could not be read.
fn add_found<R: AllocGlobal + Clock + Files + Input + Eprint>(
    rt: &R,
    found: &mut Vec<Found>,
    pieces: Pieces<'_>,
    is_live: bool,
) -> Result<(), ShowFault<'static>> {
    let mut search = Search::new(rt.alloc());
    search.look(rt, pieces.file, pieces.regions)?;
    let busy = search.settle(rt, pieces, found, is_live)?;
    say_unread(rt, pieces.file, search.unread.as_slice());
    say_busy(rt, busy.as_slice());
    Ok(())
}

/// Searches these pieces of memory for rings, broadcast buffers and counters. Takes looks at all of them, as often as
/// the options say.
fn find_in<R: AllocGlobal + Clock + Files + Input + Print + Eprint>(
    rt: &R,
    name: &str,
    pieces: Pieces<'_>,
    wanted: Wanted,
    is_terminal: bool,
) -> Result<ExitCode, ShowFault<'static>> {
    let is_live = pid_of(name).is_some();
    let mut found = Vec::new(rt.alloc());
    add_found(rt, &mut found, pieces, is_live)?;
    if found.is_empty() {
        say_nothing(rt, name, pieces.regions);
        return Ok(status_of(false));
    }
    let mut round = Round {
        file: pieces.file,
        watched: watched(rt.alloc(), found.as_slice())?,
        wanted,
    };
    round.run(rt, is_live, is_terminal)
}

/// Searches the memory of a process, if the name is that of a process, and otherwise a file. Takes looks at all rings,
/// broadcast buffers and counters that it found, as often as the options say. The status is 1 if nothing was found.
/// Otherwise it is the status of the last look.
pub fn find_all<'a, R: AllocGlobal + Clock + Files + Input + Print + Eprint>(
    rt: &R,
    name: &'a str,
    wanted: Wanted,
    is_terminal: bool,
) -> Result<ExitCode, ShowFault<'a>> {
    let file = file_of(rt.alloc(), name)?;
    let mut regions = Vec::new(rt.alloc());
    add_regions(rt, &mut regions, name)?;
    let pieces = Pieces {
        file: file.as_str(),
        regions: regions.as_slice(),
    };
    find_in(rt, name, pieces, wanted, is_terminal)
}
