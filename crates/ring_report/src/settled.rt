//! Reads memory that others may change at the same time.
ghost use Rattle.std.specs.Prelude.{◌≡◌, [], false, IfOk};

use crate::input::{Section, section_words};
use crate::input_fault::InputFault;
use crate::report::Report;
use ring_snapshot::{BoardSnapshot, RingSnapshot, join_bodies};
use std::alloc::{AllocError, Global};
use std::io::Input;
use std::rt::Files;

/// The largest number of times that memory is read again.
const READS: u32 = 3;

/// Words, and whether the positions in them stayed the same while they were read.
#[derive(Drop)]
pub struct Words {
    /// The words.
    pub words: Vec<u64>,
    /// Whether the positions stayed the same.
    pub is_settled: bool,
}

/// Returns the positions of a ring or a broadcast buffer, between which its records are. Returns `None` for other
/// words.
fn positions(words: &[u64], is_ring: bool) -> Option<(u64, u64)> {
    if is_ring {
        let ring = RingSnapshot::new(words).ok()?;
        Some((ring.head(), ring.tail()))
    } else {
        let board = BoardSnapshot::new(words).ok()?;
        Some((board.intent(), board.tail()))
    }
}

/// Returns the words of a ring or a broadcast buffer. Each read ends with the trailer. If two reads in a row show the
/// same positions, the positions did not change during the second one. The memory is read up to three more times until
/// the positions stay the same. Standard input is read once.
pub fn settled_words<'a, R: AllocGlobal + Files + Input>(
    rt: &R,
    section: Section<'a>,
    is_ring: bool,
) -> Result<Words, InputFault<'a>> {
    let mut words = section_words(rt, section)?;
    let mut is_settled = section.file == "-";
    for _ in 0..READS {
        if is_settled {
            break;
        }
        let before = positions(words.as_slice(), is_ring);
        words = section_words(rt, section)?;
        is_settled = positions(words.as_slice(), is_ring) == before;
    }
    Ok(Words { words, is_settled })
}

/// Makes the words of a plain ring those of the format, with its slots. Words that no ring has stay as they are.
fn add_bodies<'a, R: AllocGlobal + Files + Input>(
    rt: &R,
    words: &mut Vec<u64>,
    file: &'a str,
    at: u64,
) -> Result<(), InputFault<'a>> {
    let Ok(ring) = RingSnapshot::new(words.as_slice()) else {
        return Ok(());
    };
    let section = Section {
        file,
        at,
        length: Some(u64::from(ring.capacity())),
    };
    let bodies = section_words(rt, section)?;
    // (the section has as many words as the buffer, so nothing is refused)
    let _ = join_bodies(words.as_mut_slice(), bodies.as_slice());
    Ok(())
}

/// Returns the positions of a ring that are now in a section.
fn positions_in<'a, R: AllocGlobal + Files + Input>(
    rt: &R,
    section: Section<'a>,
) -> Result<Option<(u64, u64)>, InputFault<'a>> {
    let words = section_words(rt, section)?;
    Ok(positions(words.as_slice(), true))
}

/// Returns the words of a plain ring in the format, as `settled_words` does. Slots are read after the words, so a
/// record that is shown as committed was whole. Both reads are between two looks at the positions.
fn joined_words<'a, R: AllocGlobal + Files + Input>(
    rt: &R,
    section: Section<'a>,
    bodies_at: u64,
) -> Result<Words, InputFault<'a>> {
    let mut before = positions_in(rt, section)?;
    let mut words = Vec::new(rt.alloc());
    let mut is_settled = false;
    for _ in 0..READS {
        if is_settled {
            break;
        }
        words = section_words(rt, section)?;
        add_bodies(rt, &mut words, section.file, bodies_at)?;
        let after = positions_in(rt, section)?;
        is_settled = after == before;
        before = after;
    }
    Ok(Words { words, is_settled })
}

/// Returns the words of a ring in the format. `bodies_at` is the byte of the file at which the slots of a plain ring
/// begin.
pub fn ring_words<'a, R: AllocGlobal + Files + Input>(
    rt: &R,
    section: Section<'a>,
    bodies_at: Option<u64>,
) -> Result<Words, InputFault<'a>> {
    match bodies_at {
        Some(at) => joined_words(rt, section, at),
        None => settled_words(rt, section, true),
    }
}

/// Returns a report of words, and notes in it whether they are settled. Words that are not settled can be of different
/// moments. So faults in them are not findings.
pub fn note_settled(
    report: Result<Report, AllocError>,
    is_settled: bool,
) -> Result<Report, AllocError>
    ensures noted { IfOk result (λ r. r.is_settled ≡ is_settled) }
    ensures no_finding { is_settled ≡ false → IfOk result (λ r. r.findings.items ≡ []) }
{
    let mut report = report?;
    report.is_settled = is_settled;
    if !is_settled {
        report.findings.clear();
    }
    Ok(report)
}
