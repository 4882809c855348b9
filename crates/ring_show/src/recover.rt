//! Shows the messages that can be recovered from a ring of a killed process.
use crate::fault::ShowFault;
use crate::options::Format;
use crate::show::{print_report, status_of};
use ring_report::{Labelled, Origin, Report, Section, View, section_words};
use std::io::Input;
use std::process::ExitCode;
use std::rt::Files;

/// The number of bytes of an image's header.
const HEADER: u64 = 128;

/// The first word of an image, which has the bytes `FELTERIM`.
const MAGIC: u64 = 0x4d49_5245_544c_4546;

/// The version of images that is understood.
const VERSION: u64 = 2;

/// The number of words of a ring's trailer.
const TRAILER: u64 = 96;

/// The words of a ring and its slots.
#[derive(Clone, Copy)]
struct Parts<'a> {
    words: Section<'a>,
    slots: Section<'a>,
}

/// Returns a part of an image. It has this many words, and begins at this byte of the image.
fn part_of<'a>(image: Section<'a>, at: u64, words: u64) -> Section<'a> {
    Section {
        file: image.file,
        at: image.at.saturating_add(at),
        length: Some(words.saturating_mul(8)),
    }
}

/// Returns the parts of the ring that an image has. Returns `NotImage` if the header is not that of an image of a ring.
fn parts_in<'a>(image: Section<'a>, header: &[u64]) -> Result<Parts<'a>, ShowFault<'a>> {
    let [
        magic,
        version,
        kind,
        capacity,
        words_at,
        words,
        slots_at,
        slots,
        ..
    ] = header
    else {
        return Err(ShowFault::NotImage);
    };
    let is_ring = *magic == MAGIC && *version == VERSION && matches!(*kind, 1 | 2);
    if !is_ring || *words != (*capacity / 8).saturating_add(TRAILER) || *slots != *capacity / 8 {
        return Err(ShowFault::NotImage);
    }
    Ok(Parts {
        words: part_of(image, *words_at, *words),
        slots: part_of(image, *slots_at, *slots),
    })
}

/// Returns the parts of the ring in an image.
fn parts_of_image<'a, R: AllocGlobal + Files + Input>(
    rt: &R,
    image: Section<'a>,
) -> Result<Parts<'a>, ShowFault<'a>> {
    let header = section_words(rt, part_of(image, 0, HEADER / 8))?;
    parts_in(image, header.as_slice())
}

/// Reads the words and the slots, and returns the report. If the place of the slots is not given, the section is an
/// image. Otherwise the section has the ring's words alone.
fn report_of_left<'a, R: AllocGlobal + Files + Input>(
    rt: &R,
    section: Section<'a>,
    bodies_at: Option<u64>,
    view: View,
) -> Result<Report, ShowFault<'a>> {
    let (words, slots) = match bodies_at {
        None => {
            let parts = parts_of_image(rt, section)?;
            (
                section_words(rt, parts.words)?,
                section_words(rt, parts.slots)?,
            )
        }
        Some(at) => {
            let words = section_words(rt, section)?;
            let slots = (words.len() as u64).saturating_sub(TRAILER);
            let start = Section { at: 0, ..section };
            (words, section_words(rt, part_of(start, at, slots))?)
        }
    };
    Ok(Report::of_recovered(rt.alloc(), words.as_slice(), slots.as_slice(), view)?)
}

/// Shows the messages that can be recovered from a ring. The status is 1 if the memory has a finding.
pub fn show_recovered<'a, R: AllocGlobal + Files + Input + Print + Eprint>(
    rt: &R,
    section: Section<'a>,
    bodies_at: Option<u64>,
    view: View,
    format: Format,
) -> Result<ExitCode, ShowFault<'a>> {
    let report = report_of_left(rt, section, bodies_at, view)?;
    let labelled = Labelled {
        report: &report,
        origin: Some(Origin {
            file: section.file,
            at: section.at,
            name: None,
        }),
    };
    let is_sound = print_report(rt, labelled, format, false)?;
    Ok(status_of(is_sound))
}
