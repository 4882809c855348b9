//! Shows Aeron's command-and-control file, which has a ring of commands, a broadcast buffer of replies, and counters.
use crate::fault::ShowFault;
use crate::options::Format;
use crate::show::{print_findings, print_report, print_text, report_of_counters, status_of};
use ring_report::{Labelled, Origin, Report, Section, View, section_words, to_prometheus};
use std::alloc::{AllocError, Global};
use std::fs;
use std::io::Input;
use std::process::ExitCode;
use std::rt::Files;

/// The number of bytes of the file's header. The first 24 bytes are six numbers of 32 bits.
const HEADER: u64 = 128;

/// The versions that are understood, which are 0.1.0 and 0.2.0. Major, minor and patch have a byte each.
const VERSIONS: [u64; 2] = [0x0100, 0x0200];

/// The lengths of the parts, in their order in the file.
#[derive(Clone, Copy)]
struct Lengths {
    ring: u64,
    board: u64,
    metadata: u64,
    values: u64,
}

impl Lengths {
    /// Returns the number of bytes of the header and of all parts.
    fn end(self) -> u64 {
        HEADER
            .saturating_add(self.ring)
            .saturating_add(self.board)
            .saturating_add(self.metadata)
            .saturating_add(self.values)
    }
}

/// Returns the lengths that a header has. Returns `NotCnc` if the version is not understood.
fn lengths_of(header: &[u64]) -> Result<Lengths, ShowFault<'static>> {
    let [first, second, third, ..] = header else {
        return Err(ShowFault::NotCnc);
    };
    if !VERSIONS.contains(&(*first & 0xffff_ffff)) {
        return Err(ShowFault::NotCnc);
    }
    Ok(Lengths {
        ring: *first >> 32,
        board: *second & 0xffff_ffff,
        metadata: *second >> 32,
        values: *third & 0xffff_ffff,
    })
}

/// Returns the lengths of a file's parts. Returns `NotCnc` if the file is shorter than its lengths say.
fn parts_of<'a, R: AllocGlobal + Files + Input>(
    rt: &R,
    file: &'a str,
) -> Result<Lengths, ShowFault<'a>> {
    let header = section_words(
        rt,
        Section {
            file,
            at: 0,
            length: Some(HEADER),
        },
    )?;
    let lengths = lengths_of(header.as_slice())?;
    match fs::metadata(rt, file) {
        Ok(metadata) if metadata.len() >= lengths.end() => Ok(lengths),
        _ => Err(ShowFault::NotCnc),
    }
}

/// Returns a part of a file.
fn part(file: &str, at: u64, length: u64) -> Section<'_> {
    Section {
        file,
        at,
        length: Some(length),
    }
}

/// A report, and the place in the file at which its memory begins.
#[derive(Drop)]
struct Shown {
    report: Report,
    at: u64,
}

/// Returns the report of the ring, or of the broadcast buffer.
fn buffer_of<'a, R: AllocGlobal + Files + Input>(
    rt: &R,
    section: Section<'a>,
    is_ring: bool,
    view: View,
) -> Result<Shown, ShowFault<'a>> {
    let words = section_words(rt, section)?;
    let report = if is_ring {
        Report::of_ring(rt.alloc(), words.as_slice(), view)?
    } else {
        Report::of_board(rt.alloc(), words.as_slice(), view)?
    };
    let at = section.at;
    Ok(Shown { report, at })
}

/// Adds the reports of the ring, the broadcast buffer and the counters.
fn add_reports<'a, R: AllocGlobal + Files + Input>(
    rt: &R,
    shown: &mut Vec<Shown>,
    file: &'a str,
    view: View,
) -> Result<(), ShowFault<'a>> {
    let parts = parts_of(rt, file)?;
    let board_at = HEADER.saturating_add(parts.ring);
    let metadata_at = board_at.saturating_add(parts.board);
    let values_at = metadata_at.saturating_add(parts.metadata);
    shown.push(buffer_of(rt, part(file, HEADER, parts.ring), true, view)?)?;
    shown.push(buffer_of(rt, part(file, board_at, parts.board), false, view)?)?;
    let metadata = part(file, metadata_at, parts.metadata);
    let values = part(file, values_at, parts.values);
    let report = report_of_counters(rt, metadata, Some(values), view)?;
    let at = metadata_at;
    shown.push(Shown { report, at })?;
    Ok(())
}

/// Returns the metrics of all reports.
fn metrics(alloc: Global, file: &str, shown: &[Shown]) -> Result<String, AllocError> {
    let mut labelled = Vec::new(alloc);
    for it in shown {
        labelled.push(labelled_of(file, it))?;
    }
    to_prometheus(alloc, labelled.as_slice())
}

/// Returns a report from its place in the file.
fn labelled_of<'a>(file: &'a str, shown: &'a Shown) -> Labelled<'a> {
    Labelled {
        report: &shown.report,
        origin: Some(Origin {
            file,
            at: shown.at,
            name: None,
        }),
    }
}

/// Prints all reports. Prints their findings on standard error. Returns whether there are no findings.
fn print_all<R: AllocGlobal + Print + Eprint>(
    rt: &R,
    file: &str,
    shown: &[Shown],
    format: Format,
) -> Result<bool, ShowFault<'static>> {
    let mut is_sound = true;
    if matches!(format, Format::Prometheus) {
        let text = metrics(rt.alloc(), file, shown)?;
        print_text(rt, text.as_str())?;
        for it in shown {
            is_sound &= print_findings(rt, &it.report);
        }
    } else {
        for it in shown {
            is_sound &= print_report(rt, labelled_of(file, it), format, true)?;
        }
    }
    Ok(is_sound)
}

/// Shows the ring, the broadcast buffer and the counters, one after another. JSON has one document on each line. The
/// status is 1 if a report has a finding.
pub fn show_cnc<'a, R: AllocGlobal + Files + Input + Print + Eprint>(
    rt: &R,
    file: &'a str,
    view: View,
    format: Format,
) -> Result<ExitCode, ShowFault<'a>> {
    let mut shown = Vec::new(rt.alloc());
    add_reports(rt, &mut shown, file, view)?;
    let is_sound = print_all(rt, file, shown.as_slice(), format)?;
    Ok(status_of(is_sound))
}
