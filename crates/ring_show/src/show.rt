//! Reads what a command line names, and prints it once.
use crate::fault::ShowFault;
use crate::options::{Format, Subject};
use ring_report::{
    Labelled, Report, Section, View, Words, note_settled, ring_words, section_words, settled_words,
    to_prometheus,
};
use std::alloc::{AllocError, Global};
use std::io::Input;
use std::process::ExitCode;
use std::rt::Files;

/// The status if the memory has a finding.
const FINDING: u8 = 1;

/// Reads a ring, and returns its report.
fn report_of_ring<'a, R: AllocGlobal + Files + Input>(
    rt: &R,
    section: Section<'a>,
    bodies_at: Option<u64>,
    view: View,
) -> Result<Report, ShowFault<'a>> {
    let Words { words, is_settled } = ring_words(rt, section, bodies_at)?;
    let report = Report::of_ring(rt.alloc(), words.as_slice(), view);
    Ok(note_settled(report, is_settled)?)
}

/// Reads a broadcast buffer, and returns its report.
fn report_of_board<'a, R: AllocGlobal + Files + Input>(
    rt: &R,
    section: Section<'a>,
    view: View,
) -> Result<Report, ShowFault<'a>> {
    let Words { words, is_settled } = settled_words(rt, section, false)?;
    let report = Report::of_board(rt.alloc(), words.as_slice(), view);
    Ok(note_settled(report, is_settled)?)
}

/// Reads counters, and returns their report.
pub fn report_of_counters<'a, R: AllocGlobal + Files + Input>(
    rt: &R,
    metadata: Section<'a>,
    values: Option<Section<'a>>,
    view: View,
) -> Result<Report, ShowFault<'a>> {
    let metadata = section_words(rt, metadata)?;
    match values {
        Some(values) => {
            let values = section_words(rt, values)?;
            let values = Some(values.as_slice());
            Ok(Report::of_counters(rt.alloc(), metadata.as_slice(), values, view)?)
        }
        None => Ok(Report::of_counters(rt.alloc(), metadata.as_slice(), None, view)?),
    }
}

/// Reads the files, and returns the report.
pub fn report_of<'a, R: AllocGlobal + Files + Input>(
    rt: &R,
    subject: Subject<'a>,
    view: View,
) -> Result<Report, ShowFault<'a>> {
    match subject {
        Subject::Ring { words, bodies_at } => report_of_ring(rt, words, bodies_at, view),
        Subject::Board(section) => report_of_board(rt, section, view),
        Subject::Counters { metadata, values } => report_of_counters(rt, metadata, values, view),
    }
}

/// Prints a text on standard output.
pub fn print_text(rt: &impl Print, text: &str) -> Result<(), ShowFault<'static>> {
    match rt.write_all(text.as_bytes()) {
        Ok(()) => Ok(()),
        Err(_unwritten) => Err(ShowFault::OutputUnwritten),
    }
}

/// Returns the text of a report. If it is one of several documents, JSON is on one line.
fn text_of(
    alloc: Global,
    labelled: Labelled<'_>,
    format: Format,
    is_line: bool,
) -> Result<String, AllocError> {
    let Labelled { report, origin } = labelled;
    match format {
        Format::Table => report.to_table(alloc),
        Format::Colored => report.to_colored_table(alloc),
        Format::Json if is_line => report.to_json_line(alloc, origin, &[]),
        Format::Json => report.to_json(alloc, origin),
        Format::Prometheus => to_prometheus(alloc, &[labelled]),
    }
}

/// Prints the findings of a report on standard error. Returns whether there are no findings.
pub fn print_findings(rt: &impl Eprint, report: &Report) -> bool {
    for finding in report.findings.iter() {
        let _ = eprintln!(rt; "{finding}");
    }
    report.findings.is_empty()
}

/// Prints a report, and then its findings on standard error. Returns whether there are no findings.
pub fn print_report<R: AllocGlobal + Print + Eprint>(
    rt: &R,
    labelled: Labelled<'_>,
    format: Format,
    is_line: bool,
) -> Result<bool, ShowFault<'static>> {
    let text = text_of(rt.alloc(), labelled, format, is_line)?;
    print_text(rt, text.as_str())?;
    Ok(print_findings(rt, labelled.report))
}

/// Returns the exit status. It is 0 if nothing is wrong with the memory, and 1 otherwise.
pub fn status_of(is_sound: bool) -> ExitCode {
    if is_sound {
        ExitCode::SUCCESS
    } else {
        ExitCode::from(FINDING)
    }
}
