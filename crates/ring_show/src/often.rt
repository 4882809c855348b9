//! Takes looks at memory whose place is known, again and again.
use crate::fault::ShowFault;
use crate::look::{Look, PAUSE, Watch, millis, now};
use crate::options::{Format, Options};
use crate::show::{print_report, print_text, report_of, status_of};
use ring_report::{Labelled, Report};
use std::io::Input;
use std::process::ExitCode;
use std::rt::{Clock, Files};
use std::thread::sleep;
use std::time::Duration;

/// The text that clears a terminal.
pub const CLEAR: &str = "\x1b[H\x1b[2J";

/// Prints the rates since the look before, after a table.
fn print_rates<R: AllocGlobal + Print>(
    rt: &R,
    format: Format,
    before: &Look,
    look: &Look,
) -> Result<(), ShowFault<'static>> {
    if !matches!(format, Format::Table | Format::Colored) {
        return Ok(());
    }
    let passed = millis(look.end.duration_since(before.end));
    let text = look.report.rates_since(rt.alloc(), &before.report, passed)?;
    print_text(rt, text.as_str())
}

/// Takes a look.
fn look_at<'a, R: AllocGlobal + Clock + Files + Input>(
    rt: &R,
    options: Options<'a>,
) -> Result<Look, ShowFault<'a>> {
    let begin = now(rt)?;
    let report = report_of(rt, options.subject, options.view)?;
    let end = now(rt)?;
    Ok(Look { report, begin, end })
}

/// Takes a look. If the look shows a consumer that stops in a running program, and no earlier look showed the same,
/// takes a second look after a pause.
fn look_closely<'a, R: AllocGlobal + Clock + Files + Input>(
    rt: &R,
    options: Options<'a>,
    watch: &mut Watch,
) -> Result<Look, ShowFault<'a>> {
    let mut look = look_at(rt, options)?;
    if options.is_live() && watch.is_news(&look) {
        watch.note(&mut look);
        sleep(rt, Duration::from_millis(PAUSE));
        look = look_at(rt, options)?;
    }
    watch.note(&mut look);
    Ok(look)
}

/// Tests whether a report is sound. It is not sound if it has findings, or if a consumer is blocked and the options say
/// that this is a failure.
fn is_sound(options: Options<'_>, report: &Report, has_none: bool) -> bool {
    has_none && !(options.fails_if_blocked && report.is_blocked())
}

/// Prints a look. If there was a look before, also prints the rates since then. Returns whether the look has no
/// findings.
fn print_look<R: AllocGlobal + Print + Eprint>(
    rt: &R,
    options: Options<'_>,
    is_terminal: bool,
    before: Option<&Look>,
    look: &Look,
) -> Result<bool, ShowFault<'static>> {
    if is_terminal && options.every.is_some() {
        print_text(rt, CLEAR)?;
    }
    let labelled = Labelled {
        report: &look.report,
        origin: Some(options.origin()),
    };
    let has_none = print_report(rt, labelled, options.format, options.is_one_of_several())?;
    if let Some(before) = before {
        print_rates(rt, options.format, before, look)?;
    }
    Ok(is_sound(options, &look.report, has_none))
}

/// Shows what a command line names, once or again and again. Stops after the last look that was asked for, or when the
/// program is interrupted. If there are several looks, a terminal is cleared before each of them. The status is that of
/// the last look.
pub fn show_often<'a, R: AllocGlobal + Clock + Files + Input + Print + Eprint>(
    rt: &R,
    options: Options<'a>,
    is_terminal: bool,
) -> Result<ExitCode, ShowFault<'a>> {
    let mut watch = Watch::new();
    let mut before: Option<Look> = None;
    let mut is_sound = true;
    for _ in 0..options.times {
        if before.is_some() {
            sleep(rt, Duration::from_millis(options.every.unwrap_or(0)));
        }
        let look = look_closely(rt, options, &mut watch)?;
        is_sound = print_look(rt, options, is_terminal, before.as_ref(), &look)?;
        before = Some(look);
    }
    Ok(status_of(is_sound))
}
