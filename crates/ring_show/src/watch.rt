//! Takes looks at all that was found, once for `find`, and again and again for `watch`.
use crate::fault::ShowFault;
use crate::found::{Found, Kind};
use crate::look::{Look, PAUSE, Watch, millis, now};
use crate::often::CLEAR;
use crate::options::Format;
use crate::show::{print_findings, print_text, report_of_counters, status_of};
use ring_report::{
    Bodies, Labelled, Origin, Report, Section, View, Words, note_settled, ring_words,
    settled_words, to_prometheus,
};
use std::alloc::{AllocError, Global};
use std::io::Input;
use std::process::ExitCode;
use std::rt::{Clock, Files};
use std::thread::sleep;
use std::time::Duration;

/// The options for all that is found.
#[derive(Clone, Copy)]
pub struct Wanted {
    pub format: Format,
    /// The number of milliseconds between two rounds of looks, or `None` for one round.
    pub every: Option<u64>,
    /// The largest number of rounds.
    pub times: u64,
    /// The largest number of records or counters that are listed. If it is `None`, each object is listed by its summary
    /// and its command.
    pub limit: Option<u64>,
    pub width: u32,
    pub fails_if_blocked: bool,
}

/// An object that was found, and the conclusion from the looks so far.
#[derive(Drop)]
pub struct Watched {
    found: Found,
    watch: Watch,
    /// The last look, if it could be taken.
    look: Option<Look>,
    before: Option<Look>,
}

/// Returns the section of a file with this place and this length.
fn section(file: &str, at: u64, length: u64) -> Section<'_> {
    Section {
        file,
        at,
        length: Some(length),
    }
}

/// Reads a ring or a broadcast buffer, and returns its report without bodies.
fn buffer_report<'a, R: AllocGlobal + Files + Input>(
    rt: &R,
    section: Section<'a>,
    found: Found,
    view: View,
) -> Result<Report, ShowFault<'a>> {
    let is_ring = found.kind == Kind::Ring;
    let Words { words, is_settled } = if is_ring {
        ring_words(rt, section, found.bodies_at)?
    } else {
        settled_words(rt, section, false)?
    };
    let report = if is_ring {
        Report::of_ring(rt.alloc(), words.as_slice(), view)
    } else {
        Report::of_board(rt.alloc(), words.as_slice(), view)
    };
    Ok(note_settled(report, is_settled)?)
}

/// Reads an object that was found, and returns its report.
fn report_of<'a, R: AllocGlobal + Files + Input>(
    rt: &R,
    file: &'a str,
    found: Found,
    view: View,
) -> Result<Report, ShowFault<'a>> {
    let whole = section(file, found.at, found.length());
    match found.kind {
        Kind::Counters => {
            let values = found.values.map(|part| section(file, part.at, part.length));
            report_of_counters(rt, whole, values, view)
        }
        Kind::Ring | Kind::Board => buffer_report(rt, whole, found, view),
    }
}

/// Returns a report as an object of JSON on one line. It also has the command that shows the report, and how sure it
/// is.
fn json_line<'a>(
    alloc: Global,
    report: &Report,
    origin: Option<Origin<'a>>,
    command: &'a str,
    sureness: &'a str,
) -> Result<String, AllocError> {
    let members = [("command", command), ("sureness", sureness)];
    report.to_json_line(alloc, origin, &members)
}

/// Returns how an object is listed if no limit is given. Counters are listed with the first of them, and a buffer by
/// its summary.
fn view_of(wanted: Wanted, kind: Kind) -> View {
    let few = if kind == Kind::Counters { 8 } else { 0 };
    View {
        from: None,
        bodies: Bodies::None,
        limit: Some(wanted.limit.unwrap_or(few)),
        width: wanted.width,
    }
}

impl Watched {
    /// Returns an object that was found, before a look is taken at it.
    pub fn new(found: Found) -> Watched {
        Watched {
            found,
            watch: Watch::new(),
            look: None,
            before: None,
        }
    }

    /// Takes a look. If the memory cannot be read any longer, there is no look, and standard error says so.
    fn take_look<R: AllocGlobal + Clock + Files + Input + Eprint>(
        &mut self,
        rt: &R,
        file: &str,
        wanted: Wanted,
    ) -> Result<(), ShowFault<'static>> {
        let (found, view) = (self.found, view_of(wanted, self.found.kind));
        let begin = now(rt)?;
        let read = report_of(rt, file, found, view);
        let end = now(rt)?;
        match read {
            Ok(report) => {
                let mut look = Look { report, begin, end };
                self.watch.note(&mut look);
                self.look = Some(look);
                Ok(())
            }
            Err(ShowFault::OutOfMemory) => Err(ShowFault::OutOfMemory),
            Err(fault) => {
                let (kind, address) = (found.kind.name(), found.address);
                let _ = eprintln!(rt; "ring-show: {kind} at 0x{address:x}: no more: {fault}");
                self.look = None;
                Ok(())
            }
        }
    }

    /// Returns the last look with its origin.
    fn labelled<'a>(&'a self, file: &'a str) -> Option<Labelled<'a>> {
        let look = self.look.as_ref()?;
        Some(Labelled {
            report: &look.report,
            origin: Some(Origin {
                file,
                at: self.found.at,
                name: None,
            }),
        })
    }

    /// Tests whether the last look shows a consumer that stops.
    fn stops(&self) -> bool {
        match &self.look {
            Some(look) => look.report.sight().is_some(),
            None => false,
        }
    }

    /// Adds the lines of the last look as a table, and the rates since the look before.
    fn push_table(
        &self,
        alloc: Global,
        text: &mut String,
        look: &Look,
        is_colored: bool,
    ) -> Result<(), AllocError> {
        let report = &look.report;
        self.found.push_title(text, report)?;
        let table = if is_colored {
            report.to_colored_table(alloc)?
        } else {
            report.to_table(alloc)?
        };
        text.push_str(table.as_str())?;
        let Some(before) = &self.before else {
            return Ok(());
        };
        let passed = millis(look.end.duration_since(before.end));
        let rates = report.rates_since(alloc, &before.report, passed)?;
        text.push_str(rates.as_str())
    }

    /// Adds the object of JSON of the last look on one line. It has the report, how sure it is, and the command that
    /// shows it.
    fn push_json(
        &self,
        alloc: Global,
        text: &mut String,
        file: &str,
        report: &Report,
    ) -> Result<(), AllocError> {
        let mut command = String::new(alloc);
        self.found.push_command(&mut command, file)?;
        let origin = Some(Origin {
            file,
            at: self.found.at,
            name: None,
        });
        let sureness = self.found.sureness(report);
        let line = json_line(alloc, report, origin, command.as_str(), sureness)?;
        text.push_str(line.as_str())
    }

    /// Adds the last look in the format of the output.
    fn push_look(
        &self,
        alloc: Global,
        text: &mut String,
        file: &str,
        wanted: Wanted,
    ) -> Result<(), AllocError> {
        let Some(look) = &self.look else {
            return Ok(());
        };
        match wanted.format {
            Format::Json => self.push_json(alloc, text, file, &look.report),
            Format::Table if wanted.limit.is_none() => {
                self.found.push_lines(text, file, &look.report)
            }
            Format::Colored if wanted.limit.is_none() => {
                self.found.push_lines(text, file, &look.report)
            }
            format => self.push_table(alloc, text, look, matches!(format, Format::Colored)),
        }
    }

    /// Tests whether the last look has no finding. If a blocked consumer is a failure, also tests that no consumer is
    /// blocked. Findings are ignored if only the summary is listed.
    fn is_sound(&self, wanted: Wanted) -> bool {
        match &self.look {
            Some(look) => {
                let is_blocked = wanted.fails_if_blocked && look.report.is_blocked();
                let is_listed = wanted.limit.is_none() || look.report.findings.is_empty();
                is_listed && !is_blocked
            }
            None => true,
        }
    }
}

/// All objects that were found, in the order of addresses.
#[derive(Drop)]
pub struct Round<'a> {
    pub file: &'a str,
    pub watched: Vec<Watched>,
    pub wanted: Wanted,
}

impl<'a> Round<'a> {
    /// Takes a look at each object.
    fn take_looks<R: AllocGlobal + Clock + Files + Input + Eprint>(
        &mut self,
        rt: &R,
    ) -> Result<(), ShowFault<'static>> {
        for it in self.watched.iter_mut() {
            it.before = it.look.take();
            it.take_look(rt, self.file, self.wanted)?;
        }
        Ok(())
    }

    /// Takes a first look at each object. If a consumer stops in a running program, takes second looks after a pause.
    fn begin<R: AllocGlobal + Clock + Files + Input + Eprint>(
        &mut self,
        rt: &R,
        is_live: bool,
    ) -> Result<(), ShowFault<'static>> {
        self.take_looks(rt)?;
        if is_live && self.watched.iter().any(|it| it.stops()) {
            sleep(rt, Duration::from_millis(PAUSE));
            self.take_looks(rt)?;
        }
        for it in self.watched.iter_mut() {
            it.before = None;
        }
        Ok(())
    }

    /// Returns the text of Prometheus for all objects.
    fn metrics(&self, alloc: Global) -> Result<String, AllocError> {
        let mut reports = Vec::new(alloc);
        for it in self.watched.iter() {
            if let Some(labelled) = it.labelled(self.file) {
                reports.push(labelled)?;
            }
        }
        to_prometheus(alloc, reports.as_slice())
    }

    /// Returns the text for all objects.
    fn text(&self, alloc: Global) -> Result<String, AllocError> {
        if matches!(self.wanted.format, Format::Prometheus) {
            return self.metrics(alloc);
        }
        let mut text = String::new(alloc);
        for it in self.watched.iter() {
            it.push_look(alloc, &mut text, self.file, self.wanted)?;
        }
        Ok(text)
    }

    /// Prints all objects. Then prints the findings on standard error. Returns whether all objects are sound.
    fn print<R: AllocGlobal + Print + Eprint>(
        &self,
        rt: &R,
        is_terminal: bool,
    ) -> Result<bool, ShowFault<'static>> {
        if is_terminal && self.wanted.every.is_some() {
            print_text(rt, CLEAR)?;
        }
        let text = self.text(rt.alloc())?;
        print_text(rt, text.as_str())?;
        let mut is_sound = true;
        for it in self.watched.iter() {
            if let Some(look) = &it.look {
                print_findings(rt, &look.report);
            }
            is_sound &= it.is_sound(self.wanted);
        }
        Ok(is_sound)
    }

    /// Tests whether no object can be read any longer.
    fn is_over(&self) -> bool {
        self.watched.iter().all(|it| it.look.is_none())
    }

    /// Takes looks at all objects as often as the options say, or until no object can be read any longer. The status is
    /// that of the last round.
    pub fn run<R: AllocGlobal + Clock + Files + Input + Print + Eprint>(
        &mut self,
        rt: &R,
        is_live: bool,
        is_terminal: bool,
    ) -> Result<ExitCode, ShowFault<'static>> {
        self.begin(rt, is_live)?;
        let mut is_sound = self.print(rt, is_terminal)?;
        for _ in 1..self.wanted.times {
            if self.is_over() {
                break;
            }
            sleep(rt, Duration::from_millis(self.wanted.every.unwrap_or(0)));
            self.take_looks(rt)?;
            is_sound = self.print(rt, is_terminal)?;
        }
        Ok(status_of(is_sound))
    }
}
