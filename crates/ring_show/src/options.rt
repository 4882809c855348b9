//! The options of the command line.
use crate::arguments::ARGUMENTS;
use crate::fault::ShowFault;
use crate::help;
use crate::screen::Screen;
use crate::watch::Wanted;
use clap::{ArgMatches, Command, Error};
use ring_report::{Bodies, Origin, Section, View, process_of};
use std::alloc::{AllocError, Global};

/// The subject that is shown, and the source of its memory.
#[derive(Clone, Copy)]
pub enum Subject<'a> {
    Ring {
        words: Section<'a>,
        /// The place in the file at which the bodies begin, if they are stored separately.
        bodies_at: Option<u64>,
    },
    Board(Section<'a>),
    Counters {
        metadata: Section<'a>,
        /// The section of the values, or `None` if their place is not known.
        values: Option<Section<'a>>,
    },
}

impl<'a> Subject<'a> {
    /// Returns the section of the subject's words, or of the metadata of counters.
    fn section(self) -> Section<'a> {
        match self {
            Subject::Ring { words, .. } => words,
            Subject::Board(section) => section,
            Subject::Counters { metadata, .. } => metadata,
        }
    }
}

/// The task that a command line asks for.
#[derive(Clone, Copy)]
pub enum Task<'a> {
    /// Shows a subject whose place is known.
    Show(Options<'a>),
    /// Finds rings, broadcast buffers and counters in the memory of a process or in a file, and takes looks at them.
    Find {
        memory: &'a str,
        wanted: Wanted,
    },
    /// Shows a command-and-control file.
    Cnc {
        file: &'a str,
        view: View,
        format: Format,
    },
    /// Shows what can be recovered from a ring.
    Recover {
        section: Section<'a>,
        /// The place in the file at which the bodies begin, if the section has the ring's words alone.
        bodies_at: Option<u64>,
        view: View,
        format: Format,
    },
}

/// The format of the output.
#[derive(Clone, Copy)]
pub enum Format {
    Table,
    /// A table with colours.
    Colored,
    Json,
    Prometheus,
}

/// A command line that was taken.
#[derive(Clone, Copy)]
pub struct Options<'a> {
    pub subject: Subject<'a>,
    pub view: View,
    pub format: Format,
    /// The number of milliseconds between two looks, if there is more than one look.
    pub every: Option<u64>,
    /// The largest number of looks.
    pub times: u64,
    /// The name that the user gave to the subject.
    pub name: Option<&'a str>,
    /// Whether a blocked consumer gives the status 1.
    pub fails_if_blocked: bool,
}

impl<'a> Options<'a> {
    /// Returns the file of the subject, and its place in the file.
    pub fn origin(self) -> Origin<'a> {
        let Section { file, at, .. } = self.subject.section();
        Origin {
            file,
            at,
            name: self.name,
        }
    }

    /// Tests whether the subject is in the memory of a running program.
    pub fn is_live(self) -> bool {
        process_of(self.subject.section().file).is_some()
    }

    /// Tests whether a look is one of several looks.
    pub fn is_one_of_several(self) -> bool {
        self.every.is_some() || self.times > 1
    }
}

/// The subcommands, with their descriptions.
static SUBCOMMANDS: [(&str, &str); 7] = [
    (
        "ring",
        "Lists the records of a ring between its head and its tail",
    ),
    (
        "board",
        "Lists the records of a broadcast buffer's current lap",
    ),
    (
        "counters",
        "Lists the counters in use and those that were freed, by rising id",
    ),
    (
        "find",
        "Looks for rings, broadcast buffers and counters in the memory of a process, in a core file or in a copy of memory",
    ),
    (
        "watch",
        "Looks for them as find does, and then at all of them again and again",
    ),
    (
        "cnc",
        "Shows the ring, the broadcast buffer and the counters of Aeron's command-and-control file",
    ),
    (
        "recover",
        "Lists the messages that can be recovered from a ring of a killed process",
    ),
];

/// Returns a subcommand with its arguments.
fn subcommand<'a>(alloc: Global, name: &'a str, about: &'a str) -> Result<Command<'a>, AllocError> {
    let mut command = Command::new(alloc, name).about(about);
    for argument in ARGUMENTS.iter() {
        if argument.is_of(name) {
            command = command.arg(argument.arg(alloc))?;
        }
    }
    Ok(command)
}

/// Returns the command without its subcommands.
fn bare<'a>(alloc: Global) -> Result<Command<'a>, AllocError> {
    let command = Command::new(alloc, "ring-show").bin_name("ring-show")?;
    let command = command.version(help::VERSION).about(help::ABOUT);
    let command = command.after_help(help::AFTER);
    Ok(command.subcommand_required(true))
}

fn command<'a>(alloc: Global) -> Result<Command<'a>, AllocError> {
    let mut command = bare(alloc)?;
    for (name, about) in SUBCOMMANDS {
        command = command.subcommand(subcommand(alloc, name, about)?)?;
    }
    Ok(command)
}

/// Returns the name and the arguments of the subcommand, from the words of a command line. The first word is the
/// program's name.
pub fn parse<'a>(alloc: Global, words: &'a [String]) -> Result<(&'a str, ArgMatches<'a>), Error> {
    let mut matches = command(alloc)?.try_get_matches_from(words)?;
    match matches.remove_subcommand() {
        Some((name, inner)) => Ok((name, inner)),
        None => Ok(("", matches)),
    }
}

/// Returns the number of a text. It is decimal, or hexadecimal after `0x`.
fn bytes_of(text: &str) -> Option<u64> {
    let parsed = match text.strip_prefix("0x") {
        Some(digits) => u64::from_str_radix(digits, 16),
        None => text.parse(),
    };
    parsed.ok()
}

/// Returns the number of bytes of an option, if the option is there.
fn bytes<'a>(matches: &ArgMatches<'a>, name: &'static str) -> Result<Option<u64>, ShowFault<'a>> {
    let Some(text) = matches.get_str(name) else {
        return Ok(None);
    };
    match bytes_of(text) {
        Some(number) => Ok(Some(number)),
        None => Err(ShowFault::NotBytes {
            option: name,
            value: text,
        }),
    }
}

/// Returns the section of these three arguments.
fn section<'a>(
    matches: &ArgMatches<'a>,
    file: &str,
    at: &'static str,
    length: &'static str,
) -> Result<Section<'a>, ShowFault<'a>> {
    Ok(Section {
        file: matches.get_str(file).unwrap_or(""),
        at: bytes(matches, at)?.unwrap_or(0),
        length: bytes(matches, length)?,
    })
}

/// Returns the section of the values of counters, if their file is named.
fn values_of<'a>(matches: &ArgMatches<'a>) -> Result<Option<Section<'a>>, ShowFault<'a>> {
    if matches.get_str("VALUES").is_none() {
        return Ok(None);
    }
    let values = section(matches, "VALUES", "values-at", "values-length")?;
    Ok(Some(values))
}

/// Returns a ring as a subject. Returns `BodiesOfInput` if its bodies are stored separately and the ring is on standard
/// input.
fn ring_of<'a>(words: Section<'a>, bodies_at: Option<u64>) -> Result<Subject<'a>, ShowFault<'a>> {
    if bodies_at.is_some() && words.file == "-" {
        return Err(ShowFault::BodiesOfInput);
    }
    Ok(Subject::Ring { words, bodies_at })
}

/// Returns the source of what a subcommand shows. The faults `NotBytes` and `BodiesOfInput` are as for `task_of`.
fn subject_of<'a>(name: &str, matches: &ArgMatches<'a>) -> Result<Subject<'a>, ShowFault<'a>> {
    Ok(match name {
        "board" => Subject::Board(section(matches, "FILE", "at", "length")?),
        "counters" => Subject::Counters {
            metadata: section(matches, "METADATA", "at", "length")?,
            values: values_of(matches)?,
        },
        _ => ring_of(
            section(matches, "FILE", "at", "length")?,
            bytes(matches, "bodies-at")?,
        )?,
    })
}

/// Returns the largest number of pieces in which a buffer is drawn.
fn width_of(matches: &ArgMatches<'_>, screen: Screen) -> u32 {
    let width: Option<u64> = matches.get_one("width");
    match width {
        Some(width) => u32::try_from(width).unwrap_or(u32::MAX),
        None => screen.width,
    }
}

/// Returns the options of the report.
fn view_of(matches: &ArgMatches<'_>, screen: Screen) -> View {
    View {
        from: matches.get_one("from"),
        bodies: match matches.get_str("bodies") {
            Some("text") => Bodies::Text,
            Some("none") => Bodies::None,
            _ => Bodies::Hex,
        },
        limit: matches.get_one("limit"),
        width: width_of(matches, screen),
    }
}

fn format_of(matches: &ArgMatches<'_>, screen: Screen) -> Format {
    match matches.get_str("format") {
        Some("json") => Format::Json,
        Some("prometheus") => Format::Prometheus,
        _ if screen.is_colored => Format::Colored,
        _ => Format::Table,
    }
}

/// Returns the largest number of looks. If no option says it, this is one look, or no bound if the looks are to be
/// repeated. Returns `NoLook` if the option says 0.
fn times_of<'a>(matches: &ArgMatches<'a>, is_again: bool) -> Result<u64, ShowFault<'a>> {
    let times: Option<u64> = matches.get_one("times");
    match times {
        Some(0) => Err(ShowFault::NoLook),
        Some(times) => Ok(times),
        None if is_again => Ok(u64::MAX),
        None => Ok(1),
    }
}

/// Returns the options of a subcommand that shows a subject whose place is known. The faults are as for `task_of`.
fn options_of<'a>(
    name: &str,
    matches: &ArgMatches<'a>,
    screen: Screen,
) -> Result<Options<'a>, ShowFault<'a>> {
    let every: Option<u64> = matches.get_one("every");
    Ok(Options {
        subject: subject_of(name, matches)?,
        view: view_of(matches, screen),
        format: format_of(matches, screen),
        every,
        times: times_of(matches, every.is_some())?,
        name: matches.get_str("name"),
        fails_if_blocked: name == "ring" && matches.get_flag("fail-if-blocked"),
    })
}

/// Returns the options of `find`. It has one round of looks, and lists each of them by its summary.
fn find_wanted(matches: &ArgMatches<'_>, screen: Screen) -> Wanted {
    Wanted {
        format: format_of(matches, screen),
        every: None,
        times: 1,
        limit: None,
        width: screen.width,
        fails_if_blocked: matches.get_flag("fail-if-blocked"),
    }
}

/// Returns the options of `watch`. Returns `NoLook` if the options ask for no look.
fn watch_wanted<'a>(matches: &ArgMatches<'a>, screen: Screen) -> Result<Wanted, ShowFault<'a>> {
    let (every, limit): (Option<u64>, Option<u64>) = (
        matches.get_one("every"),
        matches.get_one("limit"),
    );
    Ok(Wanted {
        format: format_of(matches, screen),
        every: every.or(Some(1000)),
        times: times_of(matches, true)?,
        limit: limit.or(Some(8)),
        width: width_of(matches, screen),
        fails_if_blocked: matches.get_flag("fail-if-blocked"),
    })
}

/// Returns the task of `recover`. Returns `RecoverOfInput` if the ring is on standard input. The fault `NotBytes` is as
/// for `task_of`.
fn recover_task<'a>(matches: &ArgMatches<'a>, screen: Screen) -> Result<Task<'a>, ShowFault<'a>> {
    let section = section(matches, "FILE", "at", "length")?;
    if section.file == "-" {
        return Err(ShowFault::RecoverOfInput);
    }
    Ok(Task::Recover {
        section,
        bodies_at: bytes(matches, "bodies-at")?,
        view: view_of(matches, screen),
        format: format_of(matches, screen),
    })
}

/// Returns the task of a subcommand with its arguments. Returns `NotBytes` if an offset or a length is not a number,
/// and `NoLook` if the options ask for no look. Returns `BodiesOfInput` if separate bodies are to be read from standard
/// input. Returns `RecoverOfInput` if a ring is to be recovered from standard input.
pub fn task_of<'a>(
    name: &str,
    matches: &ArgMatches<'a>,
    screen: Screen,
) -> Result<Task<'a>, ShowFault<'a>> {
    let memory = matches.get_str("MEMORY").unwrap_or("");
    match name {
        "find" => Ok(Task::Find {
            memory,
            wanted: find_wanted(matches, screen),
        }),
        "watch" => Ok(Task::Find {
            memory,
            wanted: watch_wanted(matches, screen)?,
        }),
        "cnc" => Ok(Task::Cnc {
            file: matches.get_str("FILE").unwrap_or(""),
            view: view_of(matches, screen),
            format: format_of(matches, screen),
        }),
        "recover" => recover_task(matches, screen),
        _ => Ok(Task::Show(options_of(name, matches, screen)?)),
    }
}
