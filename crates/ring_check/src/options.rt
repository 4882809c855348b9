//! The command line.
use crate::help;
use clap::{Arg, ArgAction, Command, Error};
use std::alloc::Global;

/// The format of the output.
#[derive(Clone, Copy)]
pub enum Format {
    Table,
    Json,
}

/// A command line that was taken.
#[derive(Clone, Copy)]
pub struct Options<'a> {
    /// The file with the run. The name `-` is standard input.
    pub file: &'a str,
    pub format: Format,
}

fn command<'a>(alloc: Global) -> Result<Command<'a>, Error> {
    let file = Arg::new(alloc, "FILE")
        .action(ArgAction::Set)
        .required(true);
    let json = Arg::new(alloc, "json")
        .long("json")
        .action(ArgAction::SetTrue);
    let command = Command::new(alloc, "ring-check")
        .bin_name("ring-check")?
        .version(help::VERSION)
        .about(help::ABOUT)
        .after_help(help::AFTER)
        .arg(file.help(help::FILE))?
        .arg(json.help(help::JSON))?;
    Ok(command)
}

/// Parses the words of a command line, the program's name first.
pub fn parse<'a>(alloc: Global, words: &'a [String]) -> Result<Options<'a>, Error> {
    let matches = command(alloc)?.try_get_matches_from(words)?;
    Ok(Options {
        file: matches.get_str("FILE").unwrap_or("-"),
        format: if matches.get_flag("json") {
            Format::Json
        } else {
            Format::Table
        },
    })
}
