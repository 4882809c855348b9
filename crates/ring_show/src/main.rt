//! Shows what is in a ring, a broadcast buffer or counters. The program reads a copy of their memory, or the memory of
//! a running program. It prints a table for people to read, JSON, or the text format of Prometheus.
#![tactic(auto)]

mod arguments;
mod cnc;
mod fault;
mod find;
mod found;
mod help;
mod known;
mod look;
mod memory;
mod often;
mod options;
mod recover;
mod screen;
mod search;
mod shell;
mod show;
mod tables;
mod trailer;
mod watch;

use cnc::show_cnc;
use fault::ShowFault;
use find::find_all;
use often::show_often;
use options::Task;
use recover::show_recovered;
use screen::{Screen, screen_of};
use std::env;
use std::env::Env;
use std::io::{ErrorKind, Input, IsTerminal};
use std::process::ExitCode;
use std::rt::{Clock, Files};

/// The status if nothing was shown.
const FAULT: u8 = 2;

fn main(rt: HostRuntime) -> ExitCode {
    let words = match words_of(&rt) {
        Ok(words) => words,
        Err(fault) => return failed(&rt, fault),
    };
    let screen = screen_of(&rt, rt.stdout().is_terminal());
    match run(&rt, words.as_slice(), screen) {
        Ok(code) => code,
        Err(fault) => failed(&rt, fault),
    }
}

/// Prints the reason why nothing was shown.
fn failed(rt: &impl Eprint, fault: ShowFault<'_>) -> ExitCode {
    let _ = eprintln!(rt; "ring-show: {fault}");
    ExitCode::from(FAULT)
}

/// Returns the words of the command line.
fn words_of<R: AllocGlobal + Env>(rt: &R) -> Result<Vec<String>, ShowFault<'static>> {
    match env::args(rt) {
        Ok(arguments) => Ok(arguments.collect(rt.alloc())?),
        Err(error) if error.kind() == ErrorKind::InvalidData => Err(ShowFault::NotUtf8),
        Err(_out_of_memory) => Err(ShowFault::OutOfMemory),
    }
}

/// Parses the arguments, and does the task.
fn run<'a, R: AllocGlobal + Clock + Files + Input + Print + Eprint>(
    rt: &R,
    words: &'a [String],
    screen: Screen,
) -> Result<ExitCode, ShowFault<'a>> {
    match options::parse(rt.alloc(), words) {
        Ok((name, matches)) => do_task(rt, options::task_of(name, &matches, screen)?, screen),
        Err(error) => match error.print(rt) {
            Ok(()) => Ok(ExitCode::from(error.exit_code() as u8)),
            Err(_) => Err(ShowFault::OutputUnwritten),
        },
    }
}

fn do_task<'a, R: AllocGlobal + Clock + Files + Input + Print + Eprint>(
    rt: &R,
    task: Task<'a>,
    screen: Screen,
) -> Result<ExitCode, ShowFault<'a>> {
    match task {
        Task::Show(options) => show_often(rt, options, screen.is_terminal),
        Task::Find { memory, wanted } => find_all(rt, memory, wanted, screen.is_terminal),
        Task::Cnc { file, view, format } => show_cnc(rt, file, view, format),
        Task::Recover {
            section,
            bodies_at,
            view,
            format,
        } => show_recovered(rt, section, bodies_at, view, format),
    }
}
