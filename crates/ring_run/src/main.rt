//! Runs a scenario on a ring of messages and a broadcast buffer. The program reads lines of a file or on standard
//! input, and writes on standard output.
#![tactic(auto)]

mod command_line;
mod help;

use command_line::Asked;
use ring_scenario::{Options, RunFault, run_scenario};
use std::env::Env;
use std::io::{ErrorKind, Input};
use std::process::ExitCode;
use std::rt::Files;
use std::sync::Wait;
use std::thread::Threads;
use std::{env, fs, io};

/// The version of the program, which is that of the packages.
const VERSION: &str = "0.1.0";

/// The exit status if the command line is refused.
const REFUSED: u8 = 2;

fn main(rt: HostRuntime) -> ExitCode {
    match run(&rt) {
        Ok(code) => code,
        Err(fault) => {
            let _ = eprintln!(rt; "fault: {fault}");
            if let RunFault::BadLine { reason, .. } = fault {
                let _ = eprintln!(rt; "reason: {reason}");
            }
            ExitCode::FAILURE
        }
    }
}

/// Parses the arguments and runs the scenario.
fn run<R: AllocGlobal + Env + Files + Input + Print + Eprint + Threads + Wait>(
    rt: &R,
) -> Result<ExitCode, RunFault> {
    let alloc = rt.alloc();
    let Some(words) = words_of(rt)? else {
        let _ = eprintln!(rt; "error: an argument is not UTF-8");
        return Ok(ExitCode::from(REFUSED));
    };
    match command_line::parse(alloc, words.as_slice()) {
        Ok(asked) => run_asked(rt, &asked),
        Err(error) => {
            let printed = error.print(rt);
            let code = ExitCode::from(error.exit_code() as u8);
            // A help that cannot be written is a failure.
            Ok(if printed.is_err() && error.exit_code() == 0 {
                ExitCode::FAILURE
            } else {
                code
            })
        }
    }
}

/// Prints the version, or runs the scenario.
fn run_asked<R: AllocGlobal + Files + Input + Print + Eprint + Threads + Wait>(
    rt: &R,
    asked: &Asked<'_>,
) -> Result<ExitCode, RunFault> {
    if asked.version {
        let printed = println!(rt; "ring-run {VERSION}");
        return Ok(match printed {
            Ok(()) => ExitCode::SUCCESS,
            Err(_) => ExitCode::FAILURE,
        });
    }
    match asked.file {
        Some(file) => run_file(rt, &asked.options, file)?,
        None => {
            let alloc = rt.alloc();
            run_scenario(
                rt,
                alloc,
                &asked.options,
                &mut rt.reader(),
                &mut io::writer(rt),
            )?;
        }
    }
    Ok(ExitCode::SUCCESS)
}

/// Runs the scenario in a file, which is opened after the options were tested.
fn run_file<R: AllocGlobal + Files + Print + Eprint + Threads + Wait>(
    rt: &R,
    options: &Options,
    file: &str,
) -> Result<(), RunFault> {
    options.test()?;
    match fs::open(rt, file) {
        Ok(mut reader) => run_scenario(rt, rt.alloc(), options, &mut reader, &mut io::writer(rt)),
        Err(error) => {
            let _ = eprintln!(rt; "ring-run: {error}");
            Err(RunFault::InputUnread)
        }
    }
}

/// Returns the words of the command line. Returns `None` if one of them is not UTF-8.
fn words_of<R: AllocGlobal + Env>(rt: &R) -> Result<Option<Vec<String>>, RunFault> {
    match env::args(rt) {
        Ok(arguments) => Ok(Some(arguments.collect(rt.alloc())?)),
        Err(error) if error.kind() == ErrorKind::InvalidData => Ok(None),
        Err(_out_of_memory) => Err(RunFault::OutOfMemory),
    }
}
