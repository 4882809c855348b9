//! Judges a recorded run of a ring or a queue. The program reads the file with the run. It prints whether some history
//! explains the run, or which line no history explains.
#![tactic(auto)]

ghost use Rattle.ring_judge.specs.Kinds.{IsJudgeableShape};

mod fault;
mod help;
mod options;
mod report;
mod why_broadcast;
mod why_queue;
mod why_ring;

use fault::CheckFault;
use options::{Format, Options};
use report::Report;
use ring_judge::{
    Kind, RingLine, RingShape, Verdict, judge_broadcast, judge_queue, judge_threads, kind_of,
    parse_broadcast, parse_queue, parse_ring, ring_before,
};
use std::alloc::Global;
use std::env::Env;
use std::io::{ErrorKind, Input, Read};
use std::process::ExitCode;
use std::rt::Files;
use std::{env, fs};

/// The status if nothing was judged.
const FAULT: u8 = 2;

fn main(rt: HostRuntime) -> ExitCode {
    let words = match words_of(&rt) {
        Ok(words) => words,
        Err(fault) => return failed(&rt, fault),
    };
    match run(&rt, words.as_slice()) {
        Ok(code) => code,
        Err(fault) => failed(&rt, fault),
    }
}

/// Prints the reason why nothing was judged.
fn failed(rt: &impl Eprint, fault: CheckFault<'_>) -> ExitCode {
    let _ = eprintln!(rt; "ring-check: {fault}");
    ExitCode::from(FAULT)
}

/// Returns the words of the command line.
fn words_of<R: AllocGlobal + Env>(rt: &R) -> Result<Vec<String>, CheckFault<'static>> {
    match env::args(rt) {
        Ok(arguments) => Ok(arguments.collect(rt.alloc())?),
        Err(error) if error.kind() == ErrorKind::InvalidData => Err(CheckFault::NotUtf8),
        Err(_out_of_memory) => Err(CheckFault::OutOfMemory),
    }
}

/// Parses the arguments, and judges the file.
fn run<'a, R: AllocGlobal + Files + Input + Print + Eprint>(
    rt: &R,
    words: &'a [String],
) -> Result<ExitCode, CheckFault<'a>> {
    match options::parse(rt.alloc(), words) {
        Ok(options) => judge_file(rt, options),
        Err(error) => match error.print(rt) {
            Ok(()) => Ok(ExitCode::from(error.exit_code() as u8)),
            Err(_) => Err(CheckFault::OutputUnwritten),
        },
    }
}

/// Judges the run in a file, and prints the verdict. The status is 0 for a yes, and 1 for a no.
fn judge_file<'a, R: AllocGlobal + Files + Input + Print>(
    rt: &R,
    options: Options<'a>,
) -> Result<ExitCode, CheckFault<'a>> {
    let alloc = rt.alloc();
    let text = bytes_of(rt, options.file)?;
    let report = report_of(alloc, text.as_slice(), options.file)?;
    let printed = match options.format {
        Format::Table => report.to_table(alloc)?,
        Format::Json => report.to_json(alloc, options.file)?,
    };
    if rt.print(printed.as_str()).is_err() {
        return Err(CheckFault::OutputUnwritten);
    }
    Ok(if report.is_yes() {
        ExitCode::SUCCESS
    } else {
        ExitCode::FAILURE
    })
}

/// Judges the run in the text of a file.
fn report_of<'a>(alloc: Global, text: &[u8], file: &'a str) -> Result<Report, CheckFault<'a>> {
    match kind_of(text) {
        Ok(Kind::Queue) => queue_report(alloc, text, file),
        Ok(Kind::Broadcast) => broadcast_report(alloc, text, file),
        Ok(Kind::Ring(shape)) => ring_report(alloc, text, file, shape),
        Err(bad) => Err(CheckFault::of_line(file, bad)),
    }
}

/// Judges the run of a queue.
fn queue_report<'a>(alloc: Global, text: &[u8], file: &'a str) -> Result<Report, CheckFault<'a>> {
    let lines = match parse_queue(alloc, text) {
        Ok(lines) => lines,
        Err(bad) => return Err(CheckFault::of_line(file, bad)),
    };
    let verdict = judge_queue(alloc, lines.as_slice())?;
    Ok(Report::of_queue(alloc, text, lines.as_slice(), verdict)?)
}

/// Judges the run of a broadcast buffer.
fn broadcast_report<'a>(
    alloc: Global,
    text: &[u8],
    file: &'a str,
) -> Result<Report, CheckFault<'a>> {
    let lines = match parse_broadcast(alloc, text) {
        Ok(lines) => lines,
        Err(bad) => return Err(CheckFault::of_line(file, bad)),
    };
    let verdict = judge_broadcast(alloc, lines.as_slice())?;
    Ok(Report::of_broadcast(alloc, text, lines.as_slice(), verdict)?)
}

/// Judges the run of a ring.
fn ring_report<'a>(
    alloc: Global,
    text: &[u8],
    file: &'a str,
    shape: RingShape,
) -> Result<Report, CheckFault<'a>>
    requires { IsJudgeableShape shape }
{
    let parsed = match parse_ring(alloc, text) {
        Ok(parsed) => parsed,
        Err(bad) => return Err(CheckFault::of_line(file, bad)),
    };
    let RingShape { capacity, start } = shape;
    let judged = judge_threads(alloc, capacity, start, parsed.as_slice())?;
    let lines: Vec<RingLine> = judged.lines.iter().map(|it| it.line).collect(alloc)?;
    let unexplained = match judged.verdict {
        Verdict::Yes => None,
        Verdict::No(at) => {
            let ring = ring_before(alloc, capacity, start, lines.as_slice(), at)?;
            match judged.lines.get(at) {
                Some(it) => Some((it.at, why_ring::reason(alloc, &ring, &it.line)?)),
                None => None,
            }
        }
    };
    Ok(Report::of_ring(alloc, text, lines.as_slice(), unexplained)?)
}

/// Returns the bytes of a file. The name `-` is standard input.
fn bytes_of<'a, R: AllocGlobal + Files + Input>(
    rt: &R,
    file: &'a str,
) -> Result<Vec<u8>, CheckFault<'a>> {
    if file == "-" {
        let mut bytes = Vec::new(rt.alloc());
        return match rt.reader().read_to_end(&mut bytes) {
            Ok(_) => Ok(bytes),
            Err(error) => Err(CheckFault::of_file(file, error.kind())),
        };
    }
    match fs::read(rt, file) {
        Ok(bytes) => Ok(bytes),
        Err(error) => Err(CheckFault::of_file(file, error.kind())),
    }
}
