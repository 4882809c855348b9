//! Measures the rings, the broadcast buffer, the counters and storms. It takes requests on standard input, one a
//! line: `list`, `run WORKLOAD CONTENDER SIZE CAPACITY THREADS MILLISECONDS` and `quit`. The last line of each reply
//! is `end`.
#![tactic(auto)]

mod at_once;
mod batches;
mod broadcast;
mod cargo;
mod counting;
mod fault;
mod flow;
mod job;
mod measuring;
mod message;
mod request;
mod rest;
mod sample;
mod storm;
mod task;
mod trips;
mod watching;

use measuring::Measurer;
use request::ENTRIES;
use std::io;
use std::rt::Clock;
use std::sync::Wait;
use std::thread::Threads;

fn main(rt: HostRuntime) -> io::Result<()> {
    let mut measurer = Measurer::new(rt.alloc());
    for line in rt.lines(rt.alloc()) {
        let line = line?;
        if serve(&rt, &mut measurer, line.as_str())? {
            break;
        }
    }
    Ok(())
}

/// Serves the request of a line, and returns whether it is the last one.
fn serve<R: AllocGlobal + Clock + Print + Threads + Sync + Wait>(
    rt: &R,
    measurer: &mut Measurer,
    line: &str,
) -> io::Result<bool> {
    let words: Vec<&str> = line.split_whitespace().collect(rt.alloc())?;
    let words = words.as_slice();
    if let ["quit"] = words {
        return Ok(true);
    }
    reply(rt, measurer, words)?;
    Ok(false)
}

/// Prints the reply to a request of these words.
fn reply<R: Clock + Print + Threads + Sync + Wait>(
    rt: &R,
    measurer: &mut Measurer,
    words: &[&str],
) -> io::Result<()> {
    match words {
        ["list"] => list(rt)?,
        ["run", rest @ ..] => {
            if let Err(fault) = measurer.answer(rt, rest) {
                println!(rt; "error {}", fault.0)?;
            }
        }
        _ => {}
    }
    println!(rt; "end")
}

/// Prints who takes part in what.
fn list(rt: &impl Print) -> io::Result<()> {
    for (workload, contender) in ENTRIES.iter() {
        println!(rt; "has {} {}", workload.name(), contender.name())?;
    }
    Ok(())
}
