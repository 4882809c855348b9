//! The lines that show the results of the conductor, the clients and the monitor.
use crate::driver::Driven;
use ring_counters::{CounterInfo, CountersManager};
use std::io;

/// How many replies the callers received, and how often they were lapped.
#[derive(Clone, Copy)]
pub struct Totals {
    pub replies: u32,
    pub laps: u32,
    /// Whether the monitor saw a value that was below an earlier value of the same counter.
    pub saw_fall: bool,
}

/// Prints the client's counter by its label, with its last value.
fn print_counter(rt: &impl Print, label: &str, counters: &[CounterInfo]) -> io::Result<()> {
    let found = counters
        .iter()
        .find(|info| info.label.as_slice() == label.as_bytes());
    match found {
        Some(info) => println!(rt; "counter {label} {}", info.value),
        None => println!(rt; "counter {label} missing"),
    }
}

/// Prints the counters of both clients.
fn print_counters<R: AllocGlobal + Print>(
    rt: &R,
    counters: &CountersManager,
) -> anyhow::Result<()> {
    let live = counters.live(rt.alloc())?;
    print_counter(rt, "requests", live.as_slice())?;
    print_counter(rt, "errors", live.as_slice())?;
    Ok(())
}

/// Prints how many messages came, and whether a value fell.
fn print_totals(rt: &impl Print, received: u64, totals: Totals) -> io::Result<()> {
    let Totals {
        replies,
        laps,
        saw_fall,
    } = totals;
    println!(rt; "commands {received} replies {replies} laps {laps}")?;
    println!(rt; "values {}", if saw_fall { "fell" } else { "never fell" })
}

/// Prints the results. (The function borrows what it prints, so that no `?` drops it.)
pub fn print_driven<R: AllocGlobal + Print>(rt: &R, driven: &Driven) -> anyhow::Result<()> {
    let finished = &driven.finished;
    print_counters(rt, &finished.counters)?;
    print_totals(rt, finished.received, driven.totals)?;
    let left = finished.rest.positions().used();
    println!(rt; "left {left}")?;
    Ok(())
}
