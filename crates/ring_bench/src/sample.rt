//! What a run came to.
use crate::fault::Fault;
use std::rt::Clock;
use std::time::Instant;
use std::{fmt, io};

/// The nanoseconds since a moment.
pub fn nanos_since(clock: &impl Clock, start: Instant) -> Result<u64, Fault> {
    let nanos = start.elapsed(clock)?.as_nanos();
    Ok(u64::try_from(nanos).unwrap_or(u64::MAX))
}

/// A fraction, printed with six places.
#[derive(Clone, Copy)]
struct Decimal(u64, u64);

impl fmt::Display for Decimal {
    fn fmt<W: fmt::Write>(&self, f: &mut fmt::Formatter<W>) -> fmt::Result {
        let by = self.1.max(1);
        let whole = self.0 / by;
        let rest = (self.0 % by).saturating_mul(1_000_000) / by;
        write!(f, "{whole}.{rest:06}")
    }
}

/// What a run found besides its time.
#[derive(Clone, Copy)]
pub enum Detail {
    Nothing,
    /// The nanoseconds within which 50, 90, 99, 99.9 and 99.99 % of the round trips ended.
    Trips {
        p50: u32,
        p90: u32,
        p99: u32,
        p999: u32,
        p9999: u32,
    },
    /// What receivers of a broadcast came to.
    Received {
        /// How many copies they would have if none had been lapped.
        all: u64,
        /// How many messages they copied in all.
        copies: u64,
        /// How often they were lapped in all.
        laps: u64,
    },
    /// The nanoseconds of the whole call, with what is made and taken apart in it.
    Whole(u64),
}

/// How long a run took, and what it did.
#[derive(Clone, Copy)]
pub struct Sample {
    pub nanos: u64,
    /// How often the job was done.
    pub times: u64,
    pub detail: Detail,
}

impl Sample {
    pub fn new(nanos: u64, times: u64) -> Sample {
        Sample {
            nanos,
            times,
            detail: Detail::Nothing,
        }
    }

    /// Prints a line for each figure. The first one is the nanoseconds of the job, under this name.
    pub fn print(&self, rt: &impl Print, name: &str) -> io::Result<()> {
        print_figure(rt, name, Decimal(self.nanos, self.times))?;
        match &self.detail {
            Detail::Nothing => Ok(()),
            Detail::Trips {
                p50,
                p90,
                p99,
                p999,
                p9999,
            } => {
                print_trips(rt, *p50, *p90, *p99)?;
                print_late_trips(rt, *p999, *p9999)
            }
            Detail::Received { all, copies, laps } => print_received(rt, *all, *copies, *laps),
            Detail::Whole(nanos) => print_figure(rt, "whole", Decimal(*nanos, self.times)),
        }
    }
}

/// Prints the line of a figure. (Each `println!` is proved with all that is alive at it, so few are in one function.)
fn print_figure(rt: &impl Print, name: &str, figure: Decimal) -> io::Result<()> {
    println!(rt; "{name} {figure}")
}

fn print_trips(rt: &impl Print, p50: u32, p90: u32, p99: u32) -> io::Result<()> {
    println!(rt; "p50 {p50}\np90 {p90}\np99 {p99}")
}

fn print_late_trips(rt: &impl Print, p999: u32, p9999: u32) -> io::Result<()> {
    println!(rt; "p999 {p999}\np9999 {p9999}")
}

fn print_received(rt: &impl Print, all: u64, copies: u64, laps: u64) -> io::Result<()> {
    print_figure(rt, "copied", Decimal(copies, all))?;
    print_figure(
        rt,
        "laps_per_million",
        Decimal(laps.saturating_mul(1_000_000), all),
    )
}
