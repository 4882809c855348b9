//! One counter that is set while two threads read it.
ghost use Rattle.std.specs.Thread.{IsSync};

use crate::fault::Fault;
use crate::rest::{Rest, TRIES};
use crate::task::{Task, time};
use ring_ends::{CountersEnd, ReaderEnd};
use std::alloc::Global;
use std::rt::Clock;
use std::sync::{Barrier, Wait};
use std::thread::{Threads, join, map_vec};

/// The counter that is watched.
const WATCHED: u32 = 7;

/// How many threads watch it.
const WATCHERS: u32 = 2;

/// Sets the counter to 1, 2 and so on.
#[derive(Drop)]
struct CountUp(CountersEnd);

impl Task for CountUp {
    fn step(&mut self, number: u64) -> Result<(), Fault> {
        let value = number.wrapping_add(1).cast_signed();
        self.0.set(WATCHED, value)?;
        Ok(())
    }
}

/// Reads the counter until it has the last value. `WRONG_MESSAGE` if a value is less than the one before, `STUCK` if
/// the last one does not come.
fn watch(mut reader: ReaderEnd, last: i64) -> Result<(), Fault> {
    let mut seen = 0;
    let mut rest = Rest::new();
    for _ in 0..TRIES {
        match reader.load(WATCHED) {
            Ok(value) if value == seen => rest.wait(),
            Ok(value) if value > seen => {
                seen = value;
                rest.reset();
            }
            _ => return Err(Fault::WRONG_MESSAGE),
        }
        if seen >= last {
            return Ok(());
        }
    }
    Err(Fault::STUCK)
}

/// All readers, each on a thread of its own, once all threads are there.
fn watch_all<R: Threads + Sync + Wait>(
    rt: &R,
    readers: Vec<ReaderEnd>,
    start: &Barrier,
    last: i64,
) -> Result<(), Fault> {
    let watched = map_vec(
        rt,
        readers,
        &|reader: ReaderEnd| -> Result<(), Fault> {
            start.wait(rt);
            watch(reader, last)
        },
    )?;
    for result in watched.iter() {
        (*result)?;
    }
    Ok(())
}

/// The readers that watch.
fn readers_of(alloc: Global, counters: &mut CountersEnd) -> Result<Vec<ReaderEnd>, Fault> {
    let mut them = Vec::new(alloc);
    for _ in 0..WATCHERS {
        let reader = counters.reader()?;
        them.push(reader)?;
    }
    Ok(them)
}

/// Sets a counter this many times while threads watch it, and returns the nanoseconds that this took. The counters are
/// in use, and were not set yet.
pub fn run_watched<R: Clock + Threads + Sync + Wait>(
    rt: &R,
    alloc: Global,
    mut counters: CountersEnd,
    times: u64,
) -> Result<u64, Fault> {
    let readers = readers_of(alloc, &mut counters)?;
    let start = Barrier::new(readers.len().saturating_add(1));
    let start = &start;
    let (nanos, watched) = join(
        rt,
        move || -> Result<u64, Fault> {
            start.wait(rt);
            time(rt, &mut CountUp(counters), times)
        },
        move || -> Result<(), Fault>
            requires { IsSync R.row }
        { watch_all(rt, readers, start, times.cast_signed()) },
    );
    watched.and(nanos)
}
