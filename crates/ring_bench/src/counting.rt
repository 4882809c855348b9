//! Counters: set, read, allocated and freed by one thread.
use crate::fault::Fault;
use crate::job::Job;
use crate::sample::Sample;
use crate::task::{Task, time};
use crate::watching::run_watched;
use ring_ends::{CountersEnd, ReaderEnd};
use std::alloc::Global;
use std::rt::Clock;
use std::sync::Wait;
use std::thread::Threads;

/// The counters of a run.
const COUNTERS: u32 = 4096;

/// The type of all counters.
const TYPE_ID: i32 = 5;

/// The label of all counters.
const LABEL: &[u8] = b"messages sent to stream 1001: ";

/// The counter of the step with this number. Neighbours in time are apart.
fn scattered(step: u64) -> u32 {
    ((step.wrapping_mul(2_654_435_761) >> 7) % u64::from(COUNTERS)) as u32
}

/// Allocates all counters at a moment.
fn fill(counters: &mut CountersEnd, moment: u32) -> Result<(), Fault> {
    for k in 0..COUNTERS {
        let number = u64::from(moment) * u64::from(COUNTERS) + u64::from(k);
        let key = number.to_le_bytes();
        let moment = u64::from(moment);
        let allocated = counters.allocate_owned(moment, TYPE_ID, &key, LABEL, number, 0);
        if allocated.is_err() {
            return Err(Fault::REFUSED);
        }
    }
    Ok(())
}

/// Frees all counters at a moment.
fn free_all(counters: &mut CountersEnd, moment: u32) -> Result<(), Fault> {
    for id in 0..COUNTERS {
        if counters.free(u64::from(moment), id).is_err() {
            return Err(Fault::REFUSED);
        }
    }
    Ok(())
}

/// Sets counters.
#[derive(Drop)]
struct Sets(CountersEnd);

impl Task for Sets {
    fn step(&mut self, number: u64) -> Result<(), Fault> {
        self.0.set(scattered(number), number.cast_signed())?;
        Ok(())
    }
}

/// Allocates all counters and frees them.
#[derive(Drop)]
struct Cycles(CountersEnd);

impl Task for Cycles {
    fn step(&mut self, number: u64) -> Result<(), Fault> {
        let moment = u32::try_from(number).unwrap_or(u32::MAX);
        fill(&mut self.0, moment)?;
        free_all(&mut self.0, moment)
    }
}

/// Reads counters.
#[derive(Drop)]
struct Gets {
    reader: ReaderEnd,
    sum: u64,
}

impl Task for Gets {
    fn step(&mut self, number: u64) -> Result<(), Fault> {
        match self.reader.load(scattered(number)) {
            Ok(value) => {
                self.sum = self.sum.wrapping_add(value.cast_unsigned());
                Ok(())
            }
            Err(_bad_id) => Err(Fault::REFUSED),
        }
    }
}

/// The sum of the values that this many steps read, if each counter has its id.
fn sum_of(times: u64) -> u64 {
    let mut sum = 0u64;
    for step in 0..times {
        sum = sum.wrapping_add(u64::from(scattered(step)));
    }
    sum
}

/// Reads counters after it set each to its id, and returns the nanoseconds that this took.
fn get_often<R: Clock>(rt: &R, mut counters: CountersEnd, times: u64) -> Result<u64, Fault> {
    for id in 0..COUNTERS {
        counters.set(id, i64::from(id))?;
    }
    let reader = counters.reader()?;
    let mut gets = Gets { reader, sum: 0 };
    let nanos = time(rt, &mut gets, times)?;
    if gets.sum == sum_of(times) {
        Ok(nanos)
    } else {
        Err(Fault::WRONG_MESSAGE)
    }
}

/// Allocates and frees all counters this many times.
fn cycle_often<R: Clock>(rt: &R, counters: CountersEnd, rounds: u64) -> Result<Sample, Fault> {
    let nanos = time(rt, &mut Cycles(counters), rounds)?;
    Ok(Sample::new(nanos, rounds.wrapping_mul(u64::from(COUNTERS))))
}

/// Does a job with counters that are all in use.
fn run_filled<R: Clock + Threads + Sync + Wait>(
    rt: &R,
    alloc: Global,
    counters: CountersEnd,
    job: Job,
    times: u64,
) -> Result<u64, Fault> {
    match job {
        Job::Sets => time(rt, &mut Sets(counters), times),
        Job::Gets => get_often(rt, counters, times),
        _ => run_watched(rt, alloc, counters, times),
    }
}

/// Does what the job says this many times, or some more. `REFUSED`, `STUCK` and `WRONG_MESSAGE` if values are lost.
pub fn run_counters<R: Clock + Threads + Sync + Wait>(
    rt: &R,
    alloc: Global,
    job: Job,
    times: u64,
) -> Result<Sample, Fault> {
    let mut counters = CountersEnd::new(alloc, COUNTERS, 0)?;
    if job == Job::Cycles {
        return cycle_often(rt, counters, times.div_ceil(u64::from(COUNTERS)));
    }
    fill(&mut counters, 0)?;
    let nanos = run_filled(rt, alloc, counters, job, times)?;
    Ok(Sample::new(nanos, times))
}
