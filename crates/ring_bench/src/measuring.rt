//! Finds how much fills the time that is asked for, and measures.
use crate::at_once::run_at_once;
use crate::batches::{run_batches, run_solo};
use crate::broadcast::run_broadcast;
use crate::counting::run_counters;
use crate::fault::Fault;
use crate::flow::run_flow;
use crate::job::Job;
use crate::request::{Contender, Request};
use crate::sample::Sample;
use crate::storm::run_storm;
use crate::trips::run_trips;
use ring_rings::{Bodies, InSlots, InWords, Kind, ManyToOne, OneToOne};
use std::alloc::Global;
use std::rt::Clock;
use std::sync::Wait;
use std::thread::Threads;

/// How often a job fills the time of a request.
#[derive(Clone, Copy)]
struct Found {
    request: Request,
    job: Job,
    times: u64,
}

/// Measures, and keeps what it found out.
#[derive(Drop)]
pub struct Measurer {
    alloc: Global,
    found: Vec<Found>,
}

/// The tries to fill the time.
const TRIES: u32 = 8;

/// The greatest step from one try to the next.
const MOST_GROWTH: u64 = 64;

/// Runs a job with a shared ring of a kind this many times.
fn run_ring<R: Clock + Threads + Sync, K: Kind + Sync, B: Bodies + Sync>(
    rt: &R,
    alloc: Global,
    request: &Request,
    job: Job,
    times: u64,
) -> Result<Sample, Fault> {
    match job {
        Job::Trips => run_trips::<R, K, B>(rt, alloc, request, times),
        _ => run_batches::<K, B, R>(rt, alloc, request, times),
    }
}

/// Runs a job with the ring that is asked for. `NO_CONTENDER` if it does not take part.
fn run_any_ring<R: Clock + Threads + Sync>(
    rt: &R,
    alloc: Global,
    request: &Request,
    job: Job,
    times: u64,
) -> Result<Sample, Fault> {
    match request.contender {
        Contender::Solo => run_solo(rt, alloc, request, times),
        Contender::OneToOne => run_ring::<R, OneToOne, InWords>(rt, alloc, request, job, times),
        Contender::ManyToOne => run_ring::<R, ManyToOne, InWords>(rt, alloc, request, job, times),
        Contender::PlainOneToOne | Contender::OneToOneSingle => {
            run_ring::<R, OneToOne, InSlots>(rt, alloc, request, job, times)
        }
        Contender::PlainManyToOne | Contender::ManyToOneSingle => {
            run_ring::<R, ManyToOne, InSlots>(rt, alloc, request, job, times)
        }
        Contender::OneToOneBatch => run_at_once::<OneToOne, R>(rt, alloc, request, times),
        Contender::ManyToOneBatch => run_at_once::<ManyToOne, R>(rt, alloc, request, times),
        _ => Err(Fault::NO_CONTENDER),
    }
}

/// Runs a job this many times.
fn run<R: Clock + Threads + Sync + Wait>(
    rt: &R,
    alloc: Global,
    request: &Request,
    job: Job,
    times: u64,
) -> Result<Sample, Fault> {
    match job {
        Job::Batches | Job::Trips => run_any_ring(rt, alloc, request, job, times),
        Job::Flow => run_flow(rt, alloc, request, times),
        Job::Broadcast => run_broadcast(rt, alloc, request, times),
        Job::Sets | Job::Gets | Job::Cycles | Job::WatchedSets => run_counters(
            rt, alloc, job, times,
        ),
        Job::Storm => run_storm(rt, alloc, request, times),
    }
}

/// Runs a job more and more often, until it takes about as long as is asked for, and returns how often that is.
fn fill<R: Clock + Threads + Sync + Wait>(
    rt: &R,
    alloc: Global,
    request: &Request,
    job: Job,
) -> Result<u64, Fault> {
    let wanted = request.milliseconds.clamp(1, 1000) * 1_000_000;
    let (least, most) = job.limits();
    let mut times = least;
    for _ in 0..TRIES {
        let nanos = run(rt, alloc, request, job, times)?.nanos;
        let grown = times.saturating_mul(wanted) / nanos.max(1);
        times = grown
            .min(times.saturating_mul(MOST_GROWTH))
            .max(least)
            .min(most);
        if nanos > wanted / 4 || times == most {
            break;
        }
    }
    Ok(times)
}

impl Measurer {
    pub fn new(alloc: Global) -> Measurer {
        Measurer {
            alloc,
            found: Vec::new(alloc),
        }
    }

    /// How often a job fills the time of a request. It is found out once.
    fn times<R: Clock + Threads + Sync + Wait>(
        &mut self,
        rt: &R,
        request: &Request,
        job: Job,
    ) -> Result<u64, Fault> {
        for it in self.found.iter() {
            if it.request == *request && it.job == job {
                return Ok(it.times);
            }
        }
        let times = fill(rt, self.alloc, request, job)?;
        self.found.push(Found {
            request: *request,
            job,
            times,
        })?;
        Ok(times)
    }

    /// Serves a request, of which these are the words after `run`.
    pub fn answer<R: Clock + Print + Threads + Sync + Wait>(
        &mut self,
        rt: &R,
        words: &[&str],
    ) -> Result<(), Fault> {
        let request = Request::parse(words)?;
        for job in request.workload.jobs() {
            let times = self.times(rt, &request, *job)?;
            let sample = run(rt, self.alloc, &request, *job, times)?;
            sample.print(rt, job.metric())?;
        }
        Ok(())
    }
}
