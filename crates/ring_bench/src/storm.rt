//! Clients, each on a thread, that send commands to one conductor and wait for every reply.
use crate::fault::Fault;
use crate::request::Request;
use crate::rest::TRIES;
use crate::sample::{Detail, Sample, nanos_since};
use ring_storm::{Gate, StormPlan, StormReport, storm};
use std::alloc::Global;
use std::rt::Clock;
use std::sync::Wait;
use std::sync::atomic::{AtomicU64, Ordering};
use std::thread::Threads;
use std::time::Instant;

/// Lets all clients send at once, and notes when the first thread started and when the last reply had come.
#[derive(Drop)]
struct Timed<'a, R> {
    rt: &'a R,
    plan: StormPlan,
    made: Instant,
    /// Nanoseconds since it was made.
    began: AtomicU64,
    ended: AtomicU64,
}

impl<R: Clock> Timed<'_, R> {
    /// The nanoseconds since it was made, very many if the clock cannot be read.
    fn nanos(&self) -> u64 {
        nanos_since(self.rt, self.made).unwrap_or(u64::MAX)
    }
}

impl<R: Clock> Gate for Timed<'_, R> {
    fn may_send(&self, _client: u32, _number: u32) -> bool {
        true
    }

    fn answered(&self, _client: u32, number: u32) {
        if number == self.plan.commands {
            self.ended.fetch_max(self.nanos(), Ordering::SeqCst);
        }
    }

    fn may_start(&self, thread: u32) -> bool {
        if thread.wrapping_add(1) == self.plan.clients {
            self.began.store(self.nanos(), Ordering::SeqCst);
        }
        true
    }
}

/// How many commands all clients of a plan send.
fn all_commands(plan: &StormPlan) -> u64 {
    u64::from(plan.clients).wrapping_mul(u64::from(plan.commands))
}

/// `WRONG_MESSAGE` unless each command came and had its reply, and each counter has its client's last value.
fn check(plan: &StormPlan, report: &StormReport) -> Result<(), Fault> {
    let all = all_commands(plan);
    // The first command of a client sets nothing.
    let sum = if plan.commands == 1 { 0 } else { all };
    let wanted = (all, 0, all, plan.clients, sum.cast_signed());
    let StormReport {
        received,
        left,
        seen,
        live,
        sum,
        ..
    } = report;
    if (*received, *left, *seen, *live, *sum) == wanted {
        Ok(())
    } else {
        Err(Fault::WRONG_MESSAGE)
    }
}

impl<R: Clock> Timed<'_, R> {
    /// The sample of a storm that took this many nanoseconds from its call to its return.
    fn sample(&self, whole: u64) -> Result<Sample, Fault> {
        let began = self.began.load(Ordering::SeqCst);
        let ended = self.ended.load(Ordering::SeqCst);
        if began > ended || ended > whole {
            return Err(Fault::NO_SYSTEM);
        }
        Ok(Sample {
            nanos: ended - began,
            times: all_commands(&self.plan),
            detail: Detail::Whole(whole),
        })
    }
}

/// Runs a storm in which each client sends this many commands. Its time runs from the start of the first thread until
/// the last reply has come, as that of the twins nearly does; the time of the whole call, in which all is made, joined
/// and taken apart, is its detail. `NO_STORM` if its numbers are not allowed, memory or a thread is missing, or nothing
/// came for a long time; `WRONG_MESSAGE` if commands or replies are lost; `NO_SYSTEM` if the clock cannot be read.
pub fn run_storm<R: Clock + Threads + Sync + Wait>(
    rt: &R,
    alloc: Global,
    request: &Request,
    times: u64,
) -> Result<Sample, Fault> {
    let plan = StormPlan {
        clients: request.threads,
        commands: u32::try_from(times).unwrap_or(u32::MAX),
        ring: request.capacity,
        turns: TRIES,
    };
    let gate = Timed {
        rt,
        plan,
        made: Instant::now(rt)?,
        began: AtomicU64::new(0),
        ended: AtomicU64::new(0),
    };
    let report = storm(rt, alloc, &plan, &gate)?;
    let whole = nanos_since(rt, gate.made)?;
    check(&plan, &report)?;
    gate.sample(whole)
}
