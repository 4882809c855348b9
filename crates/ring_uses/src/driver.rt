//! A conductor, two clients and a monitor of its counters, each on a thread of its own.
ghost use Rattle.std.specs.Prelude.{◌≡◌, IfOk, Some};
ghost use Rattle.ring_uses.specs.Driver.{AreCallersOf, KeepConductors};

mod client;
mod printing;
mod service;

use client::Caller;
use printing::Totals;
pub use printing::print_driven;
use ring_ends::{ConductorEnd, ReaderEnd, Sizes};
use ring_service::Finished;
use service::{COUNTERS, conduct, watch};
use std::alloc::Global;
use std::sync::Wait;
use std::sync::atomic::AtomicBool;
use std::sync::atomic::Ordering::SeqCst;
use std::thread::{Threads, join};
use thiserror::Error;

/// The sizes. The ring takes messages of up to 32 bytes. A reply takes 24 bytes on the broadcast buffer, which has room
/// for all 2,002 replies. So no client is lapped.
const SIZES: Sizes = Sizes {
    capacity: 256,
    replies: 65_536,
    counters: COUNTERS,
    reuse_ms: 0,
};

/// No memory was left for a reader of the values.
#[derive(Clone, Copy, Debug, Error)]
#[error("no reader of the values was made")]
pub struct NoReader;

/// Two callers.
type Callers = (Caller, Caller);

/// The results of the conductor, the clients and the monitor.
#[derive(Drop)]
pub struct Driven {
    pub finished: Finished,
    pub totals: Totals,
}

/// Makes a caller.
fn seat(alloc: Global, conductor: &mut ConductorEnd, label: &'static str) -> anyhow::Result<Caller>
    ensures shared { conductor.new.shared ≡ conductor.old.shared }
    ensures caller { IfOk result (λ c. c.client.shared ≡ conductor.old.shared) }
{
    let client = conductor.client(alloc)?;
    Ok(Caller::new(label, client))
}

/// Makes two callers, and a reader of the values for the monitor.
fn seat_all(alloc: Global, conductor: &mut ConductorEnd) -> anyhow::Result<(Callers, ReaderEnd)>
    ensures shared { conductor.new.shared ≡ conductor.old.shared }
    ensures callers { IfOk result (λ r. AreCallersOf conductor.old.shared r.0) }
    ensures reader { IfOk result (λ r. r.1.lender ≡ Some conductor.old.shared) }
{
    let Ok(reader) = conductor.reader() else {
        return Err(NoReader.into());
    };
    let one = seat(alloc, conductor, "requests")?;
    let two = seat(alloc, conductor, "errors")?;
    Ok(((one, two), reader))
}

/// Runs the callers on two threads, and then stops the others.
fn run_callers<R: Threads + Wait + Sync>(rt: &R, stop: &AtomicBool, callers: Callers) -> Callers
    ensures { KeepConductors callers result }
{
    let (one, two) = callers;
    let callers = join(
        rt,
        // What a thread returns belongs to the conductor of what went into the thread.
        move || -> Caller
            ensures { result.client.shared ≡ one.client.shared }
        { one.run(rt) },
        move || -> Caller
            ensures { result.client.shared ≡ two.client.shared }
        { two.run(rt) },
    );
    stop.store(true, SeqCst);
    callers
}

/// Runs the conductor and the monitor on two threads, until they are stopped.
fn run_service<R: Threads + Wait + Sync>(
    rt: &R,
    stop: &AtomicBool,
    conductor: ConductorEnd,
    reader: ReaderEnd,
) -> (ConductorEnd, (ReaderEnd, bool))
    ensures { (result.0.shared ≡ conductor.shared) × (result.1.0.lender ≡ reader.lender) }
{
    join(
        rt,
        move || -> ConductorEnd
            ensures { result.shared ≡ conductor.shared }
        { conduct(rt, stop, conductor) },
        move || -> (ReaderEnd, bool)
            ensures { result.0.lender ≡ reader.lender }
        { watch(rt, stop, reader) },
    )
}

/// Runs the callers, the conductor and the monitor, each on a thread of its own, until the callers are done.
fn run_all<R: Threads + Wait + Sync>(
    rt: &R,
    callers: Callers,
    conductor: ConductorEnd,
    reader: ReaderEnd,
) -> (Callers, (ConductorEnd, (ReaderEnd, bool)))
    ensures callers { KeepConductors callers result.0 }
    ensures service { (result.1.0.shared ≡ conductor.shared) × (result.1.1.0.lender ≡ reader.lender) }
{
    let stop = AtomicBool::new(false);
    let flag = &stop;
    join(
        rt,
        move || -> Callers
            ensures { KeepConductors callers result }
        { run_callers(rt, flag, callers) },
        move || -> (ConductorEnd, (ReaderEnd, bool))
            ensures { (result.0.shared ≡ conductor.shared) × (result.1.0.lender ≡ reader.lender) }
        { run_service(rt, flag, conductor, reader) },
    )
}

/// Runs a conductor, two clients that count up, and a monitor, each on a thread of its own.
pub fn drive<R: Threads + Wait + Sync>(rt: &R, alloc: Global) -> anyhow::Result<Driven> {
    // All ends are made before a thread starts. After that the conductor belongs to its thread, and no other thread can
    // subscribe.
    let mut conductor = ConductorEnd::new(alloc, SIZES)?;
    let (callers, reader) = seat_all(alloc, &mut conductor)?;

    let ((one, two), (mut conductor, (reader, saw_fall))) = run_all(rt, callers, conductor, reader);

    // All clients and the reader are taken back, so the conductor can finish.
    let totals = Totals {
        replies: one.replies.saturating_add(two.replies),
        laps: one.laps.saturating_add(two.laps),
        saw_fall,
    };
    conductor.join(one.client);
    conductor.join(two.client);
    conductor.join_reader(reader);
    let finished = conductor.finish().map_err(|refused| refused.reason)?;
    Ok(Driven { finished, totals })
}
