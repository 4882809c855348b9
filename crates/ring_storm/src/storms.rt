//! Storms. Clients on several threads send commands to one conductor.
ghost use Rattle.std.specs.Prelude.{◌≡◌, ◌↔◌, IfOk, Err};
ghost use Rattle.ring_storm.specs.declared.plan.StormFault.TheVariants.{BadPlan};
ghost use Rattle.ring_storm.specs.Storming.{HasAll, HasFinished, IsEndOf, IsFreshOf, IsPlan, IsReportOf};

use crate::gate::Gate;
use crate::levels::level;
use crate::plan::{StormFault, StormPlan, StormReport};
use crate::report::report;
use crate::seats::{Endpoints, LevelEnd, StormEnd};
use crate::shared::Shared;
use ring_board::Board;
use ring_counters::{CounterValues, CountersManager};
use ring_rings::{Bodies, InWords, ManyToOne, Ring};
use ring_service::{Conductor, finish};
use std::alloc::Global;
use std::sync::Wait;
use std::sync::atomic::AtomicBool;
use std::thread;
use std::thread::Threads;

/// Runs the clients of a plan against one conductor, all on threads of their own, and reports the results.
///
/// Each client sends its commands one by one through a many-to-one ring, when the gate lets it. It waits for each reply
/// on a broadcast buffer that has room for all replies. The first command of a client allocates a counter of type 1
/// with an empty key. The label is `c` and the client's number. Each later command sets the counter to the command's
/// number. The conductor works at the moment 0 until it has taken all commands. Then all producers and receivers are
/// joined, and the conductor finishes. This happens also if threads gave up. So the report's `sum` follows from the
/// plan. Each client's counter ends at the number of its commands, or at 0 if it sends only one.
///
/// These are the errors, in this order:
/// - `BadPlan` if a number of the plan is not allowed, before anything is done;
/// - `OutOfMemory` if there is no memory, or if a thread could not be started, or if the gate kept a thread from its
///   start;
/// - `TurnsSpent` if a wait took the number of turns that the plan allows.
///
/// All threads have ended when the call returns. The call may wait.
pub fn storm<R: Threads + Wait, G: Gate + Sync>(
    rt: &R,
    alloc: Global,
    plan: &StormPlan,
    gate: &G,
) -> Result<StormReport, StormFault>
    ensures bad_plan { (result ≡ Err BadPlan) ↔ (IsPlan plan.now → ⊥) }
    ensures report { IfOk result (IsReportOf plan.now) }
{
    storm_over::<InWords, R, G>(rt, alloc, plan, gate)
}

/// Does what `storm` does, over a ring of either form. With `InSlots` the bodies are in plain memory.
pub fn storm_over<B: Bodies + Sync, R: Threads + Wait, G: Gate + Sync>(
    rt: &R,
    alloc: Global,
    plan: &StormPlan,
    gate: &G,
) -> Result<StormReport, StormFault>
    ensures bad_plan { (result ≡ Err BadPlan) ↔ (IsPlan plan.now → ⊥) }
    ensures report { IfOk result (IsReportOf plan.now) }
{
    if !plan.is_lawful() {
        return Err(StormFault::BadPlan);
    }
    let Ok((ring, producer, consumer)) = Ring::<ManyToOne, B>::new(alloc, plan.ring) else {
        return Err(StormFault::OutOfMemory);
    };
    let Ok((board, transmitter)) = Board::new(alloc, plan.board_capacity()) else {
        return Err(StormFault::OutOfMemory);
    };
    let Ok((values, counters)) = CountersManager::new(alloc, plan.clients, 0) else {
        return Err(StormFault::OutOfMemory);
    };
    let endpoints = Endpoints {
        producer,
        conductor: Conductor::new(consumer, transmitter, counters),
    };
    let StormEnd {
        finished,
        seen,
        failure,
    } = run(rt, alloc, plan, gate, ring, board, values, endpoints);
    match failure {
        Some(failure) => Err(StormFault::from(failure)),
        None => Ok(report(finished, seen)),
    }
}

/// Runs all threads, and finishes with what they return, also if some of them gave up.
fn run<B: Bodies + Sync, R: Threads + Wait, G: Gate + Sync>(
    rt: &R,
    alloc: Global,
    plan: &StormPlan,
    gate: &G,
    ring: Ring<ManyToOne, B>,
    board: Board,
    values: CounterValues,
    endpoints: Endpoints,
) -> StormEnd
    requires plan { IsPlan plan.now }
    requires endpoints { IsFreshOf plan.now ring board values endpoints }
    requires whole { HasAll endpoints }
    ensures { HasFinished plan.now ring board values result }
{
    let LevelEnd {
        endpoints,
        seen,
        failure,
    } = run_threads(rt, alloc, plan, gate, &ring, &board, &values, endpoints);
    let finished = match finish(ring, board, values, endpoints.conductor, endpoints.producer) {
        Ok(finished) => finished,
        Err(_refused) => unreachable!(),
    };
    StormEnd {
        finished,
        seen,
        failure,
    }
}

/// Runs all threads, and takes their seats back.
fn run_threads<B: Bodies + Sync, R: Threads + Wait, G: Gate + Sync>(
    rt: &R,
    alloc: Global,
    plan: &StormPlan,
    gate: &G,
    ring: &Ring<ManyToOne, B>,
    board: &Board,
    values: &CounterValues,
    endpoints: Endpoints,
) -> LevelEnd
    requires plan { IsPlan plan.now }
    requires endpoints { IsFreshOf plan.now ring.now board.now values.now endpoints }
    requires whole { HasAll endpoints }
    ensures end { IsEndOf plan.now ring.now board.now values.now plan.now.clients result }
    ensures whole { HasAll result.endpoints }
{
    let flag = AtomicBool::new(false);
    let stopped = &flag;
    let plan = *plan;
    thread::scope(
        thread::scope_env(),
        rt,
        |scope| -> LevelEnd
            requires plan { IsPlan plan }
            requires endpoints { IsFreshOf plan ring.now board.now values.now endpoints }
            requires whole { HasAll endpoints }
            ensures end { IsEndOf plan ring.entry.now board.entry.now values.entry.now plan.clients result }
            ensures whole { HasAll result.endpoints }
        {
            let shared = Shared {
                ring,
                board,
                values,
                gate,
                stopped,
                plan,
            };
            level(scope, rt, alloc, shared, plan.clients, endpoints)
        },
    )
}
