//! The functions that start and join the threads of a storm.
ghost use Rattle.std.specs.Prelude.{◌≡◌, ◌+◌, ◌<◌, ◌≤◌, [], None, Some};
ghost use Rattle.ring_storm.specs.declared.seats.Failure.TheVariants.{OutOfMemory};
ghost use Rattle.ring_rings.specs.Seats.{shares_of, IsConsumerOf};
ghost use Rattle.ring_service.specs.{Conducting.IsConductorOf, Finishing.joined_by};
ghost use Rattle.ring_storm.specs.Storming.{HasConducted, HasCounters, HasSeatsBack, HasWorked, IsClientAt};
ghost use Rattle.ring_storm.specs.Storming.{IsClientOf, IsEndAt, IsFreshAt, IsNew, IsPlan, TakesSeats};
ghost use Rattle.ring_storm.specs.Storming.{all_commands, board_shares_of, failure_after, taken_by};

use crate::conductor::ConductorEnd;
use crate::gate::Gate;
use crate::promises::{ClientBack, ConductorBack};
use crate::seats::{Endpoints, Failure, LevelEnd, StormClient};
use crate::shared::Shared;
use core::thread::Stack;
use ring_rings::Bodies;
use std::alloc::Global;
use std::snapshot::Snapshot;
use std::thread::{Scope, Threads};

/// Returns the stack of a thread that is to start. If the gate refuses the thread, the stack is larger than any system
/// gives, so the thread cannot be started.
fn stack_of<G: Gate>(gate: &G, thread: u32) -> Stack {
    if gate.may_start(thread) {
        Stack::new()
    } else {
        Stack::new().stack_size(usize::MAX)
    }
}

/// Returns a level that goes no deeper, since memory ran out or a thread could not be started.
fn give_up(endpoints: Endpoints) -> LevelEnd
    ensures endpoints { result.endpoints ≡ endpoints }
    ensures seen { result.seen ≡ 0 }
    ensures failure { result.failure ≡ Some OutOfMemory }
{
    LevelEnd {
        endpoints,
        seen: 0,
        failure: Some(Failure::OutOfMemory),
    }
}

/// Returns the innermost level, which is the conductor on a thread of its own.
fn conduct<'s, E, R: Threads, G: Gate + Sync, B: Bodies + Sync>(
    scope: &'s Scope<'s, E>,
    rt: &'s R,
    shared: Shared<'s, G, B>,
    endpoints: Endpoints,
) -> LevelEnd
    requires plan { IsPlan shared.plan }
    requires endpoints { IsFreshAt shared endpoints }
    ensures endpoints { IsFreshAt shared.entry result.endpoints }
    ensures producer { result.endpoints.producer ≡ endpoints.producer }
    ensures receivers { board_shares_of result.endpoints.conductor ≡ board_shares_of endpoints.conductor }
    ensures seen { result.seen ≡ 0 }
    ensures done { (result.failure ≡ None) → all_commands shared.entry.plan ≤ taken_by result.endpoints.conductor }
{
    let Endpoints {
        producer,
        conductor,
    } = endpoints;
    // The closure takes plain references, since nothing is known in it of a struct that holds references.
    let Shared {
        ring,
        board,
        values,
        gate,
        stopped,
        plan,
    } = shared;
    let given = Snapshot::of(&conductor);
    let started = stack_of(gate, plan.clients).spawn_scoped_with(
        scope,
        ConductorBack {
            ring,
            board,
            values,
            given,
            plan,
        },
        move || -> ConductorEnd
            requires { IsPlan plan × IsConductorOf IsConsumerOf ring.now board.now values.now conductor
                × HasCounters plan conductor × (joined_by conductor ≡ []) }
            ensures conducted { HasConducted plan ring.entry.now board.entry.now values.entry.now result }
            ensures shares { board_shares_of result.conductor ≡ board_shares_of conductor }
        {
            let shared = Shared {
                ring,
                board,
                values,
                gate,
                stopped,
                plan,
            };
            shared.run_conductor(conductor)
        },
    );
    match started {
        Ok(child) => {
            let ConductorEnd { conductor, is_done } = child.join(rt);
            LevelEnd {
                endpoints: Endpoints {
                    producer,
                    conductor,
                },
                seen: 0,
                failure: if is_done {
                    None
                } else {
                    Some(Failure::TurnsSpent)
                },
            }
        }
        Err(closure) => {
            // The closure ends at once, since all threads are stopped. It returns the conductor.
            shared.stop();
            let ConductorEnd { conductor, .. } = (closure.value)();
            give_up(Endpoints {
                producer,
                conductor,
            })
        }
    }
}

/// Starts the clients below a number, each on a thread of its own, and after them the conductor. Each level starts one
/// client and calls the next level. After that it joins the thread and takes the seats back.
pub(crate) fn level<'s, E, R: Threads, G: Gate + Sync, B: Bodies + Sync>(
    scope: &'s Scope<'s, E>,
    rt: &'s R,
    alloc: Global,
    shared: Shared<'s, G, B>,
    remaining: u32,
    mut endpoints: Endpoints,
) -> LevelEnd
    requires plan { IsPlan shared.plan × (remaining ≤ 64) }
    requires endpoints { IsFreshAt shared endpoints }
    requires shares { (remaining < shares_of endpoints.producer) × (remaining < board_shares_of endpoints.conductor) }
    ensures end { IsEndAt shared.entry remaining result }
    ensures seats { HasSeatsBack endpoints result.endpoints }
{
    if remaining == 0 {
        return conduct(scope, rt, shared, endpoints);
    }
    let index = remaining - 1;
    let Ok(client) = shared.split_client(alloc, &mut endpoints, index) else {
        shared.stop();
        return give_up(endpoints);
    };
    let Shared {
        ring,
        board,
        values,
        gate,
        stopped,
        plan,
    } = shared;
    let started = stack_of(gate, index).spawn_scoped_with(
        scope,
        ClientBack {
            ring,
            board,
            plan,
            index,
        },
        move || -> StormClient
            requires client { IsClientOf ring.now board.now client }
            requires new { IsNew client }
            ensures client { IsClientOf ring.entry.now board.entry.now result }
            ensures worked { HasWorked plan.commands client.index result }
        {
            let shared = Shared {
                ring,
                board,
                values,
                gate,
                stopped,
                plan,
            };
            shared.run_client(client)
        },
    );
    let (end, client) = match started {
        Ok(child) => {
            let end = level(scope, rt, alloc, shared, index, endpoints);
            (end, child.join(rt))
        }
        Err(closure) => {
            // The closure ends at once, since all threads are stopped. It returns the seats.
            shared.stop();
            let client = (closure.value)();
            (give_up(endpoints), client)
        }
    };
    gather(shared, index, end, client)
}

/// Takes a client's seats back. The client has spent its turns if it did not get all its replies.
fn gather<G, B: Bodies>(
    shared: Shared<'_, G, B>,
    index: u32,
    end: LevelEnd,
    client: StormClient,
) -> LevelEnd
    requires plan { IsPlan shared.plan × (index < 64) }
    requires end { IsEndAt shared index end }
    requires client { IsClientAt shared client }
    requires worked { HasWorked shared.plan.commands index client }
    ensures end { IsEndAt shared.entry (index + 1) result }
    ensures seats { TakesSeats client end.endpoints result.endpoints }
    ensures failure { result.failure ≡ failure_after client.seen shared.entry.plan.commands end.failure }
{
    let LevelEnd {
        mut endpoints,
        seen,
        failure,
    } = end;
    let replies = shared.join_client(&mut endpoints, client);
    let seen = seen + replies;
    if replies < u64::from(shared.plan.commands) {
        return LevelEnd {
            endpoints,
            seen,
            failure: Some(failure.unwrap_or(Failure::TurnsSpent)),
        };
    }
    LevelEnd {
        endpoints,
        seen,
        failure,
    }
}
