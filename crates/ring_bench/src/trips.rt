//! Commands to the conductor, and its replies.
ghost use Rattle.std.specs.Prelude.{◌≡◌, IfOk};
ghost use Rattle.ring_rings.specs.Seats.{IsConsumerOf};
ghost use Rattle.ring_board.specs.Seats.{IsReceiverOf};
ghost use Rattle.ring_service.specs.Asking.{producer_of, receiver_of, IsSeatedAt};
ghost use Rattle.ring_service.specs.Conducting.{IsConductorOf};

use crate::fault::Fault;
use crate::request::Request;
use crate::rest::{Rest, TRIES};
use crate::sample::{Detail, Sample};
use crate::task::{Task, time};
use ring_board::Board;
use ring_counters::{CounterValues, CountersManager};
use ring_rings::{Bodies, Kind, Ring};
use ring_service::Request::{Allocate, Set};
use ring_service::{Client, Conductor, Polled, Reply, Request as Command};
use std::alloc::Global;
use std::rt::Clock;
use std::sync::atomic::{AtomicBool, Ordering};
use std::thread::{Threads, join};
use std::time::Instant;

/// The commands that a call of the conductor may take.
const LIMIT: u32 = 64;

/// The counters of the conductor.
const COUNTERS: u32 = 16;

/// A client that sends commands, one after another, and waits for each reply.
#[derive(Drop)]
struct Caller<'a, K, B: Bodies, R> {
    rt: &'a R,
    ring: &'a Ring<K, B>,
    board: &'a Board,
    client: Client,
    /// When the last reply came.
    last: Instant,
    /// The nanoseconds of each trip.
    trips: Vec<u32>,
}

/// Waits for the reply to the command with this correlation id, and passes others. `WRONG_MESSAGE` if some were missed,
/// `STUCK` if it does not come.
fn receive(board: &Board, client: &mut Client, correlation: u64) -> Result<Reply, Fault>
    requires { IsReceiverOf board.now (receiver_of client.old) }
    ensures receiver { IsReceiverOf board.now (receiver_of client.new) }
    ensures producer { producer_of client.new ≡ producer_of client.old }
{
    let mut rest = Rest::new();
    for _ in 0..TRIES {
        match client.poll(board, correlation) {
            Polled::Answered(reply) => return Ok(reply),
            Polled::Another(_) | Polled::NoReply | Polled::Nothing => rest.wait(),
            Polled::Lapped(_) => return Err(Fault::WRONG_MESSAGE),
        }
    }
    Err(Fault::STUCK)
}

/// Sends a command, and waits for the reply.
fn ask<K: Kind, B: Bodies>(
    ring: &Ring<K, B>,
    board: &Board,
    client: &mut Client,
    command: Command<&[u8]>,
) -> Result<Reply, Fault>
    requires { IsSeatedAt K.many ring.now board.now client.old }
    ensures { IsSeatedAt K.many ring.now board.now client.new }
{
    let correlation = client.send(ring, command)?;
    receive(board, client, correlation)
}

/// Allocates the counter 0, and waits for the reply.
fn allocate<K: Kind, B: Bodies>(
    ring: &Ring<K, B>,
    board: &Board,
    client: &mut Client,
) -> Result<(), Fault>
    requires { IsSeatedAt K.many ring.now board.now client.old }
    ensures { IsSeatedAt K.many ring.now board.now client.new }
{
    let command: Command<&[u8]> = Allocate {
        type_id: 1,
        key: &[],
        label: &[],
    };
    match ask(ring, board, client, command)? {
        Reply::Allocated { id: 0, .. } => Ok(()),
        _ => Err(Fault::WRONG_MESSAGE),
    }
}

impl<'a, K: Kind, B: Bodies, R: Clock> Task for Caller<'a, K, B, R> {
    ghost is_ready = { λ s. IsSeatedAt K.many s.ring.now s.board.now s.client };

    fn step(&mut self, number: u64) -> Result<(), Fault> {
        let value = number.cast_signed();
        match ask(
            self.ring,
            self.board,
            &mut self.client,
            Set { id: 0, value },
        )? {
            Reply::Done { .. } => {}
            _ => return Err(Fault::WRONG_MESSAGE),
        }
        let now = Instant::now(self.rt)?;
        let nanos = now.duration_since(self.last).as_nanos();
        self.trips.push(u32::try_from(nanos).unwrap_or(u32::MAX))?;
        self.last = now;
        Ok(())
    }
}

/// What client and conductor share, and the two.
#[derive(Drop)]
struct Service<K, B: Bodies> {
    ring: Ring<K, B>,
    board: Board,
    values: CounterValues,
    conductor: Conductor,
    client: Client,
}

impl<K: Kind, B: Bodies> Service<K, B> {
    /// A ring and a board of this capacity, with a conductor and a client.
    fn open(alloc: Global, capacity: u32) -> Result<Service<K, B>, Fault>
        ensures conductor { IfOk result (λ s. IsConductorOf IsConsumerOf s.ring s.board s.values s.conductor) }
        ensures client { IfOk result (λ s. IsSeatedAt K.many s.ring s.board s.client) }
    {
        let (ring, producer, consumer) = Ring::<K, B>::new(alloc, capacity)?;
        let (board, transmitter) = Board::new(alloc, capacity)?;
        let (values, counters) = CountersManager::new(alloc, COUNTERS, 0)?;
        let mut conductor = Conductor::new(consumer, transmitter, counters);
        let receiver = conductor.subscribe(alloc, &board)?;
        Ok(Service {
            ring,
            board,
            values,
            conductor,
            client: Client::new(producer, receiver),
        })
    }
}

/// Works until it is stopped.
fn conduct<K, B: Bodies>(
    ring: &Ring<K, B>,
    board: &Board,
    values: &CounterValues,
    mut conductor: Conductor,
    stop: &AtomicBool,
) -> Conductor
    requires { IsConductorOf IsConsumerOf ring.now board.now values.now conductor }
{
    let mut rest = Rest::new();
    for _ in 0..TRIES {
        if stop.load(Ordering::SeqCst) {
            break;
        }
        if conductor.do_work(ring, board, values, 0, LIMIT).messages > 0 {
            rest.reset();
        } else {
            rest.wait();
        }
    }
    conductor
}

/// The one among sorted numbers that is above this many ten-thousandths of them.
fn part_of(sorted: &[u32], parts: usize) -> u32 {
    let place = sorted.len().saturating_mul(parts) / 10_000;
    if place < sorted.len() {
        sorted[place]
    } else {
        0
    }
}

/// The sample of round trips that took this many nanoseconds.
fn sample_of(nanos: u64, mut trips: Vec<u32>) -> Result<Sample, Fault> {
    trips.sort()?;
    let sorted = trips.as_slice();
    Ok(Sample {
        nanos,
        times: sorted.len() as u64,
        detail: Detail::Trips {
            p50: part_of(sorted, 5000),
            p90: part_of(sorted, 9000),
            p99: part_of(sorted, 9900),
            p999: part_of(sorted, 9990),
            p9999: part_of(sorted, 9999),
        },
    })
}

/// Allocates the counter 0, and then sends all commands. Returns the nanoseconds that these took.
fn call_often<R: Clock, K: Kind, B: Bodies>(
    rt: &R,
    caller: &mut Caller<'_, K, B, R>,
    times: u64,
) -> Result<u64, Fault>
    requires { IsSeatedAt K.many caller.old.ring.now caller.old.board.now caller.old.client }
{
    allocate(caller.ring, caller.board, &mut caller.client)?;
    caller.last = Instant::now(rt)?;
    time(rt, caller, times)
}

/// Sends all commands, and then says the conductor to stop.
fn call_all<R: Clock, K: Kind, B: Bodies>(
    rt: &R,
    mut caller: Caller<'_, K, B, R>,
    stop: &AtomicBool,
    times: u64,
) -> Result<Sample, Fault>
    requires { IsSeatedAt K.many caller.ring.now caller.board.now caller.client }
{
    let nanos = call_often(rt, &mut caller, times);
    stop.store(true, Ordering::SeqCst);
    sample_of(nanos?, caller.trips)
}

/// `WRONG_MESSAGE` unless the counter 0 has the last one of this many values.
fn check_last(conductor: &Conductor, times: u64) -> Result<(), Fault> {
    match conductor.counters().value(0) {
        Ok(value) if value == times.wrapping_sub(1).cast_signed() => Ok(()),
        _ => Err(Fault::WRONG_MESSAGE),
    }
}

/// A client and the conductor, each on a thread.
fn run_service<R: Clock + Threads + Sync, K: Kind + Sync, B: Bodies + Sync>(
    rt: &R,
    service: Service<K, B>,
    last: Instant,
    trips: Vec<u32>,
    times: u64,
) -> Result<Sample, Fault>
    requires conductor { IsConductorOf IsConsumerOf service.ring service.board service.values service.conductor }
    requires client { IsSeatedAt K.many service.ring service.board service.client }
{
    let Service {
        ring,
        board,
        values,
        conductor,
        client,
    } = service;
    let stop = AtomicBool::new(false);
    let (ring, board, values, stop) = (&ring, &board, &values, &stop);
    let caller = Caller {
        rt,
        ring,
        board,
        client,
        last,
        trips,
    };
    let (sample, conductor) = join(
        rt,
        move || -> Result<Sample, Fault>
            requires { IsSeatedAt K.many caller.ring.now caller.board.now caller.client }
        { call_all(rt, caller, stop, times) },
        move || -> Conductor
            requires { IsConductorOf IsConsumerOf ring.now board.now values.now conductor }
        { conduct(ring, board, values, conductor, stop) },
    );
    check_last(&conductor, times).and(sample)
}

/// Sends this many commands, one after another, and waits for each reply. `NO_BUFFER` if there is no ring of that
/// capacity; `REFUSED`, `STUCK` and `WRONG_MESSAGE` if commands or replies are lost.
pub fn run_trips<R: Clock + Threads + Sync, K: Kind + Sync, B: Bodies + Sync>(
    rt: &R,
    alloc: Global,
    request: &Request,
    times: u64,
) -> Result<Sample, Fault> {
    let last = Instant::now(rt)?;
    let trips = Vec::with_capacity(alloc, times.min(1 << 24) as usize)?;
    let service = Service::<K, B>::open(alloc, request.capacity)?;
    run_service(rt, service, last, trips, times)
}
