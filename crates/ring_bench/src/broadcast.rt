//! One transmitter that never waits, and its receivers, each on a thread of its own.
ghost use Rattle.std.specs.Prelude.{◌≡◌, All, IfOk};
ghost use Rattle.std.specs.Thread.{IsSync};
ghost use Rattle.ring_board.specs.Seats.{IsTransmitterOf, IsReceiverOf};

use crate::fault::Fault;
use crate::message::{Body, TYPE_ID, look};
use crate::request::Request;
use crate::rest::{Rest, TRIES};
use crate::sample::{Detail, Sample};
use crate::task::{Task, time};
use ring_board::{Board, CopyReceiver, Transmitter};
use std::alloc::Global;
use std::rt::Clock;
use std::sync::atomic::{AtomicBool, Ordering};
use std::sync::{Barrier, Wait};
use std::thread::{Threads, join, map_vec};

/// The transmitter and what it sends.
#[derive(Drop)]
struct Sender<'a> {
    board: &'a Board,
    transmitter: Transmitter,
    body: Body,
}

impl<'a> Task for Sender<'a> {
    ghost is_ready = { λ s. IsTransmitterOf s.board.now s.transmitter };

    fn step(&mut self, number: u64) -> Result<(), Fault> {
        let body = self.body.numbered(number);
        match self.board.transmit(&mut self.transmitter, TYPE_ID, body) {
            Ok(_) => Ok(()),
            Err(_refused) => Err(Fault::REFUSED),
        }
    }
}

/// What a receiver came to.
#[derive(Clone, Copy)]
struct Copies {
    count: u64,
    laps: u64,
    last: u64,
    is_wrong: bool,
}

impl Copies {
    fn new() -> Copies {
        Copies {
            count: 0,
            laps: 0,
            last: 0,
            is_wrong: false,
        }
    }

    /// Looks at a copy: its number is greater than the last one.
    fn note(&mut self, body: &[u8]) {
        let (number, stray) = look(body).unwrap_or((0, 1));
        self.is_wrong |= stray != 0 || self.count > 0 && number <= self.last;
        self.last = number;
        self.count = self.count.wrapping_add(1);
    }
}

/// Receives until all is transmitted and nothing is left.
fn receive_all(board: &Board, mut receiver: CopyReceiver, is_over: &AtomicBool) -> Copies
    requires { IsReceiverOf board.now receiver }
{
    let mut copies = Copies::new();
    let mut rest = Rest::new();
    for _ in 0..TRIES {
        let was_over = is_over.load(Ordering::SeqCst);
        match receiver.receive(board) {
            Ok(Some(copied)) => {
                copies.note(copied.body);
                rest.reset();
            }
            Ok(None) if was_over => break,
            Ok(None) => rest.wait(),
            Err(_lapped) => {}
        }
    }
    copies.laps = receiver.lapped_count();
    copies
}

/// All receivers, each on a thread of its own, once all threads are there.
fn receive_each<R: Threads + Sync + Wait>(
    rt: &R,
    board: &Board,
    receivers: Vec<CopyReceiver>,
    start: &Barrier,
    is_over: &AtomicBool,
) -> Result<Vec<Copies>, Fault>
    requires { All (λ receiver. IsReceiverOf board.now receiver) receivers.items }
{
    let copies = map_vec(
        rt,
        receivers,
        &|receiver: CopyReceiver| -> Copies
            requires { IsReceiverOf board.now receiver }
        {
            start.wait(rt);
            receive_all(board, receiver, is_over)
        },
    )?;
    Ok(copies)
}

/// Subscribes this many receivers.
fn subscribe_all(
    alloc: Global,
    board: &Board,
    transmitter: &mut Transmitter,
    receivers: u32,
) -> Result<Vec<CopyReceiver>, Fault>
    requires { IsTransmitterOf board.now transmitter.old }
    ensures transmitter { IsTransmitterOf board.now transmitter.new }
    ensures receivers { IfOk result (λ them. All (λ receiver. IsReceiverOf board.now receiver) them.items) }
{
    let mut them = Vec::new(alloc);
    for _ in 0..receivers {
        let receiver = board.subscribe(alloc, transmitter)?;
        them.push(receiver)?;
    }
    Ok(them)
}

/// Sends all messages once all receivers are there, and returns the nanoseconds that this took.
fn send_all<R: Clock + Wait>(
    rt: &R,
    mut sender: Sender<'_>,
    start: &Barrier,
    is_over: &AtomicBool,
    times: u64,
) -> Result<u64, Fault>
    requires { IsTransmitterOf sender.board.now sender.transmitter }
{
    start.wait(rt);
    let nanos = time(rt, &mut sender, times);
    is_over.store(true, Ordering::SeqCst);
    nanos
}

/// What all receivers came to. `WRONG_MESSAGE` if a copy is wrong or out of order, or the last one of a receiver is not
/// the last message.
fn add_up(copies: &[Copies], times: u64) -> Result<Detail, Fault> {
    let (mut count, mut laps) = (0u64, 0u64);
    for one in copies {
        if one.is_wrong || one.last.wrapping_add(1) != times {
            return Err(Fault::WRONG_MESSAGE);
        }
        count = count.wrapping_add(one.count);
        laps = laps.wrapping_add(one.laps);
    }
    Ok(Detail::Received {
        all: times.saturating_mul(copies.len() as u64),
        copies: count,
        laps,
    })
}

/// The transmitter and the receivers.
fn run_all<R: Clock + Threads + Sync + Wait>(
    rt: &R,
    sender: Sender<'_>,
    receivers: Vec<CopyReceiver>,
    times: u64,
) -> Result<Sample, Fault>
    requires sender { IsTransmitterOf sender.board.now sender.transmitter }
    requires receivers { All (λ receiver. IsReceiverOf sender.board.now receiver) receivers.items }
{
    let start = Barrier::new(receivers.len().saturating_add(1));
    let is_over = AtomicBool::new(false);
    let (board, start, is_over) = (sender.board, &start, &is_over);
    let (nanos, copies) = join(
        rt,
        move || -> Result<u64, Fault>
            requires { IsTransmitterOf sender.board.now sender.transmitter }
        { send_all(rt, sender, start, is_over, times) },
        move || -> Result<Vec<Copies>, Fault>
            requires { IsSync R.row × All (λ receiver. IsReceiverOf board.now receiver) receivers.items }
        { receive_each(rt, board, receivers, start, is_over) },
    );
    let detail = add_up(copies?.as_slice(), times)?;
    Ok(Sample {
        nanos: nanos?,
        times,
        detail,
    })
}

/// Transmits this many messages. `NO_CONTENDER` if the size is no multiple of 8; `NO_BUFFER` if there is no board of
/// that capacity; `REFUSED` and `WRONG_MESSAGE` if messages are lost.
pub fn run_broadcast<R: Clock + Threads + Sync + Wait>(
    rt: &R,
    alloc: Global,
    request: &Request,
    times: u64,
) -> Result<Sample, Fault> {
    let body = Body::new(alloc, request.size)?;
    let (board, mut transmitter) = Board::new(alloc, request.capacity)?;
    let receivers = subscribe_all(alloc, &board, &mut transmitter, request.threads)?;
    let sender = Sender {
        board: &board,
        transmitter,
        body,
    };
    run_all(rt, sender, receivers, times)
}
