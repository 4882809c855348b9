ghost use Rattle.std.specs.Thread.{IsSync};
ghost use Rattle.ring_board.specs.Seats.{IsTransmitterOf, IsReceiverOf};

use crate::board::bench::{closed, opened, subscribed};
use crate::compare::same;
use ring_board::{Board, CopyReceiver, Transmitter};
use std::thread::{Threads, join};

const BODIES: u64 = 10_000;

const TURNS: u64 = 50_000_000;

/// A number three times.
fn body_of(number: u64) -> [u8; 24] {
    let bytes = number.to_le_bytes();
    let mut body = [0; 24];
    body[0..8].copy_from_slice(&bytes);
    body[8..16].copy_from_slice(&bytes);
    body[16..24].copy_from_slice(&bytes);
    body
}

/// The number that a body has three times.
fn number_of(body: &[u8]) -> Option<u64> {
    if body.len() != 24 {
        return None;
    }
    let mut bytes = [0; 8];
    bytes.copy_from_slice(&body[0..8]);
    let number = u64::from_le_bytes(bytes);
    if body == body_of(number).as_slice() {
        Some(number)
    } else {
        None
    }
}

fn send_all(board: &Board, mut transmitter: Transmitter) -> Transmitter
    requires { IsTransmitterOf board.now transmitter }
    ensures { IsTransmitterOf board.now result }
{
    'sends: for number in 0..BODIES {
        let _ = board.transmit(&mut transmitter, 1, &body_of(number));
    }
    transmitter
}

/// What a reader came to: whether all copies were as they should be, and the last one.
#[derive(Drop)]
struct Reading {
    receiver: CopyReceiver,
    right: bool,
    last: Option<u64>,
}

/// Whether this number may come after the last one. With equal counts they are neighbours.
fn may_follow(last: Option<u64>, number: u64, is_joined: bool) -> bool {
    match last {
        Some(before) => before < number && (!is_joined || number - before == 1),
        None => true,
    }
}

/// Reads until the last body came.
fn read_all(board: &Board, mut receiver: CopyReceiver) -> Reading
    requires { IsReceiverOf board.now receiver }
    ensures { IsReceiverOf board.now result.receiver }
{
    let mut last = None;
    let mut last_count = 0;
    let mut right = true;
    'turns: for _ in 0..TURNS {
        let count = receiver.lapped_count();
        let Ok(Some(copied)) = receiver.receive(board) else {
            continue;
        };
        let number = number_of(copied.body);
        right = match number {
            Some(number) => right && may_follow(last, number, count == last_count),
            None => false,
        };
        last = number;
        last_count = count;
        if last == Some(BODIES - 1) || !right {
            break;
        }
    }
    Reading {
        receiver,
        right,
        last,
    }
}

/// One transmitter and two receivers, each on a thread of its own.
fn run<R: Threads + Sync>(
    rt: &R,
    board: &Board,
    transmitter: Transmitter,
    one: CopyReceiver,
    two: CopyReceiver,
) -> (Transmitter, (Reading, Reading))
    requires transmitter { IsTransmitterOf board.now transmitter }
    requires receivers { IsReceiverOf board.now one × IsReceiverOf board.now two }
    ensures transmitter { IsTransmitterOf board.now result.0 }
    ensures receivers { IsReceiverOf board.now result.1.0.receiver × IsReceiverOf board.now result.1.1.receiver }
{
    join(
        rt,
        move || -> Transmitter
            requires { IsTransmitterOf board.now transmitter }
            ensures { IsTransmitterOf board.entry.now result }
        { send_all(board, transmitter) },
        move || -> (Reading, Reading)
            requires { IsSync R.row × IsReceiverOf board.now one × IsReceiverOf board.now two }
            ensures { IsReceiverOf board.entry.now result.0.receiver × IsReceiverOf board.entry.now result.1.receiver }
        {
            join(
                rt,
                move || -> Reading
                    requires { IsReceiverOf board.now one }
                    ensures { IsReceiverOf board.entry.now result.receiver }
                { read_all(board, one) },
                move || -> Reading
                    requires { IsReceiverOf board.now two }
                    ensures { IsReceiverOf board.entry.now result.receiver }
                { read_all(board, two) },
            )
        },
    )
}

#[test]
fn copies_are_whole_and_in_order(rt: HostRuntime) {
    let (board, mut transmitter) = opened(&rt, rt.alloc(), 4096);
    let one = subscribed(&rt, rt.alloc(), &board, &mut transmitter);
    let two = subscribed(&rt, rt.alloc(), &board, &mut transmitter);
    let (mut transmitter, (one, two)) = run(&rt, &board, transmitter, one, two);
    same(&rt, (one.right, one.last), (true, Some(BODIES - 1)));
    same(&rt, (two.right, two.last), (true, Some(BODIES - 1)));
    board.join(&mut transmitter, one.receiver);
    board.join(&mut transmitter, two.receiver);
    let closed = closed(&rt, board, transmitter);
    same(&rt, closed.tail(), closed.intent());
}
