//! The conductor at the end of its board.
use crate::calls::Plays;
use crate::compare::same;
use crate::conductor::bench::Answer::{Done, Value, Worked};
use crate::conductor::bench::Call::{Send, Work};
use crate::conductor::bench::{Answer, Bench, Call, plays_from};
use ring_rings::ManyToOne;
use ring_service::{Command, Finished, WorkStop};
use std::alloc::Global;
use std::process::Abort;

/// What a conductor leaves on whose board, which begins at this position, these calls are made: how many commands it
/// received, the board's tail, and how many commands are left in the ring.
fn leaves(
    rt: &impl Abort,
    alloc: Global,
    start: u64,
    calls: &[(Call<'_>, Answer)],
) -> (u64, u64, u32) {
    let mut bench = Bench::<ManyToOne>::new_at(rt, alloc, 4, start);
    bench.plays(rt, calls);
    left(bench.finish_alone().expect(rt, "an end"))
}

fn left(finished: Finished) -> (u64, u64, u32) {
    let mut rest = finished.rest;
    (finished.received, finished.board.tail(), rest.drain())
}

const FREE_NONE: Command<'static> = Command::Free {
    correlation: 0,
    id: 0,
};

static NO_ROOM: [(Call<'static>, Answer); 2] = [
    (Send(&[FREE_NONE]), Done),
    (Work(20), Worked(0, WorkStop::BoardEnd)),
];

#[test]
fn leaves_a_command_where_the_board_is_at_its_end(rt: HostRuntime) {
    let left = leaves(&rt, rt.alloc(), 4611686018427387904, &NO_ROOM);
    same(&rt, left, (0, 4611686018427387904, 1));
}

const FREE: Command<'static> = Command::Free {
    correlation: 0,
    id: 9,
};

static UP_TO_THE_END: [(Call<'static>, Answer); 3] = [
    (Send(&[FREE; 11]), Done),
    (Work(20), Worked(10, WorkStop::BoardEnd)),
    (Work(20), Worked(0, WorkStop::BoardEnd)),
];

#[test]
fn answers_up_to_the_end_of_the_board(rt: HostRuntime) {
    let left = leaves(&rt, rt.alloc(), 4611686018427387648, &UP_TO_THE_END);
    same(&rt, left, (10, 4611686018427387888, 1));
}

/// Nine commands to free, one to allocate and one to set. Ten replies of 12 bytes leave 16 bytes, which one of 8 would
/// take.
const COMMANDS: [Command<'static>; 11] = [
    FREE,
    FREE,
    FREE,
    FREE,
    FREE,
    FREE,
    FREE,
    FREE,
    FREE,
    Command::Allocate {
        correlation: 0,
        type_id: 5,
        key: &[],
        label: &[],
    },
    Command::Set {
        correlation: 1,
        id: 0,
        value: 7,
    },
];

static SHORTER: [(Call<'static>, Answer); 3] = [
    (Send(&COMMANDS), Done),
    (Work(20), Worked(10, WorkStop::BoardEnd)),
    (Call::Value(0), Value(Ok(0))),
];

#[test]
fn a_command_waits_also_where_its_shorter_reply_would_fit(rt: HostRuntime) {
    plays_from::<ManyToOne>(&rt, rt.alloc(), 4611686018427387648, &SHORTER);
}
