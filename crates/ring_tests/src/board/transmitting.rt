//! What a transmitter stores and refuses.
use crate::board::bench::Answer::{Done, Number, Refused};
use crate::board::bench::Call::{Begin, Capacity, Fill, Publish, Send, Shares, Transmit};
use crate::board::bench::{Answer, Bench, Call, played, plays};
use crate::calls::Plays;
use crate::compare::{same, same_at};
use ring_board::{Board, ClosedBoard, MakeFault, TransmitFault};
use std::alloc::Global;
use std::process::Abort;

/// Closes a board of 256 bytes on which this many bodies of 32 bytes were transmitted.
fn transmitted(rt: &impl Abort, alloc: Global, count: u32) -> ClosedBoard {
    let bench = played(rt, alloc, 256, 0, &[(Send(count, 32), Done)]);
    bench.close().expect(rt, "a closed board")
}

/// The same, each in three steps.
fn transmitted_in_steps(rt: &impl Abort, alloc: Global, count: u32) -> ClosedBoard {
    let mut bench = Bench::new(rt, alloc, 256, 0);
    let calls = [(Begin(1, 32), Done), (Fill, Done), (Publish, Done)];
    for _ in 0..count {
        bench.plays(rt, &calls);
    }
    bench.close().expect(rt, "a closed board")
}

/// Tests intent, tail and latest place.
fn is_at(rt: &impl Abort, closed: &ClosedBoard, positions: [u64; 3]) {
    same(
        rt,
        [closed.intent(), closed.tail(), closed.latest()],
        positions,
    );
}

#[test]
fn six_records_lie_behind_each_other(rt: HostRuntime) {
    let closed = transmitted(&rt, rt.alloc(), 6);
    is_at(&rt, &closed, [240, 240, 200]);
    same(&rt, closed.word(48), None);
}

/// Words 30, 0 and 1.
static WRAPPED: [(usize, u64); 3] = [
    (30, 0xFFFF_FFFF_0000_0010),
    (0, 0x0000_0001_0000_0028),
    (1, 0x0707_0707_0707_0707),
];

#[test]
fn a_seventh_wraps_behind_padding(rt: HostRuntime) {
    let closed = transmitted(&rt, rt.alloc(), 7);
    is_at(&rt, &closed, [296, 296, 256]);
    for (index, word) in WRAPPED {
        same_at(&rt, index, closed.word(index), Some(word));
    }
}

#[test]
fn steps_store_the_same_words(rt: HostRuntime) {
    let whole = transmitted(&rt, rt.alloc(), 7);
    let steps = transmitted_in_steps(&rt, rt.alloc(), 7);
    for index in 0..49 {
        same_at(&rt, index, steps.word(index), whole.word(index));
    }
}

const LONG: Answer = Refused(TransmitFault::TooLong { len: 33, max: 32 });

static TYPE_FIRST: [(Call<'static>, Answer); 5] = [
    (Transmit(1, &[0; 33]), LONG),
    (
        Transmit(0, &[0; 33]),
        Refused(TransmitFault::BadType { type_id: 0 }),
    ),
    (Begin(1, 33), LONG),
    (Transmit(1, &[0; 32]), Done),
    (Shares, Number(65536)),
];

#[test]
fn refuses_type_before_length(rt: HostRuntime) {
    plays(&rt, rt.alloc(), 0, &TYPE_FIRST);
}

static LIMIT: [(Call<'static>, Answer); 3] = [
    (Send(8, 24), Done),
    (
        Transmit(1, &[0; 24]),
        Refused(TransmitFault::PositionLimit {
            tail: 4611686018427387904,
        }),
    ),
    (Capacity, Number(256)),
];

#[test]
fn ends_at_the_last_position(rt: HostRuntime) {
    plays(&rt, rt.alloc(), 4611686018427387648, &LIMIT);
}

#[test]
fn lawful_capacities_and_starts(rt: HostRuntime) {
    for capacity in [0, 128, 300, 33554432] {
        same(
            &rt,
            Board::new(rt.alloc(), capacity).err(),
            Some(MakeFault::BadCapacity),
        );
    }
    for start in [128, 4611686018427388160] {
        same(
            &rt,
            Board::new_at(rt.alloc(), 256, start).err(),
            Some(MakeFault::BadStart),
        );
    }
}
