//! What copying receivers answer.
use crate::board::bench::Answer::{Copy, Done, Lapped, Nothing, Number};
use crate::board::bench::Call::{
    Begin, Fill, Join, LappedCount, PassNext, Publish, Receive, Send, Shares, Subscribe,
    SubscribeRaw, Transmit,
};
use crate::board::bench::{Answer, Call, closed, opened, plays, refused, subscribed};
use crate::compare::same;
use ring_board::{ClosedBoard, ReceiversOut};
use std::process::Abort;

static LAPPED: [(Call<'static>, Answer); 6] = [
    (Subscribe, Done),
    (Send(7, 32), Done),
    (Receive, Lapped(1, 0, 296)),
    (LappedCount, Number(1)),
    (Receive, Copy(256, 1, 32)),
    (Receive, Nothing),
];

#[test]
fn goes_to_latest_after_a_lap(rt: HostRuntime) {
    plays(&rt, rt.alloc(), 0, &LAPPED);
}

static PADDED: [(Call<'static>, Answer); 11] = [
    (Subscribe, Done),
    (Send(6, 32), Done),
    (Receive, Copy(0, 1, 32)),
    (Receive, Copy(40, 1, 32)),
    (Receive, Copy(80, 1, 32)),
    (Receive, Copy(120, 1, 32)),
    (Receive, Copy(160, 1, 32)),
    (Receive, Copy(200, 1, 32)),
    (Send(1, 32), Done),
    (Receive, Copy(256, 1, 32)),
    (LappedCount, Number(0)),
];

#[test]
fn passes_padding(rt: HostRuntime) {
    plays(&rt, rt.alloc(), 0, &PADDED);
}

static WHOLE_LAP: [(Call<'static>, Answer); 4] = [
    (Subscribe, Done),
    (Send(8, 24), Done),
    (Receive, Lapped(1, 0, 256)),
    (Receive, Copy(224, 1, 24)),
];

#[test]
fn a_whole_lap_is_a_lap(rt: HostRuntime) {
    plays(&rt, rt.alloc(), 0, &WHOLE_LAP);
}

static LATE: [(Call<'static>, Answer); 5] = [
    (Transmit(1, &[]), Done),
    (Transmit(2, &[]), Done),
    (Subscribe, Done),
    (Receive, Copy(8, 2, 0)),
    (Receive, Nothing),
];

#[test]
fn begins_with_the_record_at_latest(rt: HostRuntime) {
    plays(&rt, rt.alloc(), 0, &LATE);
}

static INTENT: [(Call<'static>, Answer); 11] = [
    (Subscribe, Done),
    (Send(7, 24), Done),
    (Begin(1, 24), Done),
    (Receive, Lapped(1, 0, 256)),
    (Receive, Copy(192, 1, 24)),
    (Fill, Done),
    (Receive, Nothing),
    (Publish, Done),
    (Receive, Copy(224, 1, 24)),
    (Join, Done),
    (Shares, Number(65536)),
];

#[test]
fn an_intent_alone_laps(rt: HostRuntime) {
    plays(&rt, rt.alloc(), 0, &INTENT);
}

static BESIDE_RAW: [(Call<'static>, Answer); 7] = [
    (SubscribeRaw, Done),
    (Subscribe, Done),
    (Send(7, 24), Done),
    (PassNext, Answer::Record(0, 1, 24)),
    (Begin(1, 24), Done),
    (Receive, Lapped(1, 0, 256)),
    (Receive, Copy(192, 1, 24)),
];

#[test]
fn a_raw_receiver_beside_it_changes_nothing(rt: HostRuntime) {
    plays(&rt, rt.alloc(), 0, &BESIDE_RAW);
}

static TAIL_LAST: [(Call<'static>, Answer); 8] = [
    (Subscribe, Done),
    (Begin(1, 24), Done),
    (Receive, Nothing),
    (Fill, Done),
    (Receive, Nothing),
    (Publish, Done),
    (Receive, Copy(0, 1, 24)),
    (Shares, Number(65535)),
];

#[test]
fn nothing_comes_before_the_tail_moved(rt: HostRuntime) {
    plays(&rt, rt.alloc(), 0, &TAIL_LAST);
}

static ASIDE: [(Call<'static>, Answer); 10] = [
    (Subscribe, Done),
    (Send(2, 24), Done),
    (Begin(1, 24), Done),
    (Receive, Copy(0, 1, 24)),
    (Receive, Copy(32, 1, 24)),
    (Receive, Nothing),
    (Receive, Nothing),
    (Fill, Done),
    (Publish, Done),
    (Shares, Number(65535)),
];

#[test]
fn a_transmission_kept_aside_holds_nothing_up(rt: HostRuntime) {
    plays(&rt, rt.alloc(), 0, &ASIDE);
}

#[test]
fn closes_once_receivers_are_back(rt: HostRuntime) {
    let (board, mut transmitter) = opened(&rt, rt.alloc(), 256);
    let receiver = subscribed(&rt, rt.alloc(), &board, &mut transmitter);
    let mut back = refused(&rt, board, transmitter);
    same(&rt, back.reason, ReceiversOut { receivers: 1 });
    back.board.join(&mut back.transmitter, receiver);
    let closed = closed(&rt, back.board, back.transmitter);
    same(&rt, closed.tail(), 0);
}

/// Tests what a board holds on which one message of five bytes 7 was transmitted.
fn has_five(rt: &impl Abort, closed: &ClosedBoard) {
    let positions = [closed.intent(), closed.tail(), closed.latest()];
    same(rt, positions, [16, 16, 0]);
    let words = [closed.word(0), closed.word(1), closed.word(2)];
    let wanted = [Some(0x0000_0003_0000_000D), Some(0x07_0707_0707), Some(0)];
    same(rt, words, wanted);
}

#[test]
fn is_rescued_though_receivers_are_lost(rt: HostRuntime) {
    let (board, mut transmitter) = opened(&rt, rt.alloc(), 256);
    let lost = subscribed(&rt, rt.alloc(), &board, &mut transmitter);
    let raw = board.subscribe_raw(&mut transmitter).expect(&rt, "a share");
    let sent = board.transmit(&mut transmitter, 3, &[7; 5]);
    same(&rt, sent, Ok(()));
    let _lost = (lost, raw);
    has_five(&rt, &board.rescue(transmitter));
}
