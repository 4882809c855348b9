//! What raw receivers answer.
ghost use Rattle.std.specs.Prelude.{◌≡◌, ◌≤◌, ℕ, true, length, take, IfOk};
ghost use mathlib.Core.Option.{some};
ghost use lib.ListN.{get_elem?};
ghost use Rattle.ring_board.specs.declared.{shared.view.Taken.Taken, board.RawRecord.RawRecord};
ghost use Rattle.ring_board.specs.Board.{returned};
ghost use Rattle.ring_board.specs.Seats.{IsRawOf, IsAnsweredRecord, IsTransmitterOf, raw_view, place_of, len_of};

use crate::board::bench::Answer::{Body, Done, Lapped, Nothing, Number, Record, Valid};
use crate::board::bench::Call::{
    Begin, JoinRaw, LoadBody, PassNext, RawLappedCount, ReceiveNext, Send, Shares, SubscribeRaw,
    Transmit, Validate,
};
use crate::board::bench::{Answer, Call, opened, plays, refused};
use crate::compare::same;
use ring_board::{Board, NoShares, RawRecord, Receiver, ReceiversOut, SubscribeFault, Transmitter};
use std::process::Abort;

/// Loads the body of a record and validates it. With true, the bytes are the body that was transmitted: that of the
/// record's copy, which `join_raw` says is an entry of the list.
fn is_loaded_whole(board: &Board, receiver: &mut Receiver, raw: &RawRecord, out: &mut [u8]) -> bool
    requires board { IsRawOf board.now receiver.old }
    requires raw { IsAnsweredRecord (raw_view receiver.old) raw.now }
    requires room { len_of raw.now ≤ length out.old }
    ensures board { IsRawOf board.now receiver.new }
    ensures whole { result ≡ true → (n : ℕ) × (c : Taken) × (get_elem? (returned receiver.new) n ≡ some c)
        × (c.place ≡ place_of raw.now) × (c.message.body ≡ take (len_of raw.now) out.new) }
{
    receiver.load_body(board, raw, out);
    receiver.validate(board, raw)
}

/// Transmits a message, and tests that a receiver loads its body whole.
fn loads_whole(
    rt: &impl Abort,
    board: &Board,
    transmitter: &mut Transmitter,
    receiver: &mut Receiver,
)
    requires transmitter { IsTransmitterOf board.now transmitter.old }
    requires receiver { IsRawOf board.now receiver.old }
{
    same(rt, board.transmit(transmitter, 1, &[7; 24]), Ok(()));
    let Ok(Some(first)) = receiver.receive_next(board) else {
        panic!(rt; "no record");
    };
    let mut out = [0; 24];
    assert!(rt; first.len() <= out.len());
    same(rt, is_loaded_whole(board, receiver, &first, &mut out), true);
    same(rt, out, [7; 24]);
}

#[test]
fn a_body_is_whole_while_it_is_valid(rt: HostRuntime) {
    let (board, mut transmitter) = opened(&rt, rt.alloc(), 256);
    let mut receiver = board
        .subscribe_raw(&mut transmitter)
        .expect(&rt, "a receiver");
    loads_whole(&rt, &board, &mut transmitter, &mut receiver);
}

/// The transmission that begins reaches the first record, and not the second.
static REACHED: [(Call<'static>, Answer); 10] = [
    (SubscribeRaw, Done),
    (Send(1, 24), Done),
    (ReceiveNext, Record(0, 1, 24)),
    (Validate, Valid(true)),
    (Send(6, 24), Done),
    (Validate, Valid(true)),
    (Begin(1, 24), Done),
    (Validate, Valid(false)),
    (PassNext, Record(32, 1, 24)),
    (RawLappedCount, Number(0)),
];

#[test]
fn a_record_is_valid_until_the_intent_reaches_it(rt: HostRuntime) {
    plays(&rt, rt.alloc(), 0, &REACHED);
}

const TEN: [u8; 10] = [1, 2, 3, 4, 5, 6, 7, 8, 9, 10];

/// The body of the first of two records.
static FIRST: [(Call<'static>, Answer); 10] = [
    (SubscribeRaw, Done),
    (Transmit(5, &TEN), Done),
    (Transmit(6, &[]), Done),
    (ReceiveNext, Record(0, 5, 10)),
    (PassNext, Record(24, 6, 0)),
    (LoadBody, Body([1, 2, 3, 4, 5, 6, 7, 8, 9, 10, 99, 99])),
    (Validate, Valid(true)),
    (PassNext, Nothing),
    (JoinRaw, Done),
    (Shares, Number(65536)),
];

/// The body of the second, which is empty.
static SECOND: [(Call<'static>, Answer); 6] = [
    (SubscribeRaw, Done),
    (Transmit(5, &TEN), Done),
    (Transmit(6, &[]), Done),
    (PassNext, Record(0, 5, 10)),
    (ReceiveNext, Record(24, 6, 0)),
    (LoadBody, Body([99; 12])),
];

#[test]
fn bodies_are_loaded_to_the_front(rt: HostRuntime) {
    plays(&rt, rt.alloc(), 0, &FIRST);
    plays(&rt, rt.alloc(), 0, &SECOND);
}

static PADDED: [(Call<'static>, Answer); 11] = [
    (SubscribeRaw, Done),
    (Send(6, 32), Done),
    (PassNext, Record(0, 1, 32)),
    (PassNext, Record(40, 1, 32)),
    (PassNext, Record(80, 1, 32)),
    (PassNext, Record(120, 1, 32)),
    (PassNext, Record(160, 1, 32)),
    (PassNext, Record(200, 1, 32)),
    (Send(1, 32), Done),
    (PassNext, Record(256, 1, 32)),
    (RawLappedCount, Number(0)),
];

#[test]
fn raw_receivers_pass_padding(rt: HostRuntime) {
    plays(&rt, rt.alloc(), 0, &PADDED);
}

static LAPPED: [(Call<'static>, Answer); 5] = [
    (SubscribeRaw, Done),
    (Send(8, 24), Done),
    (PassNext, Lapped(1, 0, 256)),
    (RawLappedCount, Number(1)),
    (PassNext, Record(224, 1, 24)),
];

#[test]
fn raw_receivers_are_lapped_too(rt: HostRuntime) {
    plays(&rt, rt.alloc(), 0, &LAPPED);
}

/// Takes all shares but one by receivers that are lost.
fn take_shares(rt: &impl Abort, board: &Board, transmitter: &mut Transmitter)
    requires { IsTransmitterOf board.now transmitter.old }
    ensures { IsTransmitterOf board.now transmitter.new }
{
    'shares: for _ in 0..65535 {
        assert!(rt; board.subscribe_raw(transmitter).is_ok());
    }
}

#[test]
fn all_shares_but_one_go_to_receivers(rt: HostRuntime) {
    let (board, mut transmitter) = opened(&rt, rt.alloc(), 256);
    take_shares(&rt, &board, &mut transmitter);
    let raw = board.subscribe_raw(&mut transmitter).err();
    same(&rt, raw, Some(NoShares));
    let copying = board.subscribe(rt.alloc(), &mut transmitter).err();
    same(&rt, copying, Some(SubscribeFault::NoShares));
    let refused = refused(&rt, board, transmitter);
    same(&rt, refused.reason, ReceiversOut { receivers: 65535 });
}
