//! Where receivers and transmitter stand.
use crate::board::bench::Answer::{Copy, Done, Lapped, Number};
use crate::board::bench::Call::{
    LappedCount, MaxMessage, PassNext, Place, RawLappedCount, RawPlace, Receive, Send, Subscribe,
    SubscribeRaw, Tail,
};
use crate::board::bench::{Answer, Call, played, plays};
use crate::compare::same;
use ring_board::ClosedBoard;

#[test]
fn says_how_long_a_message_may_be(rt: HostRuntime) {
    for (capacity, most) in [(256, 32), (1024, 128), (1 << 24, 1 << 21)] {
        let calls = [(MaxMessage, Number(most)), (Tail, Number(0))];
        let _bench = played(&rt, rt.alloc(), capacity, 0, &calls);
    }
}

/// The seventh record lies after padding.
static TAILS: [(Call<'static>, Answer); 5] = [
    (Tail, Number(1024)),
    (Send(6, 32), Done),
    (Tail, Number(1264)),
    (Send(1, 32), Done),
    (Tail, Number(1320)),
];

#[test]
fn tail_is_end_of_last_record(rt: HostRuntime) {
    plays(&rt, rt.alloc(), 1024, &TAILS);
}

/// The seventh record lies at 256, after padding, and two more follow.
static COPYING: [(Call<'static>, Answer); 8] = [
    (Subscribe, Done),
    (Send(1, 32), Done),
    (Receive, Copy(0, 1, 32)),
    (Place, Number(40)),
    (Send(8, 32), Done),
    (Receive, Lapped(1, 40, 376)),
    (Place, Number(336)),
    (LappedCount, Number(1)),
];

static RAW: [(Call<'static>, Answer); 6] = [
    (SubscribeRaw, Done),
    (RawPlace, Number(0)),
    (Send(7, 32), Done),
    (PassNext, Lapped(1, 0, 296)),
    (RawPlace, Number(256)),
    (RawLappedCount, Number(1)),
];

#[test]
fn receivers_say_what_they_passed_over(rt: HostRuntime) {
    plays(&rt, rt.alloc(), 0, &COPYING);
    plays(&rt, rt.alloc(), 0, &RAW);
}

/// Tests whether the trailer ends with the latest place and with words that are 0.
fn has_unnamed_zeros(closed: &ClosedBoard) -> bool {
    let mut all = closed.word(34) == Some(closed.latest()) && closed.word(48).is_none();
    for index in 35..48usize {
        all = all && closed.word(index) == Some(0);
    }
    all
}

#[test]
fn trailer_words_without_a_name_are_zero(rt: HostRuntime) {
    for count in [0, 9] {
        let bench = played(&rt, rt.alloc(), 256, 1024, &[(Send(count, 32), Done)]);
        let closed = bench.close().expect(&rt, "a closed board");
        same(&rt, (count, has_unnamed_zeros(&closed)), (count, true));
    }
}
