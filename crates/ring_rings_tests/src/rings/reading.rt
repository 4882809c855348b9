//! How far reads go, and what the handler's actions do.
use crate::compare::same;
use crate::play::call::Call::{Abort, Claim, ControlledRead, Positions, Read, ReadAcross, Write};
use crate::play::call::Said::{self, At, Done, Made, MadeEmpty};
use crate::play::reading::{
    ALL_ACTIONS, AROUND, BROKEN, BROKEN_AFTER_COMMIT, COMMITTED, LEFT_BEHIND, LEFT_FIRST,
    LEFT_LAST, LIMITED, SHORT,
};
use crate::play::{PLAY, Play, plays};
use crate::rings::closing::fill_up;
use crate::rings::forms::{OnShared, on_both, opened};
use crate::script::{BODY, end};
use ring_rings::{Action, Bodies, Handler, ManyToOne, Producer, Ring, Stop};
use std::alloc::Global;
use std::process;

const EIGHT: [u8; 8] = [0, 1, 2, 3, 4, 5, 6, 7];

#[test]
fn reads_what_was_committed(rt: HostRuntime) {
    plays(&rt, rt.alloc(), &COMMITTED);
    plays(&rt, rt.alloc(), &SHORT);
}

#[test]
fn stops_at_the_limit(rt: HostRuntime) {
    plays(&rt, rt.alloc(), &LIMITED);
}

/// Up to the padding, up to the end of the buffer, and on from its beginning.
#[test]
fn reads_up_to_the_end_and_then_on(rt: HostRuntime) {
    plays(&rt, rt.alloc(), &AROUND);
}

#[test]
fn leaves_a_message_at_abort(rt: HostRuntime) {
    plays(&rt, rt.alloc(), &LEFT_FIRST);
    plays(&rt, rt.alloc(), &LEFT_LAST);
    plays(&rt, rt.alloc(), &LEFT_BEHIND);
}

#[test]
fn takes_a_message_at_break(rt: HostRuntime) {
    plays(&rt, rt.alloc(), &BROKEN);
    plays(&rt, rt.alloc(), &BROKEN_AFTER_COMMIT);
}

#[test]
fn read_takes_each_action_as_continue(rt: HostRuntime) {
    plays(&rt, rt.alloc(), &ALL_ACTIONS);
}

static BY_LENGTH: Play<'static> = Play {
    actions: &[Action::Abort, Action::Break, Action::Commit],
    longest: 8,
    calls: &[
        (Write(1, &BODY), Done),
        (Write(2, &EIGHT), Done),
        (Write(3, &BODY), Done),
        (ControlledRead(9), Said::Read(0, 0, Stop::Action)),
        (ControlledRead(9), Said::Read(1, 24, Stop::Action)),
        (Positions, At(24, 64)),
        (ControlledRead(9), Said::Read(2, 40, Stop::Unpublished)),
    ],
    shown: &[(1, &BODY), (1, &BODY), (2, &EIGHT), (3, &BODY)],
    ends: (64, 64),
    words: &[(0, Some(0)), (1, Some(0)), (5, Some(0)), (6, Some(0))],
    ..PLAY
};

static ACROSS_BY_LENGTH: Play<'static> = Play {
    longest: 8,
    calls: &[
        (Claim(1, 16), Made(0, 8, 16)),
        (Abort, Done),
        (Claim(1, 16), Made(24, 32, 16)),
        (Abort, Done),
        (Claim(1, 16), Made(48, 56, 16)),
        (Abort, Done),
        (Claim(1, 16), Made(72, 80, 16)),
        (Abort, Done),
        (Claim(1, 0), MadeEmpty(96, 104)),
        (Abort, Done),
        (Read(9), Said::Read(0, 104, Stop::Unpublished)),
        (Claim(1, 0), MadeEmpty(104, 112)),
        (Abort, Done),
        (Write(3, &BODY), Done),
        (Write(4, &EIGHT), Done),
        (ReadAcross(9), Said::Read(2, 64, Stop::Unpublished)),
    ],
    shown: &[(3, &BODY), (4, &EIGHT)],
    ends: (168, 168),
    words: &[(0, Some(0)), (1, Some(0)), (13, Some(0)), (14, Some(0))],
    ..PLAY
};

/// The handler is shown no byte of a long message, and decides on it by its header.
#[test]
fn decides_by_the_length(rt: HostRuntime) {
    plays(&rt, rt.alloc(), &BY_LENGTH);
    plays(&rt, rt.alloc(), &ACROSS_BY_LENGTH);
}

/// Answers `Commit`, and at the second message tries to write.
#[derive(Drop)]
struct Sender<'a, B: Bodies> {
    ring: &'a Ring<ManyToOne, B>,
    producer: Producer,
    shown: u32,
    sent: bool,
}

impl<B: Bodies> Handler for Sender<'_, B> {
    ghost use Rattle.ring_rings.specs.Seats.{IsProducerOf};

    ghost ready = { λ s. IsProducerOf s.ring.now s.producer };

    ghost step = { λ s m t action. Unit {0} };

    fn on_message(&mut self, _type_id: i32, _body: &[u8]) -> Action {
        self.shown = self.shown.saturating_add(1);
        if self.shown == 2 {
            self.sent = self.ring.write_once(&mut self.producer, 5, &[]).is_ok();
        }
        Action::Commit
    }
}

/// A handler answers `Commit`, and writes into a ring that was full.
struct WritesInRead;

impl OnShared for WritesInRead {
    fn holds<B: Bodies>(rt: &impl process::Abort, alloc: Global) {
        let (ring, mut producer, mut consumer) = opened::<ManyToOne, B>(rt, alloc, 0);
        fill_up(rt, &ring, &mut producer, 16);
        let mut sender = Sender {
            ring: &ring,
            producer,
            shown: 0,
            sent: false,
        };
        let read = ring.controlled_read(&mut consumer, 9, &mut sender);
        same(rt, (read, sender.sent), (end(9, 72, Stop::Limit), true));
    }
}

#[test]
fn commit_gives_room_at_once(rt: HostRuntime) {
    on_both::<WritesInRead>(&rt, rt.alloc());
}
