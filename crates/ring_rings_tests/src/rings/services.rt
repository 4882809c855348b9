//! Ids, heartbeats and positions.
ghost use Rattle.ring_rings.specs.Seats.{IsConsumerOf, IsProducerOf};

use crate::compare::same;
use crate::play::call::Call::{
    Capacity, CorrelationId, Heartbeat, Join, Positions, SetHeartbeat, Swap,
};
use crate::play::call::Said::{At, Done, Number};
use crate::play::{PLAY, Play, plays, plays_shared};
use crate::rings::forms::{OnEach, on_each, opened};
use crate::script::end;
use ring_rings::{Action, Bodies, Consumer, Handler, Kind, Producer, ReadEnd, Ring, Stop};
use std::alloc::Global;
use std::process::Abort;

static SERVED: Play<'static> = Play {
    calls: &[
        (CorrelationId, Number(0)),
        (CorrelationId, Number(1)),
        (Heartbeat, Number(0)),
        (SetHeartbeat(77), Done),
        (Heartbeat, Number(77)),
        (Positions, At(0, 0)),
        (Capacity, Number(128)),
    ],
    words: &[
        (32, Some(0)),
        (48, Some(0)),
        (80, Some(2)),
        (96, Some(77)),
        (112, None),
    ],
    ..PLAY
};

#[test]
fn draws_ids_and_beats(rt: HostRuntime) {
    plays(&rt, rt.alloc(), &SERVED);
}

/// Answers always the same, and notes the head at each message.
#[derive(Drop)]
struct HeadNotes<'a, K, B: Bodies> {
    ring: &'a Ring<K, B>,
    producer: Producer,
    action: Action,
    shown: usize,
    heads: [u64; 3],
}

impl<K, B: Bodies> Handler for HeadNotes<'_, K, B> {
    ghost use Rattle.ring_rings.specs.Seats.{IsProducerOf};

    ghost ready = { λ s. IsProducerOf s.ring.now s.producer };

    ghost step = { λ s m t action. Unit {0} };

    fn on_message(&mut self, _type_id: i32, _body: &[u8]) -> Action {
        let head = self.ring.positions(&mut self.producer).head;
        if let Some(slot) = self.heads.get_mut(self.shown) {
            *slot = head;
        }
        self.shown = self.shown.saturating_add(1);
        self.action
    }
}

/// Reads with a handler that notes the head.
fn read_noting<K, B: Bodies>(
    ring: &Ring<K, B>,
    producer: Producer,
    consumer: &mut Consumer,
    action: Action,
) -> (ReadEnd, usize, [u64; 3])
    requires producer { IsProducerOf ring.now producer }
    requires consumer { IsConsumerOf ring.now consumer.old }
{
    let mut notes = HeadNotes {
        ring,
        producer,
        action,
        shown: 0,
        heads: [u64::MAX; 3],
    };
    let read = ring.controlled_read(consumer, 9, &mut notes);
    (read, notes.shown, notes.heads)
}

/// What a handler sees of the head that always answers this.
fn heads_seen<K: Kind, B: Bodies>(
    rt: &impl Abort,
    alloc: Global,
    action: Action,
) -> (ReadEnd, usize, [u64; 3]) {
    let (ring, mut producer, mut consumer) = opened::<K, B>(rt, alloc, 0);
    ring.try_write(&mut producer, 1, &[]).expect(rt, "room");
    ring.try_write(&mut producer, 1, &[]).expect(rt, "room");
    ring.try_write(&mut producer, 1, &[]).expect(rt, "room");
    read_noting(&ring, producer, &mut consumer, action)
}

struct HeadsSeen;

impl OnEach for HeadsSeen {
    fn holds<K: Kind, B: Bodies>(rt: &impl Abort, alloc: Global) {
        for (action, heads) in [(Action::Commit, [0, 8, 16]), (Action::Continue, [0, 0, 0])] {
            let seen = heads_seen::<K, B>(rt, alloc, action);
            same(rt, seen, (end(3, 24, Stop::Unpublished), 3, heads));
        }
    }
}

#[test]
fn commit_moves_the_head_at_once_and_continue_at_the_end(rt: HostRuntime) {
    on_each::<HeadsSeen>(&rt, rt.alloc());
}

/// Two producers draw ids, and one of them loads the heartbeat.
static DRAWN_IN_TURN: Play<'static> = Play {
    calls: &[
        (SetHeartbeat(77), Done),
        (CorrelationId, Number(0)),
        (Swap, Done),
        (CorrelationId, Number(1)),
        (Swap, Done),
        (CorrelationId, Number(2)),
        (Swap, Done),
        (Heartbeat, Number(77)),
        (Swap, Done),
        (Join, Done),
        (CorrelationId, Number(3)),
    ],
    ..PLAY
};

#[test]
fn ids_are_drawn_once_over_producers(rt: HostRuntime) {
    plays_shared(&rt, rt.alloc(), &DRAWN_IN_TURN);
}
