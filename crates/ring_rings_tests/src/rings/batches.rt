//! Batches of plain rings: messages that are written together.
use crate::compare::same;
use crate::rings::forms::opened;
use crate::script::{BODY, Message, Script, end};
use ring_rings::{
    Action, ClaimFault, InSlots, Kind, ManyToOne, OneToOne, Outgoing, Positions, Stop, TryFault,
};
use std::alloc::Global;
use std::process::Abort;

/// An empty message.
const EMPTY: Outgoing<'static> = Outgoing {
    type_id: 1,
    body: &[],
};

/// A batch of two runs.
static BATCH: [Outgoing<'static>; 5] = [
    EMPTY,
    Outgoing {
        type_id: 2,
        body: &[],
    },
    Outgoing {
        type_id: 3,
        body: &[],
    },
    Outgoing {
        type_id: 4,
        body: &BODY,
    },
    Outgoing {
        type_id: 5,
        body: &[7],
    },
];

/// What the handler answers, and what it is shown.
static ACTIONS: [Action; 4] = [
    Action::Continue,
    Action::Abort,
    Action::Continue,
    Action::Abort,
];

static SHOWN: [Message<'static>; 7] = [
    (1, &[]),
    (2, &[]),
    (2, &[]),
    (3, &[]),
    (3, &[]),
    (4, &BODY),
    (5, &[7]),
];

/// Reads the batch in parts. Two of the reads stop inside the first run.
fn reads_in_parts<K: Kind>(rt: &impl Abort, alloc: Global) {
    let (ring, mut producer, mut consumer) = opened::<K, InSlots>(rt, alloc, 0);
    same(rt, ring.write_batch(&mut producer, &BATCH), Ok(5));
    let mut script = Script::new(&ACTIONS, &SHOWN);
    let first = ring.read(&mut consumer, 1, &mut script);
    same(rt, first, end(1, 8, Stop::Limit));
    ring.controlled_read(&mut consumer, 9, &mut script);
    ring.controlled_read(&mut consumer, 9, &mut script);
    let last = ring.read(&mut consumer, 9, &mut script);
    same(rt, last, end(3, 48, Stop::Unpublished));
    assert!(rt; script.is_done());
    same(
        rt,
        ring.positions(&mut producer),
        Positions { head: 64, tail: 64 },
    );
}

#[test]
fn batches_are_read_in_parts(rt: HostRuntime) {
    reads_in_parts::<OneToOne>(&rt, rt.alloc());
    reads_in_parts::<ManyToOne>(&rt, rt.alloc());
}

static EMPTY_ONES: [Message<'static>; 31] = [(1, &[]); 31];

static EMPTIES: [Outgoing<'static>; 20] = [EMPTY; 20];

/// Writes a batch that begins near the end of the buffer, and is longer than the ring.
fn fills_the_ring<K: Kind>(rt: &impl Abort, alloc: Global) {
    let (ring, mut producer, mut consumer) = opened::<K, InSlots>(rt, alloc, 0);
    let mut script = Script::new(&[], &EMPTY_ONES);
    same(rt, ring.write_batch(&mut producer, &EMPTIES[..15]), Ok(15));
    let first = ring.read(&mut consumer, 20, &mut script);
    same(rt, first, end(15, 120, Stop::Unpublished));
    same(rt, ring.write_batch(&mut producer, &EMPTIES), Ok(16));
    let full = ring.write_batch(&mut producer, &EMPTIES[..2]);
    let fault = ClaimFault::InsufficientCapacity {
        tail: 248,
        head: 120,
    };
    same(rt, full, Err(TryFault::Refused(fault)));
    let block = ring.read(&mut consumer, 20, &mut script);
    same(rt, block, end(1, 8, Stop::Block));
    let rest = ring.read(&mut consumer, 20, &mut script);
    same(rt, rest, end(15, 120, Stop::Unpublished));
    assert!(rt; script.is_done());
}

#[test]
fn a_batch_fills_the_ring(rt: HostRuntime) {
    fills_the_ring::<OneToOne>(&rt, rt.alloc());
    fills_the_ring::<ManyToOne>(&rt, rt.alloc());
}

static WITH_BAD: [Outgoing<'static>; 2] = [
    EMPTY,
    Outgoing {
        type_id: 0,
        body: &[],
    },
];

/// A batch with a message that no ring can have. Nothing of the batch is written.
fn refuses_all<K: Kind>(rt: &impl Abort, alloc: Global) {
    let (ring, mut producer, _consumer) = opened::<K, InSlots>(rt, alloc, 0);
    let refused = ring.write_batch(&mut producer, &WITH_BAD);
    let fault = ClaimFault::BadType { type_id: 0 };
    same(rt, refused, Err(TryFault::Refused(fault)));
    same(rt, ring.write_batch(&mut producer, &[]), Ok(0));
    same(
        rt,
        ring.positions(&mut producer),
        Positions { head: 0, tail: 0 },
    );
}

#[test]
fn a_batch_with_a_bad_message_is_refused(rt: HostRuntime) {
    refuses_all::<OneToOne>(&rt, rt.alloc());
    refuses_all::<ManyToOne>(&rt, rt.alloc());
}
