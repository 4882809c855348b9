//! Reads near the end of the buffer: on after it, and up to a message at which the handler breaks off.
use crate::compare::same;
use crate::play::across::{BLOCKED, BROKEN, LIMITED, PADDED};
use crate::play::plays;
use crate::rings::forms::opened;
use crate::script::Script;
use ring_rings::{Bodies, InSlots, InWords, ManyToOne, Standing};
use std::alloc::Global;
use std::process::Abort;

#[test]
fn reads_on_behind_the_end_of_the_buffer(rt: HostRuntime) {
    plays(&rt, rt.alloc(), &PADDED);
    plays(&rt, rt.alloc(), &LIMITED);
}

#[test]
fn break_leaves_the_padding_behind_the_message(rt: HostRuntime) {
    plays(&rt, rt.alloc(), &BROKEN);
}

#[test]
fn a_read_tells_empty_from_blocked(rt: HostRuntime) {
    plays(&rt, rt.alloc(), &BLOCKED);
}

/// Positions around a read distinguish an empty ring from one into which a message came after the read.
fn tells_standings<B: Bodies>(rt: &impl Abort, alloc: Global) {
    let (ring, mut producer, mut consumer) = opened::<ManyToOne, B>(rt, alloc, 0);
    let mut count = Script::new(&[], &[(1, &[0; 8])]);
    let before = ring.positions(&mut producer);
    let read = ring.read(&mut consumer, 9, &mut count);
    let after = ring.positions(&mut producer);
    assert_eq!(rt; read.standing(before, after), Standing::Empty);
    ring.write_once(&mut producer, 1, &[0; 8])
        .expect(rt, "room");
    let read = ring.read(&mut consumer, 9, &mut count);
    let later = ring.positions(&mut producer);
    same(rt, read.standing(after, later), Standing::Moving);
    assert!(rt; count.is_done());
}

#[test]
fn positions_around_a_read_tell_empty_from_moving(rt: HostRuntime) {
    tells_standings::<InWords>(&rt, rt.alloc());
    tells_standings::<InSlots>(&rt, rt.alloc());
}
