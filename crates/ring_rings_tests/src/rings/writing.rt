//! What is written where, and what is refused.
use crate::compare::same_at;
use crate::play::plays;
use crate::play::writing::{FILLED, HEADER, LAST_POSITION, OVERFILLED, PADDED, RECORD, TYPE_FIRST};
use crate::rings::forms::{OnEach, on_each};
use ring_rings::{Bodies, Kind, MakeFault, Ring};
use std::alloc::Global;
use std::process::Abort;

#[test]
fn stores_records_little_endian(rt: HostRuntime) {
    plays(&rt, rt.alloc(), &RECORD);
    plays(&rt, rt.alloc(), &HEADER);
}

#[test]
fn pads_up_to_the_end(rt: HostRuntime) {
    plays(&rt, rt.alloc(), &PADDED);
}

/// A full ring has no room, and one that is full up to the end is not padded.
#[test]
fn refuses_what_does_not_fit(rt: HostRuntime) {
    plays(&rt, rt.alloc(), &FILLED);
    plays(&rt, rt.alloc(), &OVERFILLED);
}

#[test]
fn refuses_type_before_length(rt: HostRuntime) {
    plays(&rt, rt.alloc(), &TYPE_FIRST);
}

#[test]
fn ends_at_the_last_position(rt: HostRuntime) {
    plays(&rt, rt.alloc(), &LAST_POSITION);
}

/// Why no ring of this capacity is made that begins at this position.
fn made<K: Kind, B: Bodies>(alloc: Global, capacity: u32, start: u64) -> Option<MakeFault> {
    Ring::<K, B>::new_at(alloc, capacity, start).err()
}

/// Capacities and starts of no ring, and why.
static UNLAWFUL: [(u32, u64, MakeFault); 5] = [
    (100, 0, MakeFault::BadCapacity),
    (64, 0, MakeFault::BadCapacity),
    (33554432, 0, MakeFault::BadCapacity),
    (128, 64, MakeFault::BadStart),
    (128, 4611686018427388032, MakeFault::BadStart),
];

struct NotMade;

impl OnEach for NotMade {
    fn holds<K: Kind, B: Bodies>(rt: &impl Abort, alloc: Global) {
        for (at, (capacity, start, fault)) in UNLAWFUL.iter().enumerate() {
            same_at(rt, at, made::<K, B>(alloc, *capacity, *start), Some(*fault));
        }
    }
}

#[test]
fn refuses_unlawful_capacities_and_starts(rt: HostRuntime) {
    on_each::<NotMade>(&rt, rt.alloc());
}
