//! Claims that are filled, settled and given up.
ghost use Rattle.ring_rings.specs.Seats.{IsNewClaimOf, IsProducerOf, KeepsHoldings, MayClaim};

use crate::play::call::Call::{
    Claim, Commit, CorrelationId, Heartbeat, Holds, Positions, Put, Read,
};
use crate::play::call::Said::{self, At, Done, Made, Number};
use crate::play::claims::{
    FIRST_ABORTED, INSIDE, OUTSIDE, OUTSIDE_AND_READ, OVER, OVER_AND_READ, SECOND_FIRST,
};
use crate::play::{PLAY, Play, plays};
use ring_rings::{Bodies, Kind, Producer, Ring, Stop};
use std::process;

/// Claims room in a ring that has some.
pub fn claimed<K: Kind, B: Bodies>(
    rt: &impl process::Abort,
    ring: &Ring<K, B>,
    producer: &mut Producer,
    type_id: i32,
    len: usize,
) -> ring_rings::Claim
    requires producer { IsProducerOf ring.now producer.old }
    requires sole { MayClaim K.many producer.old }
    ensures producer { IsProducerOf ring.now producer.new }
    ensures opened { IsNewClaimOf ring.now producer.old producer.new result }
    ensures keeps { KeepsHoldings ring.now producer.old producer.new }
{
    ring.try_claim(producer, type_id, len).expect(rt, "a claim")
}

#[test]
fn claims_are_settled_in_any_order(rt: HostRuntime) {
    plays(&rt, rt.alloc(), &SECOND_FIRST);
}

#[test]
fn passes_an_aborted_claim(rt: HostRuntime) {
    plays(&rt, rt.alloc(), &FIRST_ABORTED);
}

#[test]
fn puts_bytes_into_a_claim(rt: HostRuntime) {
    plays(&rt, rt.alloc(), &INSIDE);
    plays(&rt, rt.alloc(), &OVER);
    plays(&rt, rt.alloc(), &OVER_AND_READ);
    plays(&rt, rt.alloc(), &OUTSIDE);
    plays(&rt, rt.alloc(), &OUTSIDE_AND_READ);
}

/// What other calls answer while a claim is open, and what reads find before it is filled, before it is committed, and
/// then.
static SHOWN_LATE: Play<'static> = Play {
    calls: &[
        (Claim(1, 8), Made(0, 8, 8)),
        (Holds, Said::Holds(65536, 1)),
        (Positions, At(0, 16)),
        (CorrelationId, Number(0)),
        (Heartbeat, Number(0)),
        (Read(9), Said::Read(0, 0, Stop::Unpublished)),
        (Put(0, &[0, 1, 2, 3, 4, 5, 6, 7]), Done),
        (Read(9), Said::Read(0, 0, Stop::Unpublished)),
        (Commit, Done),
        (Read(9), Said::Read(1, 16, Stop::Unpublished)),
    ],
    shown: &[(1, &[0, 1, 2, 3, 4, 5, 6, 7])],
    ends: (16, 16),
    ..PLAY
};

#[test]
fn a_claim_is_shown_when_it_is_committed(rt: HostRuntime) {
    plays(&rt, rt.alloc(), &SHOWN_LATE);
}
