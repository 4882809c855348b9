//! When a ring closes, and what lies in it then.
ghost use Rattle.std.specs.Prelude.{◌≡◌};
ghost use Rattle.ring_rings.specs.Seats.{IsConsumerOf, IsProducerOf};

use crate::compare::same;
use crate::play::call::Call::{Abort, Claim, ControlledRead, Read, Write};
use crate::play::call::Said;
use crate::play::{PLAY, Play, plays};
use crate::rings::claims::claimed;
use crate::rings::forms::{OnEach, OnShared, on_both, on_each, opened, read_nine};
use crate::script::{Script, end};
use ring_rings::{
    Action, Bodies, ClaimFault, CloseFault, CloseRefused, Consumer, Kind, ManyToOne, NoShares,
    Producer, ReadEnd, Ring, Stop, TryFault,
};
use std::alloc::Global;
use std::process;

/// All of a ring that does not close, for this reason.
fn refused<K, B: Bodies>(
    rt: &impl process::Abort,
    ring: Ring<K, B>,
    producer: Producer,
    consumer: Consumer,
    reason: CloseFault,
) -> CloseRefused<Ring<K, B>>
    requires producer { IsProducerOf ring producer }
    requires consumer { IsConsumerOf ring consumer }
    ensures ring { result.ring ≡ ring }
    ensures producer { result.producer ≡ producer }
    ensures consumer { result.consumer ≡ consumer }
{
    let back = ring.close(producer, consumer).err().expect(rt, "a refusal");
    same(rt, back.reason, reason);
    back
}

/// What is left of a ring that does not close while a claim is open, and does when that is settled.
fn closed_late<K: Kind, B: Bodies>(
    rt: &impl process::Abort,
    alloc: Global,
    commits: bool,
    script: &mut Script<'_>,
) -> ReadEnd {
    let (ring, mut producer, consumer) = opened::<K, B>(rt, alloc, 0);
    let claim = claimed(rt, &ring, &mut producer, 1, 0);
    let open = CloseFault::ClaimsOpen { claims: 1 };
    let back = refused(rt, ring, producer, consumer, open);
    let mut back = refused(rt, back.ring, back.producer, back.consumer, open);
    if commits {
        back.ring.commit(&mut back.producer, claim);
    } else {
        back.ring.abort(&mut back.producer, claim);
    }
    let closed = back.ring.close(back.producer, back.consumer);
    closed.ok().expect(rt, "a closed ring").read(9, script)
}

/// With a claim that is committed, and with one that is aborted.
struct ClosesLate;

impl OnEach for ClosesLate {
    fn holds<K: Kind, B: Bodies>(rt: &impl process::Abort, alloc: Global) {
        let mut script = Script::new(&[], &[(1, &[])]);
        for (commits, messages) in [(true, 1), (false, 0)] {
            let read = closed_late::<K, B>(rt, alloc, commits, &mut script);
            same(rt, read, end(messages, 8, Stop::Unpublished));
        }
        assert!(rt; script.is_done());
    }
}

#[test]
fn closes_when_a_claim_is_settled(rt: HostRuntime) {
    on_each::<ClosesLate>(&rt, rt.alloc());
}

/// Bodies of two words, of which the second is 9.
const NINE_0: [u8; 16] = [0, 0, 0, 0, 0, 0, 0, 0, 9, 0, 0, 0, 0, 0, 0, 0];

const NINE_1: [u8; 16] = [1, 0, 0, 0, 0, 0, 0, 0, 9, 0, 0, 0, 0, 0, 0, 0];

const NINE_2: [u8; 16] = [2, 0, 0, 0, 0, 0, 0, 0, 9, 0, 0, 0, 0, 0, 0, 0];

const NINE_3: [u8; 16] = [3, 0, 0, 0, 0, 0, 0, 0, 9, 0, 0, 0, 0, 0, 0, 0];

const NINE_4: [u8; 16] = [4, 0, 0, 0, 0, 0, 0, 0, 9, 0, 0, 0, 0, 0, 0, 0];

const NINE_5: [u8; 16] = [5, 0, 0, 0, 0, 0, 0, 0, 9, 0, 0, 0, 0, 0, 0, 0];

/// A body of the words 1 and 2; likewise the next two.
const ONE_TWO: [u8; 16] = [1, 0, 0, 0, 0, 0, 0, 0, 2, 0, 0, 0, 0, 0, 0, 0];

const THREE_FOUR: [u8; 16] = [3, 0, 0, 0, 0, 0, 0, 0, 4, 0, 0, 0, 0, 0, 0, 0];

const ZERO_SEVEN: [u8; 16] = [0, 0, 0, 0, 0, 0, 0, 0, 7, 0, 0, 0, 0, 0, 0, 0];

static CACHED: Play<'static> = Play {
    calls: &[
        (Write(1, &NINE_0), Said::Done),
        (Write(1, &NINE_1), Said::Done),
        (Write(1, &NINE_2), Said::Done),
        (Write(1, &NINE_3), Said::Done),
        (Write(1, &NINE_4), Said::Done),
        (Read(9), Said::Read(5, 120, Stop::Unpublished)),
        (Write(1, &NINE_5), Said::Done),
    ],
    shown: &[
        (1, &NINE_0),
        (1, &NINE_1),
        (1, &NINE_2),
        (1, &NINE_3),
        (1, &NINE_4),
    ],
    ends: (120, 152),
    words: &[
        (32, Some(152)),
        (48, Some(120)),
        (64, Some(120)),
        (15, Some(0xFFFF_FFFF_0000_0008)),
        (0, Some(0x0000_0001_0000_0018)),
        (1, Some(5)),
        (3, Some(0)),
    ],
    ..PLAY
};

/// The second message stays in the ring, with the head before it.
static LEFT: Play<'static> = Play {
    actions: &[Action::Continue, Action::Abort, Action::Abort],
    calls: &[
        (Write(1, &ONE_TWO), Said::Done),
        (Write(1, &THREE_FOUR), Said::Done),
        (ControlledRead(9), Said::Read(1, 24, Stop::Action)),
        (ControlledRead(9), Said::Read(0, 0, Stop::Action)),
    ],
    shown: &[(1, &ONE_TWO), (1, &THREE_FOUR), (1, &THREE_FOUR)],
    ends: (24, 48),
    words: &[
        (32, Some(48)),
        (64, Some(24)),
        (0, Some(0)),
        (1, Some(0)),
        (2, Some(0)),
        (3, Some(0x0000_0001_0000_0018)),
        (4, Some(3)),
        (5, Some(4)),
    ],
    ..PLAY
};

/// Of the words that a read passes, one is 0 before it.
static ZERO_WORD: Play<'static> = Play {
    calls: &[
        (Write(1, &ZERO_SEVEN), Said::Done),
        (Read(9), Said::Read(1, 24, Stop::Unpublished)),
    ],
    shown: &[(1, &ZERO_SEVEN)],
    ends: (24, 24),
    words: &[
        (0, Some(0)),
        (1, Some(0)),
        (2, Some(0)),
        (32, Some(24)),
        (64, Some(24)),
    ],
    ..PLAY
};

static ABORTED: Play<'static> = Play {
    calls: &[
        (Claim(1, 16), Said::Made(0, 8, 16)),
        (Abort, Said::Done),
        (Read(9), Said::Read(0, 24, Stop::Unpublished)),
    ],
    ends: (24, 24),
    words: &[(0, Some(0)), (32, Some(24)), (64, Some(24))],
    ..PLAY
};

#[test]
fn leaves_these_words(rt: HostRuntime) {
    plays(&rt, rt.alloc(), &CACHED);
    plays(&rt, rt.alloc(), &LEFT);
    plays(&rt, rt.alloc(), &ZERO_WORD);
    plays(&rt, rt.alloc(), &ABORTED);
}

/// Shares are counted by producers, and one share is not split.
struct Shares;

impl OnShared for Shares {
    fn holds<B: Bodies>(rt: &impl process::Abort, alloc: Global) {
        let (ring, mut first, _consumer) = opened::<ManyToOne, B>(rt, alloc, 0);
        same(rt, first.shares(), 65536);
        let mut second = ring.split(&mut first).expect(rt, "a producer");
        same(rt, (first.shares(), second.shares()), (65535, 1));
        same(rt, ring.split(&mut second).err(), Some(NoShares));
    }
}

#[test]
fn a_producer_of_one_share_does_not_split(rt: HostRuntime) {
    on_both::<Shares>(&rt, rt.alloc());
}

/// Claims are tested before shares.
struct ClosesLast;

impl OnShared for ClosesLast {
    fn holds<B: Bodies>(rt: &impl process::Abort, alloc: Global) {
        let (ring, mut first, consumer) = opened::<ManyToOne, B>(rt, alloc, 0);
        let second = ring.split(&mut first).expect(rt, "a producer");
        let claim = claimed(rt, &ring, &mut first, 1, 0);
        let open = CloseFault::ClaimsOpen { claims: 1 };
        let mut back = refused(rt, ring, first, consumer, open);
        back.ring.abort(&mut back.producer, claim);
        let out = CloseFault::ProducersOut { shares: 1 };
        let mut back = refused(rt, back.ring, back.producer, back.consumer, out);
        back.ring.join(&mut back.producer, second);
        same(rt, back.producer.shares(), 65536);
        assert!(rt; back.ring.close(back.producer, back.consumer).is_ok());
    }
}

#[test]
fn closes_when_all_shares_are_back(rt: HostRuntime) {
    on_both::<ClosesLast>(&rt, rt.alloc());
}

struct SplitsAll;

impl OnShared for SplitsAll {
    fn holds<B: Bodies>(rt: &impl process::Abort, alloc: Global) {
        let (ring, mut first, consumer) = opened::<ManyToOne, B>(rt, alloc, 0);
        for _ in 0..65535 {
            assert!(rt; ring.split(&mut first).is_ok());
        }
        same(rt, first.shares(), 1);
        same(rt, ring.split(&mut first).err(), Some(NoShares));
        let out = CloseFault::ProducersOut { shares: 65535 };
        refused(rt, ring, first, consumer, out);
    }
}

#[test]
fn splits_until_one_share_is_left(rt: HostRuntime) {
    on_both::<SplitsAll>(&rt, rt.alloc());
}

/// Writes empty messages until the ring is full, which holds this many, and tests that no more are written.
pub fn fill_up<B: Bodies>(
    rt: &impl process::Abort,
    ring: &Ring<ManyToOne, B>,
    producer: &mut Producer,
    count: u32,
)
    requires { IsProducerOf ring.now producer.old }
    ensures { IsProducerOf ring.now producer.new }
{
    for _ in 0..count {
        assert!(rt; ring.write_once(producer, 1, &[]).is_ok());
    }
    let full = TryFault::Refused(ClaimFault::InsufficientCapacity { tail: 128, head: 0 });
    same(rt, ring.write_once(producer, 1, &[]), Err(full));
}

/// A producer is lost with a claim of its own.
struct LosesOne;

impl OnShared for LosesOne {
    fn holds<B: Bodies>(rt: &impl process::Abort, alloc: Global) {
        let (ring, mut first, mut consumer) = opened::<ManyToOne, B>(rt, alloc, 0);
        let mut second = ring.split(&mut first).expect(rt, "a producer");
        claimed(rt, &ring, &mut second, 1, 0).leak();
        fill_up(rt, &ring, &mut first, 15);
        let read = read_nine(&ring, &mut consumer, &mut Script::new(&[], &[]));
        same(rt, read, end(0, 0, Stop::Unpublished));
        let out = CloseFault::ProducersOut { shares: 1 };
        let back = refused(rt, ring, first, consumer, out);
        refused(rt, back.ring, back.producer, back.consumer, out);
    }
}

#[test]
fn a_lost_producer_keeps_the_ring_open(rt: HostRuntime) {
    on_both::<LosesOne>(&rt, rt.alloc());
}
