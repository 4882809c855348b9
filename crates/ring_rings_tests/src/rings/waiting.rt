//! Writes and claims of many producers that may wait.
ghost use Rattle.ring_rings.specs.Seats.{IsProducerOf};

use crate::compare::same;
use crate::rings::forms::{opened, read_nine};
use crate::script::{BODY, Message, Script, end};
use ring_rings::{
    Bodies, ClaimFault, InSlots, InWords, ManyToOne, Positions, Producer, Ring, Stop,
};
use std::alloc::Global;
use std::process::Abort;
use std::sync::Wait;

/// Writes the messages, each of a type id and a body.
fn write_all<B: Bodies>(
    rt: &impl Wait,
    ring: &Ring<ManyToOne, B>,
    producer: &mut Producer,
    messages: &[Message<'_>],
) -> Result<(), ClaimFault>
    requires { IsProducerOf ring.now producer.old }
    ensures { IsProducerOf ring.now producer.new }
{
    for (type_id, body) in messages {
        ring.write(rt, producer, *type_id, body)?;
    }
    Ok(())
}

/// Writes messages until the ring is full, and tests that no more are written.
fn fills<B: Bodies>(
    rt: &(impl Abort + Wait),
    ring: &Ring<ManyToOne, B>,
    producer: &mut Producer,
    messages: &[Message<'_>],
)
    requires { IsProducerOf ring.now producer.old }
{
    same(rt, write_all(rt, ring, producer, messages), Ok(()));
    let full = write_all(rt, ring, producer, &[(1, &[])]);
    let (tail, head) = (128, 0);
    same(
        rt,
        full,
        Err(ClaimFault::InsufficientCapacity { tail, head }),
    );
    same(rt, ring.positions(producer), Positions { head, tail });
}

static MESSAGES: [Message<'static>; 6] = [
    (1, &BODY),
    (1, &BODY),
    (1, &BODY),
    (1, &BODY),
    (1, &[]),
    (2, &BODY),
];

fn writes_until_full<B: Bodies>(rt: &(impl Abort + Wait), alloc: Global) {
    let (ring, mut producer, mut consumer) = opened::<ManyToOne, B>(rt, alloc, 0);
    fills(rt, &ring, &mut producer, &MESSAGES);
    let mut script = Script::new(&[], &MESSAGES);
    let all = read_nine(&ring, &mut consumer, &mut script);
    same(rt, all, end(6, 128, Stop::Block));
    assert!(rt; script.is_done());
}

#[test]
fn writes_that_may_wait_fill_the_ring(rt: HostRuntime) {
    writes_until_full::<InWords>(&rt, rt.alloc());
    writes_until_full::<InSlots>(&rt, rt.alloc());
}

/// Commits a claim at the beginning of the ring, and tests that another one is refused.
fn claims<B: Bodies>(rt: &(impl Abort + Wait), ring: &Ring<ManyToOne, B>, producer: &mut Producer)
    requires { IsProducerOf ring.now producer.old }
{
    let claim = ring.claim(rt, producer, 2, 0).expect(rt, "a claim");
    same(rt, (claim.place(), claim.index()), (0, 8));
    ring.commit(producer, claim);
    let refused = match ring.claim(rt, producer, 0, 17) {
        Ok(claim) => {
            claim.leak();
            None
        }
        Err(fault) => Some(fault),
    };
    same(rt, refused, Some(ClaimFault::BadType { type_id: 0 }));
}

fn claims_and_commits<B: Bodies>(rt: &(impl Abort + Wait), alloc: Global) {
    let (ring, mut producer, mut consumer) = opened::<ManyToOne, B>(rt, alloc, 0);
    claims(rt, &ring, &mut producer);
    let mut script = Script::new(&[], &[(2, &[])]);
    let one = read_nine(&ring, &mut consumer, &mut script);
    same(rt, one, end(1, 8, Stop::Unpublished));
    assert!(rt; script.is_done());
}

#[test]
fn claims_that_may_wait_are_settled(rt: HostRuntime) {
    claims_and_commits::<InWords>(&rt, rt.alloc());
    claims_and_commits::<InSlots>(&rt, rt.alloc());
}
