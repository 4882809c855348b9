//! `ring_rings`: the two shared rings.

ghost use Rattle.std.specs.Prelude.{IfOk};
ghost use Rattle.ring_rings.specs.Seats.{IsConsumerOf, IsProducerOf};

use crate::solo::returning;
use ring_rings::Action;
use std::alloc::Global;
use std::sync::Wait;

/// What came of a ring.
#[derive(Debug, Drop)]
pub struct Came {
    numbers: [u64; 6],
    shown: [u32; 3],
    positions: ring_rings::Positions,
    rest: ring_rings::Positions,
}

/// A ring that two threads could share: a write, a claim that is committed, one that is aborted, both reads, and close.
pub fn one_to_one(alloc: Global) -> anyhow::Result<Option<Came>> {
    let (ring, mut producer, mut consumer) = ring_rings::OneToOneRing::new_at(alloc, 256, 256)?;
    ring.write(&mut producer, 1, b"first")?;
    let mut claim: ring_rings::Claim = ring.claim(&mut producer, 2, 6)?;
    let put = ring.put(&mut producer, &mut claim, 0, b"second");
    let numbers = [
        claim.place(),
        u64::from(claim.index()),
        claim.len() as u64,
        producer.open_claims(),
        u64::from(producer.shares()),
        u64::from(ring.capacity()),
    ];
    // A claim is always settled, whatever else fails.
    ring.commit(&mut producer, claim);
    put?;
    let aborted = ring.claim(&mut producer, 3, 1)?;
    ring.abort(&mut producer, aborted);
    let mut taking = returning(Action::Commit);
    let first = ring.read(&mut consumer, 1, &mut taking);
    let second = ring.controlled_read(&mut consumer, 9, &mut taking);
    let positions = ring.positions(&mut producer);
    let shown = [first.messages, second.messages, taking.shown];
    let rest = match ring.close(producer, consumer) {
        Ok(rest) => rest.positions(),
        Err(_refused) => return Ok(None),
    };
    Ok(Some(Came {
        numbers,
        shown,
        positions,
        rest,
    }))
}

/// A ring of many producers, its first producer and its consumer.
type Opened = (
    ring_rings::ManyToOneRing,
    ring_rings::Producer,
    ring_rings::Consumer,
);

/// Makes the ring.
fn open(alloc: Global) -> Result<Opened, ring_rings::MakeFault>
    ensures producer { IfOk result (λ o. IsProducerOf o.0 o.1) }
    ensures consumer { IfOk result (λ o. IsConsumerOf o.0 o.2) }
{
    ring_rings::ManyToOneRing::new(alloc, 256)
}

/// A ring of many producers: what one try returns, calls that try again, two producers, ids and a heartbeat.
pub fn many_to_one<R: Wait>(rt: &R, alloc: Global) -> anyhow::Result<Option<Came>> {
    let (ring, mut producer, mut consumer) = open(alloc)?;
    let spare: Result<ring_rings::Producer, ring_rings::NoShares> = ring.split(&mut producer);
    let mut other = spare?;
    let tried: Result<(), ring_rings::TryFault> = ring.write_once(&mut producer, 1, b"first");
    tried?;
    let claim = ring.claim_once(&mut other, 2, 6)?;
    ring.commit(&mut other, claim);
    ring.write(rt, &mut producer, 3, b"third")?;
    let claim = ring.claim(rt, &mut producer, 4, 6)?;
    ring.abort(&mut producer, claim);
    ring.set_heartbeat(&mut consumer, 7);
    let numbers = [
        ring.next_correlation_id(&mut producer),
        ring.next_correlation_id(&mut other),
        ring.heartbeat(&mut producer),
        u64::from(other.shares()),
        u64::from(producer.shares()),
        0,
    ];
    let mut taking = returning(Action::Continue);
    let end = ring_rings::CommandSource::controlled_read(&ring, &mut consumer, 2, &mut taking);
    let positions = ring.positions(&mut producer);
    let shown = [end.messages, taking.shown, 0];
    ring.join(&mut producer, other);
    let rest = match ring_rings::CommandSource::close(ring, producer, consumer) {
        Ok(rest) => rest.positions(),
        Err(_refused) => return Ok(None),
    };
    Ok(Some(Came {
        numbers,
        shown,
        positions,
        rest,
    }))
}

/// The code with which a ring is not closed that has a producer more.
pub fn refused(alloc: Global) -> anyhow::Result<i32> {
    let (ring, mut producer, consumer) = open(alloc)?;
    let _other = ring.split(&mut producer)?;
    match ring.close(producer, consumer) {
        Ok(_rest) => Ok(0),
        Err(refused) => {
            let refused: ring_rings::CloseRefused<ring_rings::ManyToOneRing> = refused;
            let reason: ring_rings::CloseFault = refused.reason;
            Ok(reason.code())
        }
    }
}
