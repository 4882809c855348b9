//! `ring_ends`: ends, which own their ring.

use crate::solo::returning;
use ring_rings::{Action, Bodies, Kind};
use std::alloc::Global;
use std::sync::{Arc, Wait};

/// What came of a ring.
#[derive(Debug, Drop)]
pub struct Came {
    numbers: [u64; 7],
    shown: [u32; 3],
    positions: ring_rings::Positions,
    rest: ring_rings::Positions,
}

impl Came {
    /// Takes the ring apart, and puts its positions to the other results. Returns `None` if another end owns the ring.
    fn with<K: Kind, B: Bodies>(
        numbers: [u64; 7],
        shown: [u32; 3],
        positions: ring_rings::Positions,
        last: ring_ends::LastEnd<K, B>,
    ) -> Option<Came> {
        let rest = last.finish().ok()?.positions();
        Some(Came {
            numbers,
            shown,
            positions,
            rest,
        })
    }
}

/// A plain ring of one producer: writes, a claim that is committed, one that is aborted, a batch, each read, and its
/// end.
pub fn one_to_one(alloc: Global) -> anyhow::Result<Option<Came>> {
    let (mut producer, mut consumer) = ring_ends::open(alloc, 256, 256)?;
    producer.write_alone(1, b"first")?;
    let mut claim: ring_rings::Claim = producer.try_claim(2, 6)?;
    let put = producer.put(&mut claim, 0, b"second");
    let place = claim.place();
    // A claim is always settled, whatever else fails.
    producer.commit(claim);
    put?;
    let aborted = producer.try_claim(3, 1)?;
    producer.abort(aborted);
    let third = ring_rings::Outgoing {
        type_id: 4,
        body: b"third",
    };
    let written = producer.write_batch(&[third])?;
    consumer.set_heartbeat(7);
    let numbers = [
        place,
        written as u64,
        producer.heartbeat(),
        producer.open_claims(),
        u64::from(producer.shares()),
        u64::from(producer.capacity()),
        producer.owners() as u64,
    ];
    let mut taking = returning(Action::Commit);
    let first = consumer.read(1, &mut taking);
    let second = consumer.controlled_read(1, &mut taking);
    let third = consumer.read_across(9, &mut taking);
    let shown = [first.messages, second.messages, third.messages];
    let positions = producer.positions();
    let last: ring_ends::LastEnd<ring_rings::OneToOne, ring_rings::InSlots> = match consumer.close(
        producer,
    ) {
        Ok(last) => last,
        Err(_refused) => return Ok(None),
    };
    Ok(Came::with(numbers, shown, positions, last))
}

/// A producer of a ring of many producers, with bodies in words.
type Producer = ring_ends::ProducerEnd<ring_rings::ManyToOne, ring_rings::InWords>;

/// The consumer of such a ring.
type Consumer = ring_ends::ConsumerEnd<ring_rings::ManyToOne, ring_rings::InWords>;

/// A ring of many producers: one try, calls that try again, two producers, and ids.
pub fn many_to_one<R: Wait>(rt: &R, alloc: Global) -> anyhow::Result<Option<Came>> {
    let (mut producer, mut consumer): (Producer, Consumer) = ring_ends::open(alloc, 256, 0)?;
    let spare: Result<Producer, ring_ends::SplitFault> = producer.split();
    let Ok(mut other) = spare else {
        return Ok(None);
    };
    producer.try_write(1, b"first")?;
    other.write(rt, 2, b"second")?;
    let claim = other.claim(rt, 3, 5)?;
    other.commit(claim);
    let numbers = [
        producer.next_correlation_id(),
        other.next_correlation_id(),
        other.heartbeat(),
        u64::from(other.shares()),
        u64::from(producer.shares()),
        other.open_claims(),
        other.owners() as u64,
    ];
    let mut taking = returning(Action::Continue);
    let end = consumer.read(2, &mut taking);
    let positions = other.positions();
    producer.join(other);
    let shown = [end.messages, taking.shown, 0];
    let Ok(last) = consumer.close(producer) else {
        return Ok(None);
    };
    Ok(Came::with(numbers, shown, positions, last))
}

/// The code with which a ring is not closed that has a producer more.
pub fn refused(alloc: Global) -> anyhow::Result<i32> {
    let (mut producer, consumer): (Producer, Consumer) = ring_ends::open(alloc, 256, 0)?;
    let Ok(_other) = producer.split() else {
        return Ok(0);
    };
    match consumer.close(producer) {
        Ok(_last) => Ok(0),
        Err(refused) => {
            let refused: ring_ends::CloseRefused<ring_rings::ManyToOne, ring_rings::InWords> =
                refused;
            Ok(refused.reason.code())
        }
    }
}

/// Puts a producer and its ring together, writes a message, and takes the producer out. Returns its shares.
pub fn put_together(alloc: Global) -> anyhow::Result<Option<u32>> {
    let (ring, producer, _consumer) = ring_rings::OneToOneRing::new(alloc, 256)?;
    let Ok(ring) = Arc::new(alloc, ring) else {
        return Ok(None);
    };
    let mut end = ring_ends::ProducerEnd::of(ring, producer);
    end.try_write(1, b"first")?;
    Ok(Some(end.into_producer().shares()))
}

/// A counter is set and added to, and a reader loads its value. Returns that, with the shares before and after the
/// reader is joined.
pub fn counters(alloc: Global) -> anyhow::Result<Option<(i64, [u32; 2])>> {
    let mut counters: ring_ends::CountersEnd = ring_ends::CountersEnd::new(alloc, 2, 0)?;
    let id = counters.allocate_owned(0, 1, &[], b"count", 0, 0)?;
    counters.set(id, 6)?;
    counters.increment(id)?;
    let lent: Result<ring_ends::ReaderEnd, ring_ends::SplitFault> = counters.reader();
    let Ok(mut reader) = lent else {
        return Ok(None);
    };
    let Ok(value) = reader.load(id) else {
        return Ok(None);
    };
    let left = counters.counters().value_shares();
    counters.join(reader);
    Ok(Some((value, [left, counters.counters().value_shares()])))
}
