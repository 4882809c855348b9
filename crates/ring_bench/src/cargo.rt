//! What a producer sends: single messages, or batches.
ghost use Rattle.std.specs.Prelude.{◌≤◌, length};

use crate::fault::Fault;
use crate::message::{BATCH, Batch, Body, TYPE_ID, first_word};
use crate::rest::{Rest, TRIES};
use ring_ends::ProducerEnd;
use ring_rings::{Bodies, ClaimFault, InSlots, Kind, Outgoing, TryFault};
use std::alloc::Global;
use std::hint::spin_loop;

/// What a producer sends into a ring.
pub trait Cargo<K: Kind, B: Bodies>: Sized {
    /// Messages of this many bytes. `NO_CONTENDER` if that is no multiple of 8, or 0.
    fn new(alloc: Global, size: usize) -> Result<Self, Fault>;

    /// Sends all messages of the producer with this number. `REFUSED` if such a message is never taken, `STUCK` if
    /// there was no room for a long time.
    fn send_all(
        &mut self,
        producer: &mut ProducerEnd<K, B>,
        id: u32,
        messages: u64,
    ) -> Result<(), Fault>;
}

/// Writes a message, and waits while there is no room. `REFUSED` if such a message is never taken, `STUCK` if there was
/// no room for a long time.
fn send<K: Kind, B: Bodies>(producer: &mut ProducerEnd<K, B>, body: &[u8]) -> Result<(), Fault> {
    let mut rest = Rest::new();
    for _ in 0..TRIES {
        match producer.try_write(TYPE_ID, body) {
            Ok(()) => return Ok(()),
            Err(TryFault::Refused(ClaimFault::InsufficientCapacity { .. })) => rest.wait(),
            Err(TryFault::Refused(_)) => return Err(Fault::REFUSED),
            Err(TryFault::Contended { .. }) => spin_loop(),
        }
    }
    Err(Fault::STUCK)
}

/// Writes the messages of a batch by as few calls as there is room for, and waits while there is none. The faults are
/// those of `send`.
fn send_batch<K: Kind>(
    producer: &mut ProducerEnd<K, InSlots>,
    messages: &[Outgoing<'_>],
) -> Result<(), Fault> {
    let mut rest = Rest::new();
    let mut sent = 0;
    for _ in 0..TRIES {
        if sent == messages.len() {
            return Ok(());
        }
        match producer.write_batch(&messages[sent..]) {
            Ok(count) => sent += count,
            Err(TryFault::Refused(ClaimFault::InsufficientCapacity { .. })) => rest.wait(),
            Err(TryFault::Refused(_)) => return Err(Fault::REFUSED),
            Err(TryFault::Contended { .. }) => spin_loop(),
        }
    }
    Err(Fault::STUCK)
}

/// Sends messages one after another.
fn send_each<K: Kind, B: Bodies>(
    producer: &mut ProducerEnd<K, B>,
    body: &mut Body,
    id: u32,
    messages: u64,
) -> Result<(), Fault> {
    for number in 0..messages {
        send(producer, body.numbered(first_word(u64::from(id), number)))?;
    }
    Ok(())
}

/// Sends messages in batches. The last batch may be shorter than the others.
fn send_batches<K: Kind>(
    producer: &mut ProducerEnd<K, InSlots>,
    batch: &mut Batch,
    id: u32,
    messages: u64,
) -> Result<(), Fault> {
    for k in 0..messages.div_ceil(BATCH as u64) {
        let number = k.wrapping_mul(BATCH as u64);
        let left = messages.wrapping_sub(number).min(BATCH as u64) as usize;
        let messages = batch.numbered(first_word(u64::from(id), number));
        send_batch(producer, &messages[..left])?;
    }
    Ok(())
}

impl<K: Kind, B: Bodies> Cargo<K, B> for Body {
    fn new(alloc: Global, size: usize) -> Result<Body, Fault> {
        Body::new(alloc, size)
    }

    fn send_all(
        &mut self,
        producer: &mut ProducerEnd<K, B>,
        id: u32,
        messages: u64,
    ) -> Result<(), Fault> {
        send_each(producer, self, id, messages)
    }
}

impl<K: Kind> Cargo<K, InSlots> for Batch {
    fn new(alloc: Global, size: usize) -> Result<Batch, Fault> {
        Batch::new(alloc, size)
    }

    fn send_all(
        &mut self,
        producer: &mut ProducerEnd<K, InSlots>,
        id: u32,
        messages: u64,
    ) -> Result<(), Fault> {
        send_batches(producer, self, id, messages)
    }
}
