//! One thread that writes a batch of messages by one call and reads it.
use crate::batches::{Both, take_until};
use crate::fault::Fault;
use crate::message::{BATCH, Batch, Sum};
use crate::request::Request;
use crate::sample::Sample;
use crate::task::{Task, time};
use ring_rings::{InSlots, Kind};
use std::alloc::Global;
use std::rt::Clock;

/// Batches that go through a plain ring, each of which is written by one call.
#[derive(Drop)]
struct AtOnce<K: Kind> {
    lane: Both<K, InSlots>,
    /// The messages that a read may take.
    limit: u32,
    batch: Batch,
    sum: Sum,
}

impl<K: Kind> AtOnce<K> {
    /// Writes a batch, of which the first message has this number.
    fn put(&mut self, first: u64) -> Result<(), Fault> {
        let messages = self.batch.numbered(first);
        match self.lane.producer.write_batch(&messages) {
            Ok(BATCH) => Ok(()),
            _ => Err(Fault::REFUSED),
        }
    }
}

impl<K: Kind> Task for AtOnce<K> {
    fn step(&mut self, number: u64) -> Result<(), Fault> {
        let first = number.wrapping_mul(BATCH as u64);
        self.put(first)?;
        take_until(
            &mut self.lane,
            self.limit,
            &mut self.sum,
            first.wrapping_add(BATCH as u64),
        )
    }
}

/// Writes and reads at least this many messages, in batches of 16. `NO_CONTENDER` if the size is no multiple of 8;
/// `NO_BUFFER` if there is no ring of that capacity; `REFUSED`, `STUCK` and `WRONG_MESSAGE` if messages are lost.
pub fn run_at_once<K: Kind, R: Clock>(
    rt: &R,
    alloc: Global,
    request: &Request,
    times: u64,
) -> Result<Sample, Fault> {
    let batch = Batch::new(alloc, request.size)?;
    let mut at_once = AtOnce {
        lane: Both::<K, InSlots>::open(alloc, request.capacity)?,
        limit: request.contender.limit(),
        batch,
        sum: Sum::new(),
    };
    let count = times.div_ceil(BATCH as u64);
    let nanos = time(rt, &mut at_once, count)?;
    let messages = count.wrapping_mul(BATCH as u64);
    at_once.sum.check(messages)?;
    Ok(Sample::new(nanos, messages))
}
