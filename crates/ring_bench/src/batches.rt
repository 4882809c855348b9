//! One thread that writes a batch of messages and reads it.
use crate::fault::Fault;
use crate::message::{BATCH, Body, Sum, TYPE_ID};
use crate::request::{Request, Workload};
use crate::sample::Sample;
use crate::task::{Task, time};
use ring_ends::{ConsumerEnd, ProducerEnd, open};
use ring_rings::{Bodies, Kind};
use ring_words::SoloRing;
use std::alloc::Global;
use std::rt::Clock;

/// The tries to read a batch.
const READS: u32 = 1_000_000;

/// A ring in the hands of one thread, which writes it and reads it.
pub(crate) trait Lane {
    /// Whether the message was written.
    fn put(&mut self, body: &[u8]) -> bool;

    /// Reads at most `limit` messages.
    fn take(&mut self, limit: u32, sum: &mut Sum);
}

impl Lane for SoloRing {
    #[inline(always)]
    fn put(&mut self, body: &[u8]) -> bool {
        self.write(TYPE_ID, body).is_ok()
    }

    #[inline(always)]
    fn take(&mut self, limit: u32, sum: &mut Sum) {
        self.read(limit, sum);
    }
}

/// Both ends of a shared ring.
#[derive(Drop)]
pub(crate) struct Both<K: Kind, B: Bodies> {
    pub producer: ProducerEnd<K, B>,
    pub consumer: ConsumerEnd<K, B>,
}

impl<K: Kind, B: Bodies> Both<K, B> {
    pub(crate) fn open(alloc: Global, capacity: u32) -> Result<Both<K, B>, Fault> {
        let (producer, consumer) = open(alloc, capacity, 0)?;
        Ok(Both { producer, consumer })
    }
}

impl<K: Kind, B: Bodies> Lane for Both<K, B> {
    #[inline(always)]
    fn put(&mut self, body: &[u8]) -> bool {
        self.producer.try_write(TYPE_ID, body).is_ok()
    }

    #[inline(always)]
    fn take(&mut self, limit: u32, sum: &mut Sum) {
        self.consumer.read(limit, sum);
    }
}

/// Reads until this many messages came in all, by reads that take at most `limit` messages each.
pub(crate) fn take_until<L: Lane>(
    lane: &mut L,
    limit: u32,
    sum: &mut Sum,
    count: u64,
) -> Result<(), Fault> {
    for _ in 0..READS {
        if sum.count >= count {
            return Ok(());
        }
        lane.take(limit, sum);
    }
    Err(Fault::STUCK)
}

/// Batches that go through a ring, of which each message is written by a call of its own.
#[derive(Drop)]
struct Batches<L> {
    lane: L,
    /// The messages that a read may take.
    limit: u32,
    body: Body,
    sum: Sum,
}

impl<L: Lane> Batches<L> {
    /// Writes a batch, of which the first message has this number.
    fn put(&mut self, first: u64) -> Result<(), Fault> {
        for k in 0..BATCH as u64 {
            if !self.lane.put(self.body.numbered(first.wrapping_add(k))) {
                return Err(Fault::REFUSED);
            }
        }
        Ok(())
    }
}

impl<L: Lane> Task for Batches<L> {
    fn step(&mut self, number: u64) -> Result<(), Fault> {
        let first = number.wrapping_mul(BATCH as u64);
        self.put(first)?;
        take_until(
            &mut self.lane,
            self.limit,
            &mut self.sum,
            first.wrapping_add(BATCH as u64),
        )
    }
}

/// Writes and reads at least this many messages.
fn run_lane<L: Lane + Drop, R: Clock>(
    rt: &R,
    lane: L,
    limit: u32,
    body: Body,
    times: u64,
) -> Result<Sample, Fault> {
    let mut batches = Batches {
        lane,
        limit,
        body,
        sum: Sum::new(),
    };
    let count = times.div_ceil(BATCH as u64);
    let nanos = time(rt, &mut batches, count)?;
    let messages = count.wrapping_mul(BATCH as u64);
    batches.sum.check(messages)?;
    Ok(Sample::new(nanos, messages))
}

fn body_of(alloc: Global, request: &Request) -> Result<Body, Fault> {
    if request.workload == Workload::Sparse {
        Body::sparse(alloc, request.size)
    } else {
        Body::new(alloc, request.size)
    }
}

/// Writes and reads at least this many messages with a shared ring. `NO_CONTENDER` if the size is no multiple of 8;
/// `NO_BUFFER` if there is no ring of that capacity; `REFUSED`, `STUCK` and `WRONG_MESSAGE` if messages are lost.
pub fn run_batches<K: Kind, B: Bodies, R: Clock>(
    rt: &R,
    alloc: Global,
    request: &Request,
    times: u64,
) -> Result<Sample, Fault> {
    let body = body_of(alloc, request)?;
    let lane = Both::<K, B>::open(alloc, request.capacity)?;
    run_lane(rt, lane, request.contender.limit(), body, times)
}

/// The same with the ring of one owner.
pub fn run_solo<R: Clock>(
    rt: &R,
    alloc: Global,
    request: &Request,
    times: u64,
) -> Result<Sample, Fault> {
    let body = body_of(alloc, request)?;
    let lane = SoloRing::new(alloc, request.capacity)?;
    run_lane(rt, lane, request.contender.limit(), body, times)
}
