//! Messages from producers to the consumer, each on a thread of its own.
ghost use Rattle.std.specs.Thread.{IsSync};

use crate::cargo::Cargo;
use crate::fault::Fault;
use crate::message::{Batch, Body, Tally};
use crate::request::{Contender, Request, Workload};
use crate::rest::{Rest, TRIES};
use crate::sample::{Sample, nanos_since};
use ring_ends::{ConsumerEnd, ProducerEnd, open};
use ring_rings::{Bodies, InSlots, InWords, Kind, ManyToOne, OneToOne};
use std::alloc::Global;
use std::rt::Clock;
use std::sync::{Barrier, Wait};
use std::thread::{Threads, join, map_vec};
use std::time::Instant;

/// A producer, and what it sends.
#[derive(Drop)]
struct Load<K: Kind, B: Bodies, C> {
    producer: ProducerEnd<K, B>,
    cargo: C,
    /// The number of the producer.
    id: u32,
}

/// Sends all messages of a producer.
fn produce<K: Kind, B: Bodies, C: Cargo<K, B> + Drop, R: Wait>(
    rt: &R,
    load: Load<K, B, C>,
    start: &Barrier,
    messages: u64,
) -> Result<(), Fault> {
    let Load {
        mut producer,
        mut cargo,
        id,
    } = load;
    start.wait(rt);
    cargo.send_all(&mut producer, id, messages)
}

/// Sends all messages of all producers, each on a thread of its own.
fn produce_all<
    K: Kind + Send + Sync,
    B: Bodies + Send + Sync,
    C: Cargo<K, B> + Send + Drop,
    R: Threads + Sync + Wait,
>(rt: &R, loads: Vec<Load<K, B, C>>, start: &Barrier, messages: u64) -> Result<(), Fault> {
    let sent = map_vec(
        rt,
        loads,
        &|load: Load<K, B, C>| -> Result<(), Fault> { produce(rt, load, start, messages) },
    )?;
    for result in sent.iter() {
        (*result)?;
    }
    Ok(())
}

/// A consumer, and how many messages each of its reads may take.
#[derive(Drop)]
struct Reader<K: Kind, B: Bodies> {
    consumer: ConsumerEnd<K, B>,
    limit: u32,
}

impl<K: Kind, B: Bodies> Reader<K, B> {
    /// Reads until this many messages have come.
    fn take_all(&mut self, messages: u64) -> Tally {
        let mut tally = Tally::new();
        let mut rest = Rest::new();
        for _ in 0..TRIES {
            if tally.count >= messages {
                break;
            }
            if self.consumer.read(self.limit, &mut tally).messages > 0 {
                rest.reset();
            } else {
                rest.wait();
            }
        }
        tally
    }
}

/// Takes all messages, and measures the time from when all threads are there.
fn consume<K: Kind, B: Bodies, R: Clock + Wait>(
    rt: &R,
    mut reader: Reader<K, B>,
    start: &Barrier,
    messages: u64,
) -> Result<Sample, Fault> {
    start.wait(rt);
    let begin = Instant::now(rt)?;
    let tally = reader.take_all(messages);
    let nanos = nanos_since(rt, begin)?;
    tally.check(messages)?;
    Ok(Sample::new(nanos, messages))
}

/// The producers, each of which sends this many messages, and the consumer.
fn run_all<
    K: Kind + Send + Sync,
    B: Bodies + Send + Sync,
    C: Cargo<K, B> + Send + Drop,
    R: Clock + Threads + Sync + Wait,
>(rt: &R, loads: Vec<Load<K, B, C>>, reader: Reader<K, B>, messages: u64) -> Result<Sample, Fault> {
    let producers = loads.len();
    let all = messages.wrapping_mul(producers as u64);
    let start = Barrier::new(producers.saturating_add(1));
    let start = &start;
    let (sent, sample) = join(
        rt,
        move || -> Result<(), Fault>
            requires { IsSync R.row }
        { produce_all(rt, loads, start, messages) },
        move || -> Result<Sample, Fault> { consume(rt, reader, start, all) },
    );
    sent.and(sample)
}

/// A producer with messages of this many bytes. `NO_CONTENDER` if that is no multiple of 8, or 0.
fn load_of<K: Kind, B: Bodies, C: Cargo<K, B>>(
    alloc: Global,
    producer: ProducerEnd<K, B>,
    size: usize,
    id: u32,
) -> Result<Load<K, B, C>, Fault> {
    let cargo = C::new(alloc, size)?;
    Ok(Load {
        producer,
        cargo,
        id,
    })
}

/// Splits off a producer for each load, one less than there are producers.
fn loads_of<B: Bodies, C: Cargo<ManyToOne, B> + Drop>(
    alloc: Global,
    mut producer: ProducerEnd<ManyToOne, B>,
    size: usize,
    producers: u32,
) -> Result<Vec<Load<ManyToOne, B, C>>, Fault> {
    let mut loads = Vec::new(alloc);
    for id in 1..producers {
        let another = producer.split()?;
        loads.push(load_of(alloc, another, size, id)?)?;
    }
    loads.push(load_of(alloc, producer, size, 0)?)?;
    Ok(loads)
}

/// One producer and the consumer of a ring of one producer.
fn run_one_to_one<
    B: Bodies + Send + Sync,
    C: Cargo<OneToOne, B> + Send + Drop,
    R: Clock + Threads + Sync + Wait,
>(rt: &R, alloc: Global, request: &Request, messages: u64) -> Result<Sample, Fault> {
    let (producer, consumer) = open::<OneToOne, B>(alloc, request.capacity, 0)?;
    let load: Load<OneToOne, B, C> = load_of(alloc, producer, request.size, 0)?;
    let mut loads = Vec::new(alloc);
    loads.push(load)?;
    let limit = request.contender.limit();
    run_all(rt, loads, Reader { consumer, limit }, messages)
}

/// Some producers, each of which sends this many messages, and the consumer of a ring of many producers.
fn run_producers<
    B: Bodies + Send + Sync,
    C: Cargo<ManyToOne, B> + Send + Drop,
    R: Clock + Threads + Sync + Wait,
>(
    rt: &R,
    alloc: Global,
    request: &Request,
    messages: u64,
    producers: u32,
) -> Result<Sample, Fault> {
    let (producer, consumer) = open::<ManyToOne, B>(alloc, request.capacity, 0)?;
    let loads = loads_of::<B, C>(alloc, producer, request.size, producers)?;
    let limit = request.contender.limit();
    run_all(rt, loads, Reader { consumer, limit }, messages)
}

/// A ring of many producers with as many as a request asks for, one if it asks for a pair.
fn run_many_to_one<
    B: Bodies + Send + Sync,
    C: Cargo<ManyToOne, B> + Send + Drop,
    R: Clock + Threads + Sync + Wait,
>(rt: &R, alloc: Global, request: &Request, times: u64) -> Result<Sample, Fault> {
    match (request.workload, request.threads) {
        (Workload::Pair, _) => run_producers::<B, C, R>(rt, alloc, request, times, 1),
        (_, producers @ 1..=64) => {
            let each = (times / u64::from(producers)).saturating_add(1);
            run_producers::<B, C, R>(rt, alloc, request, each, producers)
        }
        _ => Err(Fault::NO_CONTENDER),
    }
}

/// Sends this many messages, or some more, from the producers to the consumer. `NO_CONTENDER` if no such ring takes
/// part with this many producers, or the size is no multiple of 8; `NO_BUFFER` if there is no ring of that capacity;
/// `REFUSED`, `STUCK` and `WRONG_MESSAGE` if messages are lost.
pub fn run_flow<R: Clock + Threads + Sync + Wait>(
    rt: &R,
    alloc: Global,
    request: &Request,
    times: u64,
) -> Result<Sample, Fault> {
    match request.contender {
        Contender::OneToOne => run_one_to_one::<InWords, Body, R>(rt, alloc, request, times),
        Contender::ManyToOne => run_many_to_one::<InWords, Body, R>(rt, alloc, request, times),
        Contender::PlainOneToOne | Contender::OneToOneSingle => {
            run_one_to_one::<InSlots, Body, R>(rt, alloc, request, times)
        }
        Contender::PlainManyToOne | Contender::ManyToOneSingle => {
            run_many_to_one::<InSlots, Body, R>(rt, alloc, request, times)
        }
        Contender::OneToOneBatch => run_one_to_one::<InSlots, Batch, R>(rt, alloc, request, times),
        Contender::ManyToOneBatch => run_many_to_one::<InSlots, Batch, R>(
            rt, alloc, request, times,
        ),
        _ => Err(Fault::NO_CONTENDER),
    }
}
