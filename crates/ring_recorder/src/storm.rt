//! A storm: the threads, and the text of what they noted.
ghost use Rattle.std.specs.Prelude.{◌≡◌, All, IfOk};
ghost use Rattle.std.specs.Thread.{IsSync};
ghost use Rattle.ring_rings.specs.Seats.{IsConsumerOf, IsProducerOf, MayClaim};

use crate::consumer::{Reading, consume};
use crate::fault::RecordFault;
use crate::log::{head_line, write_consumer, write_producer};
use crate::plan::Plan;
use crate::producer::{Notes, leave_one_open, produce};
use crate::random::Random;
use ring_rings::{Bodies, Consumer, Kind, ManyToOne, OneToOne, Producer, Ring};
use std::alloc::{AllocError, Global};
use std::fmt::Write;
use std::sync::Wait;
use std::sync::atomic::{AtomicU32, Ordering};
use std::thread::{Threads, join, map_vec};

/// A producer with its notes.
#[derive(Drop)]
pub struct Worker {
    pub producer: Producer,
    notes: Notes,
    /// The fault that ended the producer.
    fault: Option<RecordFault>,
}

impl Worker {
    /// A producer that has made no call.
    fn new(producer: Producer, notes: Notes) -> Worker
        ensures { result.producer ≡ producer }
    {
        Worker {
            producer,
            notes,
            fault: None,
        }
    }
}

/// The consumer with its notes.
#[derive(Drop)]
pub struct Reader {
    pub consumer: Consumer,
    reading: Reading,
}

/// Makes all claims of a producer. The producer has then ended.
fn work<K: Kind, B: Bodies, R: Wait>(
    rt: &R,
    ring: &Ring<K, B>,
    worker: Worker,
    plan: &Plan,
    ended: &AtomicU32,
) -> Worker
    requires { IsProducerOf ring.now worker.producer × MayClaim K.many worker.producer }
    ensures { IsProducerOf ring.now result.producer × MayClaim K.many result.producer }
{
    let Worker {
        mut producer,
        mut notes,
        ..
    } = worker;
    let fault = produce(rt, ring, &mut producer, &mut notes, plan.claims).err();
    ended.fetch_add(1, Ordering::SeqCst);
    Worker {
        producer,
        notes,
        fault,
    }
}

/// Makes all claims of all producers, each on a thread of its own. All producers have then ended.
fn work_all<K: Kind + Sync, B: Bodies + Sync, R: Threads + Sync + Wait>(
    rt: &R,
    ring: &Ring<K, B>,
    workers: Vec<Worker>,
    plan: &Plan,
    ended: &AtomicU32,
) -> Result<Vec<Worker>, AllocError>
    requires { All (λ worker. IsProducerOf ring.now worker.producer × MayClaim K.many worker.producer) workers.items }
{
    let done = map_vec(
        rt,
        workers,
        &|worker: Worker| -> Worker
            requires { IsProducerOf ring.now worker.producer × MayClaim K.many worker.producer }
        { work(rt, ring, worker, plan, ended) },
    );
    ended.store(plan.producers, Ordering::SeqCst);
    done
}

/// Reads until all producers have ended and no message is left.
fn watch<K, B: Bodies, R: Wait>(
    rt: &R,
    alloc: Global,
    ring: &Ring<K, B>,
    consumer: Consumer,
    plan: &Plan,
    ended: &AtomicU32,
) -> Reader
    requires { IsConsumerOf ring.now consumer }
    ensures { IsConsumerOf ring.now result.consumer }
{
    let mut consumer = consumer;
    let mut reading = Reading::new(alloc);
    let random = Random::new(plan.seed, u64::MAX);
    consume(
        rt,
        ring,
        &mut consumer,
        &mut reading,
        random,
        ended,
        plan.producers,
    );
    Reader { consumer, reading }
}

/// Splits off a producer for each thread. The numbers of these producers begin with 0.
fn workers_of<B: Bodies>(
    alloc: Global,
    ring: &Ring<ManyToOne, B>,
    producer: &mut Producer,
    plan: &Plan,
) -> Result<Vec<Worker>, RecordFault>
    requires { IsProducerOf ring.now producer.old }
    ensures producer { IsProducerOf ring.now producer.new }
    ensures workers { IfOk result (λ workers. All (λ worker. IsProducerOf ring.now worker.producer) workers.items) }
{
    let mut workers = Vec::new(alloc);
    for id in 0..plan.producers {
        let another = ring.split(producer)?;
        workers.push(Worker::new(another, Notes::new(alloc, plan, id)?))?;
    }
    Ok(workers)
}

/// Returns the text of what the threads noted.
fn text_of(
    alloc: Global,
    plan: &Plan,
    workers: &[Worker],
    own: &Notes,
    reading: &Reading,
) -> Result<String, RecordFault> {
    let mut text = head_line(alloc, plan)?;
    for Worker { notes, fault, .. } in workers {
        if let Some(fault) = fault {
            return Err(*fault);
        }
        if notes.is_short {
            return Err(RecordFault::OutOfMemory);
        }
        write_producer(&mut text, notes.id, notes.log.as_slice())?;
    }
    if own.is_short || reading.is_short {
        return Err(RecordFault::OutOfMemory);
    }
    write_producer(&mut text, own.id, own.log.as_slice())?;
    write_consumer(&mut text, reading.lines.as_slice())?;
    Ok(text)
}

/// Ends a storm whose producers have ended, and returns its text. If the seed is even, some claims more are made, of
/// which one stays open.
fn finish<K: Kind, B: Bodies, R: Wait>(
    rt: &R,
    alloc: Global,
    plan: &Plan,
    ring: &Ring<K, B>,
    workers: Vec<Worker>,
    own: Worker,
    reader: Reader,
) -> Result<String, RecordFault>
    requires producer { IsProducerOf ring.now own.producer }
    requires sole { MayClaim K.many own.producer }
    requires consumer { IsConsumerOf ring.now reader.consumer }
{
    let Worker {
        mut producer,
        mut notes,
        fault,
    } = own;
    if let Some(fault) = fault {
        return Err(fault);
    }
    let Reader {
        mut consumer,
        mut reading,
    } = reader;
    if plan.claims > 0 && plan.seed % 2 == 0 {
        leave_one_open(rt, ring, &mut producer, &mut notes)?;
    }
    let none = AtomicU32::new(0);
    let random = Random::new(plan.seed, 0);
    consume(rt, ring, &mut consumer, &mut reading, random, &none, 0);
    let positions = ring.positions(&mut producer);
    let mut text = text_of(alloc, plan, workers.as_slice(), &notes, &reading)?;
    writeln!(
        text,
        "empty\npositions {} {}",
        positions.head, positions.tail
    )?;
    Ok(text)
}

/// A storm of one producer.
fn storm_of_one<K: Kind + Sync, B: Bodies + Sync, R: Threads + Sync + Wait>(
    rt: &R,
    alloc: Global,
    plan: &Plan,
    ring: &Ring<K, B>,
    worker: Worker,
    consumer: Consumer,
) -> Result<String, RecordFault>
    requires worker { IsProducerOf ring.now worker.producer × MayClaim K.many worker.producer }
    requires consumer { IsConsumerOf ring.now consumer }
{
    let ended = AtomicU32::new(0);
    let ended = &ended;
    let (own, reader) = join(
        rt,
        move || -> Worker
            requires { IsSync R.row × IsProducerOf ring.now worker.producer × MayClaim K.many worker.producer }
            ensures { IsProducerOf ring.entry.now result.producer × MayClaim K.many result.producer }
        { work(rt, ring, worker, plan, ended) },
        move || -> Reader
            requires { IsConsumerOf ring.now consumer }
            ensures { IsConsumerOf ring.entry.now result.consumer }
        { watch(rt, alloc, ring, consumer, plan, ended) },
    );
    finish(rt, alloc, plan, ring, Vec::new(alloc), own, reader)
}

/// A storm of many producers. One more producer makes the claims after the storm.
fn storm_of_many<K: Kind + Sync, B: Bodies + Sync, R: Threads + Sync + Wait>(
    rt: &R,
    alloc: Global,
    plan: &Plan,
    ring: &Ring<K, B>,
    workers: Vec<Worker>,
    own: Worker,
    consumer: Consumer,
) -> Result<String, RecordFault>
    requires workers { All (λ worker. IsProducerOf ring.now worker.producer × MayClaim K.many worker.producer)
        workers.items }
    requires own { IsProducerOf ring.now own.producer × MayClaim K.many own.producer }
    requires consumer { IsConsumerOf ring.now consumer }
{
    let ended = AtomicU32::new(0);
    let ended = &ended;
    let (workers, reader) = join(
        rt,
        move || -> Result<Vec<Worker>, AllocError>
            requires { IsSync R.row × All (λ worker. IsProducerOf ring.now worker.producer
                × MayClaim K.many worker.producer) workers.items }
        { work_all(rt, ring, workers, plan, ended) },
        move || -> Reader
            requires { IsConsumerOf ring.now consumer }
            ensures { IsConsumerOf ring.entry.now result.consumer }
        { watch(rt, alloc, ring, consumer, plan, ended) },
    );
    finish(rt, alloc, plan, ring, workers?, own, reader)
}

/// Records the storm of a plan on a ring of this form, and returns its text. The call may wait.
///
/// # Errors
/// - `NoRing`: no ring has this capacity.
/// - `Refused`: a claim was refused for another reason than lack of room.
/// - `OutOfMemory`: memory ran out.
pub fn record<B: Bodies + Sync, R: Threads + Sync + Wait>(
    rt: &R,
    alloc: Global,
    plan: &Plan,
) -> Result<String, RecordFault> {
    let Plan {
        capacity,
        start,
        producers,
        ..
    } = *plan;
    let notes = Notes::new(alloc, plan, if producers == 1 { 0 } else { producers })?;
    if producers == 1 {
        let (ring, producer, consumer) = Ring::<OneToOne, B>::new_at(alloc, capacity, start)?;
        let worker = Worker::new(producer, notes);
        return storm_of_one(rt, alloc, plan, &ring, worker, consumer);
    }
    let (ring, mut producer, consumer) = Ring::<ManyToOne, B>::new_at(alloc, capacity, start)?;
    let workers = workers_of(alloc, &ring, &mut producer, plan)?;
    let own = Worker::new(producer, notes);
    storm_of_many(rt, alloc, plan, &ring, workers, own, consumer)
}
