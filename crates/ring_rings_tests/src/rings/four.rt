//! Four producers and the consumer of a ring, each on a thread of its own.
ghost use Rattle.std.specs.Prelude.{◌≤◌};
ghost use Rattle.std.specs.Thread.{IsSync};
ghost use Rattle.ring_rings.specs.Seats.{IsConsumerOf, IsProducerOf};

use crate::rings::dice::Dice;
use crossbeam_utils::Backoff;
use ring_rings::{
    Action, Bodies, ClaimFault, Consumer, Handler, ManyToOne, Producer, Ring, Stop, TryFault,
};
use std::process::Abort;
use std::thread::{Threads, join, yield_now};

/// What one thread tries at most.
pub const TURNS: u32 = 50_000_000;

/// The messages of each of four producers that share the work.
pub const SHARE: u32 = 2_500;

/// What a producer does on a thread of its own.
#[derive(Clone, Copy)]
pub enum Job {
    /// It draws three ids, and writes all its messages.
    Share,
    /// It stops at a random step. The random numbers depend on this one and on the number of the producer.
    Stop(u64),
}

/// What a producer came to: how many messages it wrote, the ids that it drew, and whether a claim of its own stayed
/// open.
#[derive(Drop)]
pub struct Written {
    pub producer: Producer,
    pub count: u32,
    pub ids: [u64; 3],
    pub open: bool,
}

/// The number of a producer and the number of its message.
pub fn body_of(index: u32, number: u32) -> [u8; 8] {
    let mut body = [0; 8];
    body[0..4].copy_from_slice(&index.to_le_bytes());
    body[4..8].copy_from_slice(&number.to_le_bytes());
    body
}

/// Takes the messages of four producers, each producer's in order.
#[derive(Drop)]
pub struct Tally {
    next: [u32; 4],
    pub received: u32,
    right: bool,
}

impl Tally {
    pub fn new() -> Self {
        Tally {
            next: [0; 4],
            received: 0,
            right: true,
        }
    }

    /// How many messages of each producer came.
    pub fn counts(&self) -> [u32; 4] {
        self.next
    }

    /// Tests whether all that came was written, and each producer's messages came in order.
    pub fn is_right(&self) -> bool {
        self.right
    }
}

impl Handler for Tally {
    ghost step = { λ s m t action. Unit {0} };

    fn on_message(&mut self, type_id: i32, body: &[u8]) -> Action {
        self.received = self.received.saturating_add(1);
        let index = body.first().copied().unwrap_or(4);
        match self.next.get_mut(index as usize) {
            Some(next) => {
                let is_next = type_id == 1 && body == body_of(u32::from(index), *next).as_slice();
                self.right = self.right && is_next;
                *next = next.saturating_add(1);
            }
            None => self.right = false,
        }
        Action::Continue
    }
}

/// Draws three ids, and writes the messages of the producer with this number.
fn write_share<B: Bodies>(ring: &Ring<ManyToOne, B>, mut producer: Producer, index: u32) -> Written
    requires { IsProducerOf ring.now producer }
    ensures { IsProducerOf ring.now result.producer }
{
    let first = ring.next_correlation_id(&mut producer);
    let second = ring.next_correlation_id(&mut producer);
    let third = ring.next_correlation_id(&mut producer);
    let mut count = 0;
    let backoff = Backoff::new();
    'turns: for _ in 0..TURNS {
        if count == SHARE {
            break;
        }
        match ring.write_once(&mut producer, 1, &body_of(index, count)) {
            Ok(()) => {
                count += 1;
                backoff.reset();
            }
            Err(TryFault::Contended { .. }) => backoff.spin(),
            Err(TryFault::Refused(ClaimFault::InsufficientCapacity { .. })) => backoff.snooze(),
            Err(TryFault::Refused(_)) => break,
        }
    }
    Written {
        producer,
        count,
        ids: [first, second, third],
        open: false,
    }
}

/// The seed of the producer with this number.
fn seed_of(seed: u64, index: u32) -> u64 {
    let mixed = match index {
        0 => seed,
        1 => seed ^ 0x5555,
        2 => seed ^ 0xAAAA,
        _ => seed ^ 0xFFFF,
    };
    mixed.wrapping_mul(0x9E37_79B9_7F4A_7C15)
}

/// Writes up to 40 messages, and then stops: with an open claim, with a second producer that was made of it and is lost,
/// or after its last message.
fn write_and_stop<B: Bodies>(
    ring: &Ring<ManyToOne, B>,
    mut producer: Producer,
    index: u32,
    seed: u64,
) -> Written
    requires { IsProducerOf ring.now producer }
    ensures { IsProducerOf ring.now result.producer }
{
    let mut dice = Dice(seed_of(seed, index));
    let mut count: u32 = 0;
    'tries: for _ in 0..dice.below(40) {
        let body = body_of(index, count);
        if ring.write_once(&mut producer, 1, &body).is_ok() {
            count = count.saturating_add(1);
        }
    }
    let mut open = false;
    match dice.below(3) {
        0 => match ring.claim_once(&mut producer, 2, 8) {
            Ok(claim) => {
                claim.leak();
                open = true;
            }
            Err(_) => {}
        },
        1 => {
            let _second = ring.split(&mut producer);
        }
        _ => {}
    }
    let ids = [0; 3];
    Written {
        producer,
        count,
        ids,
        open,
    }
}

/// What the producer with this number does.
fn works<B: Bodies>(ring: &Ring<ManyToOne, B>, producer: Producer, index: u32, job: Job) -> Written
    requires { IsProducerOf ring.now producer }
    ensures { IsProducerOf ring.now result.producer }
{
    match job {
        Job::Share => write_share(ring, producer, index),
        Job::Stop(seed) => write_and_stop(ring, producer, index, seed),
    }
}

/// Reads until the messages of four producers have come.
fn read_shares<B: Bodies>(ring: &Ring<ManyToOne, B>, mut consumer: Consumer) -> (Consumer, Tally)
    requires { IsConsumerOf ring.now consumer }
    ensures { IsConsumerOf ring.now result.0 }
{
    let mut tally = Tally::new();
    'turns: for _ in 0..TURNS {
        if tally.received >= 4 * SHARE {
            break;
        }
        if ring.read(&mut consumer, 9, &mut tally).stopped == Stop::Unpublished {
            yield_now();
        }
    }
    (consumer, tally)
}

/// Reads a few times, while producers are lost.
fn read_some<B: Bodies>(ring: &Ring<ManyToOne, B>, mut consumer: Consumer) -> (Consumer, Tally)
    requires { IsConsumerOf ring.now consumer }
    ensures { IsConsumerOf ring.now result.0 }
{
    let mut tally = Tally::new();
    'turns: for _ in 0..20 {
        ring.read(&mut consumer, 9, &mut tally);
    }
    (consumer, tally)
}

/// Reads while producers do this.
fn reads<B: Bodies>(ring: &Ring<ManyToOne, B>, consumer: Consumer, job: Job) -> (Consumer, Tally)
    requires { IsConsumerOf ring.now consumer }
    ensures { IsConsumerOf ring.now result.0 }
{
    match job {
        Job::Share => read_shares(ring, consumer),
        Job::Stop(_) => read_some(ring, consumer),
    }
}

/// Two producers, each on a thread of its own.
fn write_two<R: Threads + Sync, B: Bodies + Sync>(
    rt: &R,
    ring: &Ring<ManyToOne, B>,
    producers: (Producer, Producer),
    index: u32,
    job: Job,
) -> (Written, Written)
    requires producers { IsProducerOf ring.now producers.0 × IsProducerOf ring.now producers.1 }
    requires index { index ≤ 2 }
    ensures { IsProducerOf ring.now result.0.producer × IsProducerOf ring.now result.1.producer }
{
    let (one, two) = producers;
    join(
        rt,
        move || -> Written
            requires { IsProducerOf ring.now one }
            ensures { IsProducerOf ring.entry.now result.producer }
        { works(ring, one, index, job) },
        move || -> Written
            requires { IsProducerOf ring.now two × (index ≤ 2) }
            ensures { IsProducerOf ring.entry.now result.producer }
        { works(ring, two, index + 1, job) },
    )
}

/// Four producers, each on a thread of its own.
fn write_four<R: Threads + Sync, B: Bodies + Sync>(
    rt: &R,
    ring: &Ring<ManyToOne, B>,
    first: (Producer, Producer),
    last: (Producer, Producer),
    job: Job,
) -> ((Written, Written), (Written, Written))
    requires first { IsProducerOf ring.now first.0 × IsProducerOf ring.now first.1 }
    requires last { IsProducerOf ring.now last.0 × IsProducerOf ring.now last.1 }
    ensures first { IsProducerOf ring.now result.0.0.producer × IsProducerOf ring.now result.0.1.producer }
    ensures last { IsProducerOf ring.now result.1.0.producer × IsProducerOf ring.now result.1.1.producer }
{
    join(
        rt,
        move || -> (Written, Written)
            requires { IsSync R.row × IsProducerOf ring.now first.0 × IsProducerOf ring.now first.1 }
            ensures { IsProducerOf ring.entry.now result.0.producer × IsProducerOf ring.entry.now result.1.producer }
        { write_two(rt, ring, first, 0, job) },
        move || -> (Written, Written)
            requires { IsSync R.row × IsProducerOf ring.now last.0 × IsProducerOf ring.now last.1 }
            ensures { IsProducerOf ring.entry.now result.0.producer × IsProducerOf ring.entry.now result.1.producer }
        { write_two(rt, ring, last, 2, job) },
    )
}

/// The same, and the consumer on a thread of its own.
pub fn run_four<R: Threads + Sync, B: Bodies + Sync>(
    rt: &R,
    ring: &Ring<ManyToOne, B>,
    first: (Producer, Producer),
    last: (Producer, Producer),
    consumer: Consumer,
    job: Job,
) -> ((Consumer, Tally), ((Written, Written), (Written, Written)))
    requires first { IsProducerOf ring.now first.0 × IsProducerOf ring.now first.1 }
    requires last { IsProducerOf ring.now last.0 × IsProducerOf ring.now last.1 }
    requires consumer { IsConsumerOf ring.now consumer }
    ensures consumer { IsConsumerOf ring.now result.0.0 }
    ensures first { IsProducerOf ring.now result.1.0.0.producer × IsProducerOf ring.now result.1.0.1.producer }
    ensures last { IsProducerOf ring.now result.1.1.0.producer × IsProducerOf ring.now result.1.1.1.producer }
{
    join(
        rt,
        move || -> (Consumer, Tally)
            requires { IsConsumerOf ring.now consumer }
            ensures { IsConsumerOf ring.entry.now result.0 }
        { reads(ring, consumer, job) },
        move || -> ((Written, Written), (Written, Written))
            requires { IsSync R.row × IsProducerOf ring.now first.0 × IsProducerOf ring.now first.1
                × IsProducerOf ring.now last.0 × IsProducerOf ring.now last.1 }
            ensures { (IsProducerOf ring.entry.now result.0.0.producer
                × IsProducerOf ring.entry.now result.0.1.producer)
                × IsProducerOf ring.entry.now result.1.0.producer
                × IsProducerOf ring.entry.now result.1.1.producer }
        { write_four(rt, ring, first, last, job) },
    )
}

/// Four producers of a ring that has one.
pub fn split_in_four<B: Bodies>(
    rt: &impl Abort,
    ring: &Ring<ManyToOne, B>,
    mut one: Producer,
) -> ((Producer, Producer), (Producer, Producer))
    requires { IsProducerOf ring.now one }
    ensures first { IsProducerOf ring.now result.0.0 × IsProducerOf ring.now result.0.1 }
    ensures last { IsProducerOf ring.now result.1.0 × IsProducerOf ring.now result.1.1 }
{
    let two = ring.split(&mut one).expect(rt, "a producer");
    let three = ring.split(&mut one).expect(rt, "a producer");
    let four = ring.split(&mut one).expect(rt, "a producer");
    ((one, two), (three, four))
}
