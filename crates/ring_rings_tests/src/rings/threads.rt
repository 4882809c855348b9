ghost use Rattle.std.specs.Prelude.{◌≡◌};
ghost use Rattle.ring_rings.specs.Seats.{all_shares, shares_of, IsConsumerOf, IsProducerOf};

use crate::compare::same;
use crate::rings::forms::opened;
use crate::rings::four::{Job, SHARE, TURNS, Tally, Written, run_four, split_in_four};
use crossbeam_utils::Backoff;
use ring_rings::{
    Action, Bodies, ClaimFault, Consumer, Handler, InSlots, InWords, Kind, ManyToOne, OneToOne,
    Positions, Producer, Ring, Stop,
};
use std::alloc::Global;
use std::process::Abort;
use std::thread::{Threads, join, yield_now};

/// The messages through the ring with one producer.
const NUMBERS: u64 = 1_000;

/// Takes the numbers from 0 on, each in a message of type 1.
#[derive(Drop)]
struct Numbers {
    next: u64,
    right: bool,
}

impl Handler for Numbers {
    ghost step = { λ s m t action. Unit {0} };

    fn on_message(&mut self, type_id: i32, body: &[u8]) -> Action {
        let is_next = type_id == 1 && body == self.next.to_le_bytes().as_slice();
        self.right = self.right && is_next;
        self.next = self.next.saturating_add(1);
        Action::Continue
    }
}

/// Writes the numbers from 0 on, and says how many it wrote.
fn write_numbers<B: Bodies>(ring: &Ring<OneToOne, B>, mut producer: Producer) -> (Producer, u64)
    requires producer { IsProducerOf ring.now producer }
    requires sole { shares_of producer ≡ all_shares }
    ensures { IsProducerOf ring.now result.0 }
{
    let mut written = 0;
    let backoff = Backoff::new();
    'turns: for _ in 0..TURNS {
        if written == NUMBERS {
            break;
        }
        match ring.write(&mut producer, 1, &written.to_le_bytes()) {
            Ok(()) => {
                written += 1;
                backoff.reset();
            }
            Err(ClaimFault::InsufficientCapacity { .. }) => backoff.snooze(),
            Err(_) => break,
        }
    }
    (producer, written)
}

/// Reads until all numbers have come.
fn read_numbers<B: Bodies>(ring: &Ring<OneToOne, B>, mut consumer: Consumer) -> (Consumer, Numbers)
    requires { IsConsumerOf ring.now consumer }
    ensures { IsConsumerOf ring.now result.0 }
{
    let mut numbers = Numbers {
        next: 0,
        right: true,
    };
    'turns: for _ in 0..TURNS {
        if numbers.next >= NUMBERS {
            break;
        }
        if ring.read(&mut consumer, 9, &mut numbers).stopped == Stop::Unpublished {
            yield_now();
        }
    }
    (consumer, numbers)
}

/// The numbers go through a ring from one thread to another.
fn numbers_through<B: Bodies + Sync>(rt: &(impl Abort + Threads), alloc: Global) {
    let (ring, producer, consumer) = opened::<OneToOne, B>(rt, alloc, 0);
    let shared = &ring;
    let ((producer, written), (consumer, numbers)) = join(
        rt,
        move || -> (Producer, u64)
            requires { IsProducerOf shared.now producer × (shares_of producer ≡ all_shares) }
            ensures { IsProducerOf shared.entry.now result.0 }
        { write_numbers(shared, producer) },
        move || -> (Consumer, Numbers)
            requires { IsConsumerOf shared.now consumer }
            ensures { IsConsumerOf shared.entry.now result.0 }
        { read_numbers(shared, consumer) },
    );
    same(rt, (written, numbers.next), (NUMBERS, NUMBERS));
    same(rt, numbers.right, true);
    closes_at(rt, ring, producer, consumer, 16_000);
}

#[test]
fn numbers_come_in_order(rt: HostRuntime) {
    numbers_through::<InWords>(&rt, rt.alloc());
    numbers_through::<InSlots>(&rt, rt.alloc());
}

/// How many of the producers drew an id.
fn count_draws(all: &[&Written], id: u64) -> usize {
    all.iter()
        .filter(|written| written.ids.contains(&id))
        .count()
}

/// Tests that each producer wrote its messages, that all of them came, and that each of twelve ids was drawn once.
fn all_came(rt: &impl Abort, all: &[&Written], tally: &Tally) {
    for written in all {
        same(rt, written.count, SHARE);
    }
    for id in 0..12u64 {
        same(rt, count_draws(all, id), 1);
    }
    same(rt, (tally.is_right(), tally.received), (true, 4 * SHARE));
    same(rt, tally.counts(), [SHARE; 4]);
}

/// Closes a ring that is empty, and tests that its head and tail are at this position.
fn closes_at<K: Kind, B: Bodies>(
    rt: &impl Abort,
    ring: Ring<K, B>,
    producer: Producer,
    consumer: Consumer,
    position: u64,
)
    requires producer { IsProducerOf ring producer }
    requires consumer { IsConsumerOf ring consumer }
{
    let rest = ring
        .close(producer, consumer)
        .ok()
        .expect(rt, "a closed ring");
    let (head, tail) = (position, position);
    same(rt, rest.positions(), Positions { head, tail });
}

/// The messages of four producers go through a ring, each producer on a thread of its own.
fn shares_through<R: Abort + Threads + Sync, B: Bodies + Sync>(rt: &R, alloc: Global) {
    let (ring, one, consumer) = Ring::<ManyToOne, B>::new(alloc, 1024).expect(rt, "a ring");
    let (first, last) = split_in_four(rt, &ring, one);
    let ((consumer, tally), ((one, two), (three, four))) = run_four(
        rt,
        &ring,
        first,
        last,
        consumer,
        Job::Share,
    );
    all_came(rt, &[&one, &two, &three, &four], &tally);
    let mut producer = one.producer;
    ring.join(&mut producer, two.producer);
    ring.join(&mut producer, three.producer);
    ring.join(&mut producer, four.producer);
    closes_at(rt, ring, producer, consumer, 160_000);
}

#[test]
fn four_producers_lose_no_message(rt: HostRuntime) {
    shares_through::<_, InWords>(&rt, rt.alloc());
    shares_through::<_, InSlots>(&rt, rt.alloc());
}
