//! Four producers send numbers into one ring, each on a thread of its own.
ghost use Rattle.std.specs.Prelude.{◌≡◌, ◌≤◌, pos, [], length, IfOk};
ghost use Rattle.ring_ends.specs.End.{received, sent, AreOfOneRing};
ghost use Rattle.ring_uses.specs.Numbers.{sum_of, AreUpTo};
ghost use Rattle.ring_uses.specs.Producers.{AreInOrder, AreOfFour, AreOfTwo};

use crate::closing::close;
use crate::numbers::{Sum, Summed, read_numbers};
use anyhow::anyhow;
use crossbeam_utils::Backoff;
use ring_ends::{ConsumerEnd, LastEnd, ProducerEnd, open};
use ring_rings::{ClaimFault, InSlots, ManyToOne};
use std::alloc::Global;
use std::sync::Wait;
use std::thread::{Threads, join};

/// A producer of the ring, which is one of several. The ring is a plain one.
type Producer = ProducerEnd<ManyToOne, InSlots>;

/// The consumer of the ring.
type Consumer = ConsumerEnd<ManyToOne, InSlots>;

/// Both ends of the ring, after it was closed.
type Ends = LastEnd<ManyToOne, InSlots>;

/// Two producers.
type Pair = (Producer, Producer);

/// Writes the numbers from 1 to `last` with this type id, and waits while the ring is full.
fn write_numbers<R: Wait>(rt: &R, mut producer: Producer, type_id: i32, last: u32) -> Producer
    requires { sent producer ≡ [] }
    ensures ring { AreOfOneRing producer result }
    ensures sent { AreUpTo type_id last (sent result) }
{
    let backoff = Backoff::new();
    let mut written = 0;
    for _ in rt.forever() {
        if written == last {
            return producer;
        }
        let number: u32 = written + 1;
        let body = u64::from(number).to_le_bytes();
        match producer.write(rt, type_id, &body) {
            Ok(()) => {
                written = number;
                backoff.reset();
            }
            Err(ClaimFault::InsufficientCapacity { .. }) => backoff.snooze(),
            Err(_) => return producer,
        }
    }
    unreachable!()
}

/// Writes the numbers from 1 to `last` by two producers on two threads, and joins the producers.
fn write_both<R: Threads + Wait + Sync>(
    rt: &R,
    pair: Pair,
    first: i32,
    second: i32,
    last: u32,
) -> Producer
    requires ring { AreOfOneRing pair.0 pair.1 }
    requires new { (sent pair.0 ≡ []) × (sent pair.1 ≡ []) }
    ensures ring { AreOfOneRing pair.0 result }
    ensures sent { AreOfTwo first second last (sent result) }
{
    let (one, two) = pair;
    let (mut one, two) = join(
        rt,
        move || -> Producer
            requires { sent one ≡ [] }
            ensures { AreOfOneRing one result × AreUpTo first last (sent result) }
        { write_numbers(rt, one, first, last) },
        move || -> Producer
            requires { sent two ≡ [] }
            ensures { AreOfOneRing two result × AreUpTo second last (sent result) }
        { write_numbers(rt, two, second, last) },
    );
    one.join(two);
    one
}

/// Writes the numbers from 1 to `last` by four producers on four threads, with the type ids 1 to 4, and joins the
/// producers.
fn write_all<R: Threads + Wait + Sync>(rt: &R, left: Pair, right: Pair, last: u32) -> Producer
    requires left { AreOfOneRing left.0 left.1 }
    requires right { AreOfOneRing left.0 right.0 × AreOfOneRing right.0 right.1 }
    requires new { (sent left.0 ≡ []) × (sent left.1 ≡ []) × (sent right.0 ≡ []) × (sent right.1 ≡ []) }
    ensures ring { AreOfOneRing left.0 result }
    ensures sent { AreOfFour last (sent result) }
{
    let (mut producer, other) = join(
        rt,
        move || -> Producer
            requires { AreOfOneRing left.0 left.1 × (sent left.0 ≡ []) × (sent left.1 ≡ []) }
            ensures { AreOfOneRing left.0 result × AreOfTwo (pos 1) (pos 2) last (sent result) }
        { write_both(rt, left, 1, 2, last) },
        move || -> Producer
            requires { AreOfOneRing right.0 right.1 × (sent right.0 ≡ []) × (sent right.1 ≡ []) }
            ensures { AreOfOneRing right.0 result × AreOfTwo (pos 3) (pos 4) last (sent result) }
        { write_both(rt, right, 3, 4, last) },
    );
    producer.join(other);
    producer
}

/// Sends the numbers from 1 to `last` by each of four producers, and adds up all numbers that come.
pub fn gather<R: Threads + Wait + Sync>(
    rt: &R,
    alloc: Global,
    last: u32,
) -> anyhow::Result<Summed<Ends>>
    ensures { IfOk result (λ s. AreInOrder last s) }
{
    let (mut one, consumer) = open(alloc, 256, 0)?;
    let (Ok(two), Ok(three), Ok(four)) = (one.split(), one.split(), one.split()) else {
        return Err(anyhow!("a producer was not split"));
    };
    let (left, right) = ((one, two), (three, four));
    let all = 4 * u64::from(last);
    let (producer, (consumer, sum)) = join(
        rt,
        move || -> Producer
            requires { AreOfOneRing left.0 left.1 × AreOfOneRing left.0 right.0 × AreOfOneRing right.0 right.1
                × (sent left.0 ≡ []) × (sent left.1 ≡ []) × (sent right.0 ≡ []) × (sent right.1 ≡ []) }
            ensures { AreOfOneRing left.0 result × AreOfFour last (sent result) }
        { write_all(rt, left, right, last) },
        move || -> (Consumer, Sum)
            requires { received consumer ≡ [] }
            ensures { AreOfOneRing consumer result.0 × (all ≤ length (received result.0))
                × (result.1.sum ≡ sum_of (received result.0)) }
        { read_numbers(rt, consumer, all) },
    );
    let closed = close(producer, consumer)?;
    Ok(Summed {
        sum: sum.sum,
        closed,
    })
}
