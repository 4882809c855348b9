//! One thread writes the numbers from 1 on into a ring. Another thread reads them and adds them up.
ghost use Rattle.std.specs.Prelude.{◌≡◌, ◌≤◌, pos, [], length, IfOk};
ghost use Rattle.ring_ends.specs.End.{received, sent, AreOfOneRing};
ghost use Rattle.ring_uses.specs.{Numbers.sum_of, Numbers.AreUpTo, Sum.IsSummed};

use crate::closing::close;
use crate::numbers::{Sum, Summed, read_numbers};
use crossbeam_utils::Backoff;
use ring_ends::{ConsumerEnd, LastEnd, ProducerEnd, open};
use ring_rings::{ClaimFault, InSlots, OneToOne, TryFault};
use std::alloc::Global;
use std::sync::Wait;
use std::thread::{Threads, join};

/// The type id of the messages.
const NUMBER: i32 = 1;

/// The producer of the ring, which is its only one. The ring is a plain one.
type Producer = ProducerEnd<OneToOne, InSlots>;

/// The consumer of the ring.
type Consumer = ConsumerEnd<OneToOne, InSlots>;

/// Both ends of the ring, after it was closed.
type Ends = LastEnd<OneToOne, InSlots>;

/// Writes the numbers from 1 to `last`, and waits while the ring is full. The producer comes back, so that the ring can
/// be closed.
fn write_numbers<R: Wait>(rt: &R, mut producer: Producer, last: u64) -> Producer
    requires { sent producer ≡ [] }
    ensures ring { AreOfOneRing producer result }
    ensures sent { AreUpTo (pos 1) last (sent result) }
{
    let backoff = Backoff::new();
    let mut written = 0;
    for _ in rt.forever() {
        if written == last {
            return producer;
        }
        let number: u64 = written + 1;
        match producer.try_write(NUMBER, &number.to_le_bytes()) {
            Ok(()) => {
                written = number;
                backoff.reset();
            }
            Err(TryFault::Refused(ClaimFault::InsufficientCapacity { .. })) => backoff.snooze(),
            // The type id is valid, and 8 bytes are at most an eighth of the ring. No other producer can be faster.
            Err(_) => return producer,
        }
    }
    unreachable!()
}

/// Adds up the numbers from 1 to `last`, which come through a ring.
pub fn add_up<R: Threads + Wait + Sync>(
    rt: &R,
    alloc: Global,
    last: u64,
) -> anyhow::Result<Summed<Ends>>
    ensures { IfOk result (λ s. IsSummed last s) }
{
    let (producer, consumer) = open(alloc, 128, 0)?;
    let (producer, (consumer, sum)) = join(
        rt,
        // A closure's clauses say what goes into its thread and what comes out of it.
        move || -> Producer
            requires { sent producer ≡ [] }
            ensures { AreOfOneRing producer result × AreUpTo (pos 1) last (sent result) }
        { write_numbers(rt, producer, last) },
        move || -> (Consumer, Sum)
            requires { received consumer ≡ [] }
            ensures { AreOfOneRing consumer result.0 × (last ≤ length (received result.0))
                × (result.1.sum ≡ sum_of (received result.0)) }
        { read_numbers(rt, consumer, last) },
    );
    let closed = close(producer, consumer)?;
    Ok(Summed {
        sum: sum.sum,
        closed,
    })
}
