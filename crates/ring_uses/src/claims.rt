//! A claim that is aborted, and one that is committed.
ghost use Rattle.std.specs.Prelude.{◌≡◌, pos, length, IfOk};
ghost use Rattle.ring_rings.specs.Ring.{message};
ghost use Rattle.ring_ends.specs.End.{sent, AreOfOneRing, HasMessage, IsOpenIn};
ghost use Rattle.ring_uses.specs.Claims.{IsOnly};

use crate::closing::close;
use crate::numbers::{Sum, Summed};
use ring_ends::{LastEnd, ProducerEnd, open};
use ring_rings::{Claim, InSlots, OneToOne, TryFault};
use std::alloc::Global;

/// The type id of the messages.
const NUMBER: i32 = 1;

/// The only producer of a plain ring.
type Producer = ProducerEnd<OneToOne, InSlots>;

/// Both ends of the ring, after it was closed.
type Ends = LastEnd<OneToOne, InSlots>;

/// Claims room for these bytes, and puts the bytes there.
fn claim_filled(producer: &mut Producer, body: &[u8]) -> Result<Claim, TryFault>
    ensures ring { AreOfOneRing producer.old producer.new }
    ensures sent { sent producer.new ≡ sent producer.old }
    ensures claim { IfOk result (IsOpenIn producer.new) }
    ensures message { IfOk result (λ t. HasMessage producer.new t.place (message (pos 1) body.now)) }
{
    let mut claim = producer.try_claim(NUMBER, body.len())?;
    match producer.put(&mut claim, 0, body) {
        Ok(()) => Ok(claim),
        Err(_) => unreachable!(),
    }
}

/// Claims room for two numbers. Aborts the first claim, commits the second one, and reads the messages that came.
pub fn abort_first(alloc: Global, first: u64, second: u64) -> anyhow::Result<Summed<Ends>>
    ensures { IfOk result (IsOnly second) }
{
    let (mut producer, mut consumer) = open(alloc, 128, 0)?;
    let claim = claim_filled(&mut producer, &first.to_le_bytes())?;
    producer.abort(claim);
    let claim = claim_filled(&mut producer, &second.to_le_bytes())?;
    producer.commit(claim);
    let mut sum = Sum { sum: 0 };
    consumer.read(u32::MAX, &mut sum);
    let closed = close(producer, consumer)?;
    Ok(Summed {
        sum: sum.sum,
        closed,
    })
}
