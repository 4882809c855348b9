//! A consumer that reads numbers and adds them up.
ghost use Rattle.std.specs.Prelude.{◌≡◌, ◌≤◌, [], length};
ghost use Rattle.ring_ends.specs.End.{received, AreOfOneRing};
ghost use Rattle.ring_uses.specs.Numbers.{number_of, sum_of, Adds};

use crate::closing::Closed;
use crossbeam_utils::Backoff;
use ring_ends::ConsumerEnd;
use ring_rings::{Action, Handler, InSlots, Kind};
use std::sync::Wait;

/// Adds up the numbers that the handler is shown.
#[derive(Drop)]
pub struct Sum {
    pub sum: u64,
}

/// A sum, and the ring that was closed.
#[derive(Drop)]
pub struct Summed<Ends> {
    pub sum: u64,
    pub closed: Closed<Ends>,
}

/// Returns the number in a body. This is its first eight bytes, or 0 if it has fewer bytes.
pub fn number_of(body: &[u8]) -> u64
    ensures { result ≡ number_of body.now }
{
    match body.first_chunk() {
        Some(bytes) => u64::from_le_bytes(*bytes),
        None => 0,
    }
}

impl Handler for Sum {
    // Each handler says which step it takes from one state to the next.
    ghost step = { Adds };

    fn on_message(&mut self, _type_id: i32, body: &[u8]) -> Action {
        self.sum = self.sum.wrapping_add(number_of(body));
        Action::Continue
    }
}

/// Reads until this many messages have come.
pub fn read_numbers<K: Kind, R: Wait>(
    rt: &R,
    mut consumer: ConsumerEnd<K, InSlots>,
    messages: u64,
) -> (ConsumerEnd<K, InSlots>, Sum)
    requires { received consumer ≡ [] }
    ensures ring { AreOfOneRing consumer result.0 }
    ensures all { messages ≤ length (received result.0) }
    ensures sum { result.1.sum ≡ sum_of (received result.0) }
{
    let backoff = Backoff::new();
    let mut sum = Sum { sum: 0 };
    let mut count: u64 = 0;
    for _ in rt.forever() {
        if count >= messages {
            return (consumer, sum);
        }
        let end = consumer.read(u32::MAX, &mut sum);
        count = count.saturating_add(u64::from(end.messages));
        // If no byte was read, no settled record was at the head. A read that only reaches the end of the buffer moves
        // the head too.
        if end.bytes == 0 {
            backoff.snooze();
        } else {
            backoff.reset();
        }
    }
    unreachable!()
}
