//! The consumer, which notes what it is shown.
ghost use Rattle.std.specs.Prelude.{◌≡◌};
ghost use Rattle.ring_rings.specs.Seats.{IsConsumerOf};
ghost use Rattle.ring_words.specs.declared.read.action.Action.TheVariants.{Continue};

use crate::log::{Shown, sum_of};
use crate::random::Random;
use ring_rings::{Action, Bodies, Consumer, Handler, Ring};
use std::alloc::Global;
use std::sync::Wait;
use std::sync::atomic::{AtomicU32, Ordering};
use std::thread::yield_now;

/// The most messages of a read.
const LIMIT: u32 = 4;

/// The bytes of a position.
const WORD: usize = 8;

/// The messages that the consumer was shown.
#[derive(Drop)]
pub struct Reading {
    pub lines: Vec<Shown>,
    /// Lines are missing, since memory ran out.
    pub is_short: bool,
}

impl Reading {
    pub fn new(alloc: Global) -> Reading {
        Reading {
            lines: Vec::new(alloc),
            is_short: false,
        }
    }
}

impl Handler for Reading {
    ghost step = { λ _ _ _ action. action ≡ Continue };

    fn on_message(&mut self, type_id: i32, body: &[u8]) -> Action {
        let line = Shown {
            place: body
                .first_chunk::<WORD>()
                .map(|bytes| u64::from_le_bytes(*bytes)),
            type_id,
            length: body.len(),
            sum: sum_of(body),
        };
        if self.lines.push(line).is_err() {
            self.is_short = true;
        }
        Action::Continue
    }
}

/// Reads until this many producers have ended and no message is left.
pub fn consume<K, B: Bodies, R: Wait>(
    rt: &R,
    ring: &Ring<K, B>,
    consumer: &mut Consumer,
    reading: &mut Reading,
    mut random: Random,
    ended: &AtomicU32,
    producers: u32,
)
    requires { IsConsumerOf ring.now consumer.old }
    ensures { IsConsumerOf ring.now consumer.new }
{
    for _ in rt.forever() {
        let is_last = ended.load(Ordering::SeqCst) >= producers;
        let limit = random.below(LIMIT) + 1;
        if ring.read(consumer, limit, reading).messages > 0 {
            continue;
        }
        // (A read stops at the end of the buffer, although messages may be left after it.)
        if ring.read_across(consumer, limit, reading).messages == 0 && is_last {
            return;
        }
        yield_now();
    }
}
