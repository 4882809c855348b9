//! The messages that are sent, and what is made of those that come.
ghost use Rattle.std.specs.Prelude.{◌≡◌};
ghost use Rattle.ring_words.specs.declared.read.action.Action.TheVariants.{Continue};

use crate::fault::Fault;
use ring_layout::put_part;
use ring_rings::{Action, Handler, Outgoing};
use std::alloc::Global;
use std::array;

/// The type id of all messages.
pub const TYPE_ID: i32 = 1;

/// The bytes of a word.
const WORD: usize = 8;

/// What a body has after its first word.
const FILL: u64 = 0x0707_0707_0707_0707;

/// The bytes after a body that nothing else has, so that the bodies of two threads share no cache line.
const APART: usize = 128;

/// A body to be sent. Its first word is a number.
#[derive(Drop)]
pub struct Body {
    bytes: Vec<u8>,
}

impl Body {
    /// A body of this many bytes. `NO_CONTENDER` if that is no multiple of 8, or 0.
    pub fn new(alloc: Global, size: usize) -> Result<Body, Fault> {
        if size < WORD || size % WORD != 0 {
            return Err(Fault::NO_CONTENDER);
        }
        let mut bytes = vec![in alloc; 7u8; size.saturating_add(APART)]?;
        bytes.truncate(size);
        Ok(Body { bytes })
    }

    /// The same with zeros in every other word, but for the first and the last.
    pub fn sparse(alloc: Global, size: usize) -> Result<Body, Fault> {
        let mut body = Body::new(alloc, size)?;
        let last = size.saturating_sub(WORD);
        for (k, byte) in body.bytes.as_mut_slice().iter_mut().enumerate() {
            if k < last && (k / WORD) % 2 == 1 {
                *byte = 0;
            }
        }
        Ok(body)
    }

    /// The bytes, with this number in front.
    pub fn numbered(&mut self, number: u64) -> &[u8] {
        put_part(self.bytes.as_mut_slice(), 0, number);
        self.bytes.as_slice()
    }
}

/// The messages of a batch that is written by one call.
pub const BATCH: usize = 16;

/// The bodies of a batch, one after another. The first word of each is a number.
#[derive(Drop)]
pub struct Batch {
    bytes: Vec<u8>,
    /// The bytes of a body.
    size: usize,
}

impl Batch {
    /// Bodies of this many bytes each. `NO_CONTENDER` if that is no multiple of 8, or 0.
    pub fn new(alloc: Global, size: usize) -> Result<Batch, Fault> {
        let Body { bytes } = Body::new(alloc, size.saturating_mul(BATCH))?;
        if size % WORD != 0 {
            return Err(Fault::NO_CONTENDER);
        }
        Ok(Batch { bytes, size })
    }

    /// The messages, with the numbers from this one on.
    pub fn numbered(&mut self, first: u64) -> [Outgoing<'_>; BATCH] {
        let size = self.size.max(WORD);
        let mut number = first;
        for body in self.bytes.as_mut_slice().chunks_mut(size) {
            put_part(body, 0, number);
            number = number.wrapping_add(1);
        }
        let bodies = self.bytes.as_slice();
        array::from_fn(|k| body_at(bodies, k, size))
    }
}

/// The message with this index among bodies of this many bytes each. Its body is empty if there are not that many.
fn body_at(bodies: &[u8], index: usize, size: usize) -> Outgoing<'_> {
    let start = index.wrapping_mul(size);
    let end = start.wrapping_add(size);
    Outgoing {
        type_id: TYPE_ID,
        body: bodies.get(start..end).unwrap_or(&[]),
    }
}

/// The first word of a body, and what its last word has that it should not; `None` if it has no words.
pub fn look(body: &[u8]) -> Option<(u64, u64)> {
    let first = u64::from_le_bytes(*body.first_chunk::<WORD>()?);
    if body.len() == WORD {
        return Some((first, 0));
    }
    let last = u64::from_le_bytes(*body.last_chunk::<WORD>()?);
    Some((first, last ^ FILL))
}

/// Adds up the numbers of the messages that come.
#[derive(Clone, Copy)]
pub struct Sum {
    pub count: u64,
    total: u64,
    stray: u64,
}

impl Sum {
    pub fn new() -> Sum {
        Sum {
            count: 0,
            total: 0,
            stray: 0,
        }
    }

    /// `WRONG_MESSAGE` unless the messages with the numbers below `count` came, each once.
    pub fn check(&self, count: u64) -> Result<(), Fault> {
        let pairs = count.wrapping_mul(count.wrapping_sub(1)) / 2;
        if self.count == count && self.total == pairs && self.stray == 0 {
            Ok(())
        } else {
            Err(Fault::WRONG_MESSAGE)
        }
    }
}

impl Handler for Sum {
    ghost step = { λ _ _ _ action. action ≡ Continue };

    fn on_message(&mut self, _type_id: i32, body: &[u8]) -> Action {
        let (first, stray) = look(body).unwrap_or((0, 1));
        self.count = self.count.wrapping_add(1);
        self.total = self.total.wrapping_add(first);
        self.stray |= stray;
        Action::Continue
    }
}

/// The producers that a tally knows.
pub const PRODUCERS: usize = 64;

/// The bits of a number of a message. The ones above them are its producer.
const NUMBER_BITS: u32 = 48;

/// The first word of a message.
pub fn first_word(producer: u64, number: u64) -> u64 {
    (producer << NUMBER_BITS) | number
}

/// Follows the messages that come from each producer.
#[derive(Clone, Copy)]
pub struct Tally {
    pub count: u64,
    next: [u64; PRODUCERS],
    stray: u64,
}

impl Tally {
    pub fn new() -> Tally {
        Tally {
            count: 0,
            next: [0; PRODUCERS],
            stray: 0,
        }
    }

    /// `WRONG_MESSAGE` if a message came out of turn, or not this many came.
    pub fn check(&self, count: u64) -> Result<(), Fault> {
        if self.count == count && self.stray == 0 {
            Ok(())
        } else {
            Err(Fault::WRONG_MESSAGE)
        }
    }
}

impl Handler for Tally {
    ghost step = { λ _ _ _ action. action ≡ Continue };

    fn on_message(&mut self, _type_id: i32, body: &[u8]) -> Action {
        let (first, stray) = look(body).unwrap_or((u64::MAX, 1));
        self.count = self.count.wrapping_add(1);
        self.stray |= stray;
        let number = first & ((1 << NUMBER_BITS) - 1);
        match self.next.get_mut((first >> NUMBER_BITS) as usize) {
            Some(next) => {
                self.stray |= *next ^ number;
                *next = number.wrapping_add(1);
            }
            None => self.stray = 1,
        }
        Action::Continue
    }
}
