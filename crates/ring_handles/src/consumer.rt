//! A consumer in a handle.
ghost use Rattle.std.specs.Prelude.{◌≡◌, List, ℕ};
ghost use Rattle.ring_handles.specs.Consuming.{next_code, next_out, out, taken_code, Beat, PeekOne, ReadOne};
ghost use Rattle.ring_handles.specs.Consuming.{ReceivesNone, ReceivesOne, ReceivesOut, TakeOne};

use crate::code::{DONE, NO_MESSAGE, SHORT_BUFFER};
use crate::identity::Identity;
use crate::ring::{AnyConsumer, on_consumer};
use ring_ends::NextMessage;
use ring_rings::Producer;
use std::marker::Model;

/// A consumer, with the ring that it reads.
#[derive(Drop)]
pub struct ConsumerSide {
    pub(crate) end: AnyConsumer,
    /// The ring's.
    pub(crate) identity: Identity,
    /// The ring's producer, once it was taken in.
    pub(crate) last: Option<Producer>,
}

impl Model for ConsumerSide {
    ghost use Rattle.std.specs.Option.{option_map};
    ghost use Rattle.ring_rings.specs.Seats.{view_of};
    ghost use Rattle.ring_handles.specs.Side.{consumer_in, IsLastOf, IsReaderOfKind, Reading};

    ghost Value = { Reading };

    ghost view = { λ a. record {
      end = consumer_in a.end;
      identity = a.identity;
      last =
          option_map view_of a.last;
    } };

    ghost invariant = { λ a. IsReaderOfKind a.end × IsLastOf (consumer_in a.end) a.last };
}

/// Puts out the type id and the length of the message that was found, and returns the code.
fn tell(found: NextMessage, type_id: &mut i32, len: &mut usize) -> i32
    ensures code { result ≡ next_code found }
    ensures outs { (before after : List ℕ)
        → out type_id.new len.new after ≡ next_out found (out type_id.old len.old before) after }
{
    let (code, it, bytes) = match found {
        NextMessage::Copied { type_id, len } => (DONE, type_id, len),
        NextMessage::TooLong { type_id, len } => (SHORT_BUFFER, type_id, len),
        NextMessage::Nothing => return NO_MESSAGE,
    };
    *type_id = it;
    *len = bytes;
    code
}

/// The code of a take.
fn code_of(took: bool) -> i32
    ensures { result ≡ taken_code took }
{
    if took { DONE } else { NO_MESSAGE }
}

impl ConsumerSide {
    /// The bytes of the ring's buffer.
    pub(crate) fn capacity(&self) -> u32
        ensures { result ≡ self.now.end.capacity }
    {
        on_consumer!(&self.end, end => end.capacity())
    }

    /// Reads the next message into a buffer, and reports its type id and length.
    #[inline(always)]
    pub fn read(&mut self, type_id: &mut i32, len: &mut usize, buffer: &mut [u8]) -> i32
        ensures received { ReceivesOut (out type_id.new len.new buffer.new) self.old self.new result }
        ensures does { ReadOne (out type_id.old len.old buffer.old) (out type_id.new len.new buffer.new)
            self.old self.new result }
    {
        let found = on_consumer!(&mut self.end, end => end.read_into(buffer));
        tell(found, type_id, len)
    }

    /// Copies the next message into a buffer, and reports its type id and length. It stays in the ring.
    pub fn peek(&mut self, type_id: &mut i32, len: &mut usize, buffer: &mut [u8]) -> i32
        ensures received { ReceivesNone self.old self.new }
        ensures does { PeekOne (out type_id.old len.old buffer.old) (out type_id.new len.new buffer.new)
            self.old self.new result }
    {
        let found = on_consumer!(&mut self.end, end => end.peek_into(buffer));
        tell(found, type_id, len)
    }

    /// Takes the next message, and copies nothing.
    pub fn take(&mut self) -> i32
        ensures received { ReceivesOne self.old self.new result }
        ensures does { TakeOne self.old self.new result }
    {
        code_of(on_consumer!(&mut self.end, end => end.take_next()))
    }

    /// Stores the heartbeat.
    pub fn set_heartbeat(&mut self, value: u64) -> i32
        ensures received { ReceivesNone self.old self.new }
        ensures does { Beat value self.old self.new result }
    {
        on_consumer!(&mut self.end, end => end.set_heartbeat(value));
        DONE
    }
}
