//! Messages laid one after another into a buffer.
ghost use Rattle.std.specs.Prelude.{◌≡◌, ◌≢◌, ◌+◌, ◌^◌, ◌<◌, ◌≤◌, true, false, length};
ghost use Rattle.ring_layout.specs.declared.message.Message.{Message};
ghost use Rattle.ring_handles.specs.Batch.{batch, headed, placed, span_in, LaidNone, Lays, ReadBatch, ReadsBatch, ReceivesBatch, TookBatch, TookSome};
ghost use Rattle.ring_ends.specs.{End.AreOfOneRing, Next.RanOut, Next.ReadsOn};

use crate::code::{DONE, NO_MESSAGE, SHORT_BUFFER};
use crate::consumer::ConsumerSide;
use crate::copying::copy_at;
use crate::ring::on_consumer;
use ring_ends::ConsumerEnd;
use ring_rings::{Action, Handler, InSlots, Kind, ReadEnd, Stop};

/// Lays messages into a buffer, as long as there is room.
#[derive(Drop)]
pub(crate) struct Laying<'a> {
    pub(crate) buffer: &'a mut [u8],
    pub(crate) used: usize,
    pub(crate) is_full: bool,
}

/// The bytes that a message takes.
pub(crate) fn span_in(len: usize) -> usize
    requires { len < 2 ^ 63 }
    ensures { result ≡ span_in len }
{
    16 + len.div_ceil(8) * 8
}

/// Places the length and the type id of a message into a buffer.
pub(crate) fn place_head(buffer: &mut [u8], at: usize, type_id: i32, len: usize)
    requires { at + 16 ≤ length buffer.old }
    ensures { buffer.new ≡ headed at type_id len buffer.old }
{
    copy_at(buffer, at, &(len as u64).to_le_bytes());
    copy_at(buffer, at + 8, &i64::from(type_id).to_le_bytes());
}

/// Places a message into a buffer: its length, its type id and its body.
fn place(buffer: &mut [u8], at: usize, type_id: i32, body: &[u8])
    requires { at + span_in (length body.now) ≤ length buffer.old }
    ensures { buffer.new ≡ placed at (record { type_id = type_id; body = body.now }) buffer.old }
{
    place_head(buffer, at, type_id, body.len());
    copy_at(buffer, at + 16, body);
}

impl Laying<'_> {
    /// Tests whether a message of this many bytes has room.
    fn has_room(&self, len: usize) -> bool
        ensures room { result ≡ true → self.now.used + span_in len ≤ length self.now.buffer.now }
        ensures short { result ≡ false → length self.now.buffer.now < self.now.used + span_in len }
    {
        let room = self.buffer.len();
        if len > room {
            return false;
        }
        match self.used.checked_add(span_in(len)) {
            Some(end) => end <= room,
            None => false,
        }
    }
}

impl Handler for Laying<'_> {
    ghost step = { λ s m t a. Lays s m t a };

    fn on_message(&mut self, type_id: i32, body: &[u8]) -> Action {
        match self.used.checked_add(span_in(body.len())) {
            Some(end) if end <= self.buffer.len() => {
                place(self.buffer, self.used, type_id, body);
                self.used = end;
                Action::Continue
            }
            _ => {
                self.is_full = true;
                Action::Abort
            }
        }
    }

    fn on_header(&mut self, _type_id: i32, len: usize) -> Option<Action> {
        if self.has_room(len) {
            return None;
        }
        self.is_full = true;
        Some(Action::Abort)
    }
}

/// Lays up to `limit` messages, as far as the end of the ring's buffer.
fn lay_some<K: Kind>(
    end: &mut ConsumerEnd<K, InSlots>,
    limit: u32,
    laying: &mut Laying<'_>,
) -> ReadEnd
    requires fresh { (laying.old.used ≡ 0) × (laying.old.is_full ≡ false) }
    ensures same { AreOfOneRing end.old end.new }
    ensures borrow { laying.new.buffer.ghost_name ≡ laying.old.buffer.ghost_name }
    ensures reads { ReadsOn end.old.view end.new.view }
    ensures some { result.messages ≢ 0 → TookSome limit end.old.view end.new.view laying.old.buffer.now
        (batch result.messages laying.new.used laying.new.buffer.now) }
    ensures none { result.messages ≡ 0 → LaidNone limit result.stopped end.old.view end.new.view
        laying.old laying.new }
{
    end.controlled_read(limit, laying)
}

/// Lays up to `limit` messages into a buffer, and reports how many and the bytes that they take, and why it stopped.
fn lay_into<K: Kind>(
    end: &mut ConsumerEnd<K, InSlots>,
    limit: u32,
    count: &mut u32,
    used: &mut usize,
    buffer: &mut [u8],
) -> (i32, Stop)
    ensures same { AreOfOneRing end.old end.new }
    ensures reads { ReadsOn end.old.view end.new.view }
    ensures took { TookBatch (RanOut limit result.1) limit end.old.view end.new.view
        (batch count.old used.old buffer.old) (batch count.new used.new buffer.new) result.0 }
{
    let mut laying = Laying {
        buffer,
        used: 0,
        is_full: false,
    };
    let read = lay_some(end, limit, &mut laying);
    if read.messages == 0 {
        let code = if laying.is_full {
            SHORT_BUFFER
        } else {
            NO_MESSAGE
        };
        return (code, read.stopped);
    }
    *count = read.messages;
    *used = laying.used;
    (DONE, read.stopped)
}

impl ConsumerSide {
    /// Lays up to `limit` messages into a buffer, as far as the end of the ring's buffer.
    fn try_read_batch(
        &mut self,
        limit: u32,
        count: &mut u32,
        used: &mut usize,
        buffer: &mut [u8],
    ) -> (i32, Stop)
        ensures { ReadsBatch (RanOut limit result.1) limit (batch count.old used.old buffer.old)
            (batch count.new used.new buffer.new) self.old self.new result.0 }
    {
        on_consumer!(&mut self.end, end => lay_into(end, limit, count, used, buffer))
    }

    /// Lays up to `limit` messages into a buffer, and reports how many and the bytes that they take.
    pub fn read_batch(
        &mut self,
        limit: u32,
        count: &mut u32,
        used: &mut usize,
        buffer: &mut [u8],
    ) -> i32
        ensures received { ReceivesBatch (batch count.old used.old buffer.old) (batch count.new used.new buffer.new)
            self.old self.new result }
        ensures does { ReadBatch limit (batch count.old used.old buffer.old) (batch count.new used.new buffer.new)
            self.old self.new result }
    {
        let (code, stopped) = self.try_read_batch(limit, count, used, buffer);
        if code == NO_MESSAGE && stopped == Stop::Block {
            return self.try_read_batch(limit, count, used, buffer).0;
        }
        code
    }
}
