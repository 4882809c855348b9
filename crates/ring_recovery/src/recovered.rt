//! What was recovered.
ghost use Rattle.std.specs.Prelude.{◌≡◌, ◌+◌, ◌/◌, ◌%◌, ◌^◌, ◌≤◌, length};
ghost use Rattle.ring_layout.specs.{Places.IsCapacity, Layout.ring_words};

use crate::body::Body;
use crate::header::is_length;
use crate::mark::{Walk, found_at};
use crate::message::RecoveredMessage;
use ring_layout::record_descriptor::HEADER_LENGTH;
use ring_layout::{byte_index, unpack_header};

/// The committed messages that a ring left, in order. As an iterator it returns the messages, and allocates no memory.
#[derive(Debug, Drop)]
pub struct Recovered<'a> {
    pub(crate) words: &'a [u64],
    pub(crate) slots: &'a [u64],
    pub(crate) capacity: u32,
    pub(crate) at: u64,
    pub(crate) walk: Walk,
    pub(crate) tail: u64,
    pub(crate) open_claims: u64,
    ghost lawful: { IsCapacity capacity },
    ghost whole: { length words.now ≡ ring_words capacity },
    ghost bodies: { length slots.now ≡ capacity / 8 },
    ghost aligned: { (at % 8 ≡ 0) × (tail % 8 ≡ 0) },
}

impl<'a> Recovered<'a> {
    ghost use Rattle.std.specs.Prelude.{◌≡◌, ◌<◌, if◌then◌else◌, length, Some, None};
    ghost use Rattle.ring_layout.specs.Layout.{ring_words};
    ghost use Rattle.ring_recovery.specs.{Headers.is_committed, Headers.message_at, Recovered.messages_left};

    /// Returns the number of bytes of the ring's buffer.
    pub fn capacity(&self) -> u32
        ensures { result ≡ self.now.capacity }
    {
        self.capacity
    }

    /// Returns the position up to which room was claimed.
    pub fn tail(&self) -> u64
        ensures { result ≡ self.now.tail }
    {
        self.tail
    }

    /// Returns the number of claims that were open. Such a claim counts as aborted, and has no message here.
    pub fn open_claims(&self) -> u64
        ensures { result ≡ self.now.open_claims }
    {
        self.open_claims
    }

    /// Returns another iterator over the messages that are still to come. This iterator stays as it is.
    pub fn again(&self) -> Recovered<'a>
        ensures messages { messages_left result ≡ messages_left self.now }
        ensures capacity { result.capacity ≡ self.now.capacity }
        ensures tail { result.tail ≡ self.now.tail }
        ensures open_claims { result.open_claims ≡ self.now.open_claims }
    {
        Recovered {
            words: self.words,
            slots: self.slots,
            capacity: self.capacity,
            at: self.at,
            walk: self.walk,
            tail: self.tail,
            open_claims: self.open_claims,
        }
    }

    /// Returns the message at a position, or `None` if this is not the header of a committed message.
    fn message_at(&self, at: u64, header: u64) -> Option<RecoveredMessage<'a>>
        requires { at < self.now.tail }
        ensures { result ≡ (if is_committed self.now.capacity self.now.tail at header
            then Some (message_at self.now.capacity self.now.slots.now at header) else None) }
    {
        let (len, type_id) = unpack_header(header);
        let length = len.unsigned_abs();
        if len <= 0 || type_id <= 0 || !is_length(self.capacity, self.tail, at, length) {
            return None;
        }
        let from = byte_index(self.capacity, at) as usize + HEADER_LENGTH;
        Some(RecoveredMessage {
            place: at,
            type_id,
            body: Body::new(self.slots, from, length as usize - HEADER_LENGTH),
        })
    }
}

impl<'a> Iterator for Recovered<'a> {
    ghost use Rattle.std.specs.Iterator.{YieldsFirst, item_count};
    ghost use Rattle.ring_recovery.specs.Recovered.{messages_left};

    type Item = RecoveredMessage<'a>;

    ghost next_gives = { YieldsFirst messages_left };

    ghost remaining = { item_count messages_left };

    fn next(&mut self) -> Option<RecoveredMessage<'a>> {
        while self.at < self.tail {
            let at = self.at;
            let found = found_at(self.words, self.slots, self.capacity, self.walk, at);
            self.at += 8;
            self.walk = found.walk;
            if let Some(message) = self.message_at(at, found.header) {
                return Some(message);
            }
        }
        None
    }
}
