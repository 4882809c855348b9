//! The place of a receiver.

ghost use Rattle.std.specs.Prelude.{◌≡◌, ◌↔◌, ◌≤◌, IsTrue, MatchBool, Some, length, slice_get};
ghost use Rattle.ring_judge.specs.Broadcast.{AnswersEvent, anywhere};
ghost use Rattle.ring_judge.specs.declared.broadcast.ReceiverEvent.TheVariants.{Copied, Empty, Lapped};

use crate::broadcast::{MessageCopy, ReceiverEvent};

/// What the lines so far say of a receiver.
#[derive(Clone, Copy)]
pub struct Place {
    /// Its next message.
    pub next: usize,
    /// Whether its next message can also be a later one.
    pub is_open: bool,
    /// How often it was lapped.
    pub laps: u64,
}

impl Place {
    /// The place of a receiver of which nothing was read yet.
    pub fn anywhere() -> Self
        ensures { result ≡ anywhere }
    {
        Place {
            next: 0,
            is_open: true,
            laps: 0,
        }
    }

    /// Whether the event can come next, of a receiver to which these messages are transmitted; the receiver then moves
    /// on.
    pub fn answer(&mut self, bodies: &[u64], event: &ReceiverEvent) -> bool
        requires { self.old.next ≤ length bodies.now }
        ensures within { self.new.next ≤ length bodies.now }
        ensures answer { AnswersEvent bodies.now self.old event.now self.new result }
    {
        match event {
            ReceiverEvent::Copied(copy) => self.take(bodies, copy),
            ReceiverEvent::Lapped(count) => self.lap(bodies, *count),
            ReceiverEvent::Empty => self.end(bodies),
        }
    }

    /// Whether the receiver can be given this copy. Its next message is then the one after that.
    fn take(&mut self, bodies: &[u64], copy: &MessageCopy) -> bool
        requires { self.old.next ≤ length bodies.now }
        ensures within { self.new.next ≤ length bodies.now }
        ensures answer { AnswersEvent bodies.now self.old (Copied copy.now) self.new result }
    {
        let number = copy.number as usize;
        if !self.can_be_at(number) {
            return false;
        }
        if !is_body_of(bodies, number, copy.body) {
            return false;
        }
        self.next = number + 1;
        self.is_open = false;
        true
    }

    /// Whether the receiver's lapped count can be this now. It then missed at least as many messages as its count rose
    /// by.
    fn lap(&mut self, bodies: &[u64], count: u64) -> bool
        requires { self.old.next ≤ length bodies.now }
        ensures within { self.new.next ≤ length bodies.now }
        ensures answer { AnswersEvent bodies.now self.old (Lapped count) self.new result }
    {
        if count <= self.laps {
            return false;
        }
        let missed = count - self.laps;
        let left = bodies.len() - self.next;
        if missed > left as u64 {
            return false;
        }
        self.next += missed as usize;
        self.is_open = true;
        self.laps = count;
        true
    }

    /// Whether the receiver can have received all messages.
    fn end(&mut self, bodies: &[u64]) -> bool
        requires { self.old.next ≤ length bodies.now }
        ensures within { self.new.next ≤ length bodies.now }
        ensures answer { AnswersEvent bodies.now self.old Empty self.new result }
    {
        if !self.can_be_at(bodies.len()) {
            return false;
        }
        self.next = bodies.len();
        true
    }

    /// Whether this message can be the receiver's next one.
    fn can_be_at(&self, number: usize) -> bool
        ensures { IsTrue result ↔ MatchBool self.now.is_open (self.now.next ≤ number) (self.now.next ≡ number) }
    {
        if self.is_open {
            self.next <= number
        } else {
            self.next == number
        }
    }
}

/// Whether the message with this number was transmitted with this checksum.
fn is_body_of(bodies: &[u64], number: usize, body: u64) -> bool
    ensures { IsTrue result ↔ (slice_get bodies.now number ≡ Some body) }
{
    match bodies.get(number) {
        Some(found) => *found == body,
        None => false,
    }
}
