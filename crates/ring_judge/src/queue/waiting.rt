//! The messages that the consumer of a queue was not shown yet.

ghost use Rattle.std.specs.Prelude.{◌≡◌, ◌+◌, ◌<◌, ℕ, List, IfOk, IsTrue, ◌↔◌, length, Some, slice_get, vec_len, All};
ghost use Rattle.ring_judge.specs.{Queue.AnswersLine, Queue.AreWaiting, Queue.IsBelow, Queue.sent_in, Lists.lists_of};
ghost use Rattle.ring_judge.specs.declared.{message.Message.Message, queue.QueueLine.TheVariants.Got};

use crate::message::Message;
use crate::queue::QueueLine;
use crate::queue::sent::{sent_count, sent_lists};
use std::alloc::{AllocError, Global};

/// The messages that each producer sent, and how many of them the consumer was shown.
#[derive(Drop)]
pub struct Waiting {
    pub sent: Vec<Vec<Message>>,
    pub taken: Vec<usize>,
    pub left: usize,
}

impl Waiting {
    /// All messages of a run whose producers have numbers below `count`.
    pub fn new(alloc: Global, run: &[QueueLine], count: usize) -> Result<Self, AllocError>
        requires { All (λ line. IsBelow count line) run.now }
        ensures length { IfOk result (λ q. vec_len q.taken ≡ count) }
        ensures waiting { IfOk result (λ q. AreWaiting (lists_of q.sent.items) q.taken.items q.left (sent_in run.now)) }
    {
        let sent = sent_lists(alloc, run, count)?;
        let taken = vec![in alloc; 0usize; count]?;
        Ok(Waiting {
            sent,
            taken,
            left: sent_count(run),
        })
    }

    /// Whether the line can come next; a message is then taken.
    pub fn answer(&mut self, line: &QueueLine) -> bool
        requires below { IsBelow (vec_len self.old.taken) line.now }
        requires waiting { (w : List Message) × AreWaiting (lists_of self.old.sent.items) self.old.taken.items self.old.left w }
        ensures sent { self.new.sent ≡ self.old.sent }
        ensures length { vec_len self.new.taken ≡ vec_len self.old.taken }
        ensures answer { AnswersLine (lists_of self.old.sent.items) self.old.taken.items self.old.left self.new.taken.items
            self.new.left line.now result }
    {
        match line {
            QueueLine::Got(message) => self.take(message),
            QueueLine::Empty => self.left == 0,
            QueueLine::Sent(_) | QueueLine::Refused(_) | QueueLine::Blank => true,
        }
    }

    /// Whether the message is the first that its producer sent and that was not taken yet; it is then taken.
    fn take(&mut self, message: &Message) -> bool
        requires below { message.now.producer < vec_len self.old.taken }
        requires waiting { (w : List Message) × AreWaiting (lists_of self.old.sent.items) self.old.taken.items self.old.left w }
        ensures sent { self.new.sent ≡ self.old.sent }
        ensures length { vec_len self.new.taken ≡ vec_len self.old.taken }
        ensures answer { AnswersLine (lists_of self.old.sent.items) self.old.taken.items self.old.left self.new.taken.items
            self.new.left (Got message.now) result }
    {
        let p = message.producer as usize;
        if !is_next(&self.sent[p], self.taken[p], message) {
            return false;
        }
        self.taken[p] += 1;
        self.left -= 1;
        true
    }
}

/// Whether the message comes after the first `taken` of these.
fn is_next(sent: &[Message], taken: usize, message: &Message) -> bool
    ensures { IsTrue result ↔ (slice_get sent.now taken ≡ Some message.now) }
{
    match sent.get(taken) {
        Some(next) => *next == *message,
        None => false,
    }
}
