//! Reads of the ring with one owner.
ghost use Rattle.std.specs.Prelude.{◌≡◌, ◌≢◌, ◌+◌, ◌%◌, ◌<◌, ◌≤◌, ◌&&◌, ◌==◌, nat_lt, List, ◌∷◌, Some};
ghost use Rattle.ring_layout.specs.declared.message.{Claim.Claim, Message.Message};
ghost use Rattle.ring_layout.specs.Headers.{padding_type};
ghost use Rattle.ring_words.specs.{Ring.Has, Ring.IsRing, Ring.head_of, Controlled.heeded, Read.ReadsTo, Read.Controls};
ghost use Rattle.ring_words.specs.{Open.ClaimAt, Open.IsOpen, Across.ReadsAcross};
ghost use Rattle.ring_words.specs.Reading.{Sees, SeesCommitted, IsBlocked, Leaves, MovesHead};

use crate::read::action::Action;
use crate::read::end::{ReadEnd, Stop};
use crate::read::handler::Handler;
use crate::read::head::{Settled, settled_at_head, show_at_head, take_at_head};
use crate::ring::SoloRing;
use ring_layout::byte_index;
use ring_layout::record_descriptor::PADDING_MSG_TYPE_ID;

impl SoloRing {
    /// The settled record or padding at the head, if there is one.
    fn settled(&self, head: u64) -> Option<Settled>
        requires { head ≡ head_of self.now }
        ensures ring { IsRing self.now }
        ensures sees { (h : List Claim) → Has self.now h → Sees self.now h result }
    {
        settled_at_head(&self.words, self.capacity, head)
    }

    /// Shows the message at the head to the handler. Returns its action, or `Continue` if the read does not heed it.
    fn show<H: Handler>(
        &mut self,
        head: u64,
        settled: Settled,
        heeds: bool,
        handler: &mut H,
    ) -> Action
        requires head { head ≡ head_of self.old }
        requires seen { (h : List Claim) → Has self.old h → Sees self.old h (Some settled) }
        requires message { settled.type_id ≢ padding_type }
        requires ready { H.ready handler.old }
        ensures same { self.new ≡ self.old }
        ensures ready { H.ready handler.new }
        ensures shown { (m : Message) × heeded heeds H.step handler.old m handler.new result
            × ((c : Claim) (rest : List Claim) → Has self.old (c ∷ rest) → SeesCommitted self.old c settled
            → c.message ≡ m) }
    {
        show_at_head(
            &self.words,
            self.capacity,
            head,
            &mut self.scratch,
            settled,
            handler,
        )
        .heard(heeds)
    }

    /// Passes the settled record or padding at the head, and returns the new head.
    fn pass(&mut self, head: u64, settled: Settled) -> u64
        requires head { head ≡ head_of self.old }
        requires seen { (h : List Claim) → Has self.old h → Sees self.old h (Some settled) }
        ensures next { result ≡ head_of self.new }
        ensures moves { MovesHead self.old self.new }
        ensures on { head_of self.old < head_of self.new }
        ensures leaves { (h : List Claim) → Has self.old h → Leaves self.old h settled self.new }
    {
        take_at_head(&mut self.words, self.capacity, head, settled)
    }

    /// Tests whether the head went from `start` to the end of the buffer.
    fn is_at_end(&self, start: u64, head: u64) -> bool
        requires { head ≡ head_of self.now }
        ensures { result ≡ (nat_lt start (head_of self.now) && head_of self.now % self.now.capacity == 0) }
    {
        start < head && byte_index(self.capacity, head) == 0
    }

    /// What a read that began at the head `start` did.
    fn read_end(&self, start: u64, head: u64, messages: u32, stopped: Stop) -> ReadEnd
        requires head { head ≡ head_of self.now }
        requires order { start ≤ head_of self.now }
        ensures messages { result.messages ≡ messages }
        ensures bytes { start + result.bytes ≡ head_of self.now }
        ensures stopped { result.stopped ≡ stopped }
    {
        ReadEnd {
            messages,
            bytes: head - start,
            stopped,
        }
    }

    /// Reads at most `limit` messages. It heeds the handler's actions, or takes each as `Continue`.
    #[inline]
    fn run<H: Handler>(&mut self, limit: u32, heeds: bool, handler: &mut H) -> ReadEnd
        requires { H.ready handler.old }
        ensures ready { H.ready handler.new }
        ensures controls { Controls (heeded heeds H.step) limit
            self.old self.new handler.old handler.new result }
        ensures within { result.messages ≤ limit }
        ensures bytes { head_of self.old + result.bytes ≡ head_of self.new }
        ensures blocked { result.stopped ≡ Stop.Unpublished → (h : List Claim) → Has self.new h → IsBlocked self.new h }
        ensures claims { (t : ClaimAt) → IsOpen self.old t → IsOpen self.new t }
    {
        let start = self.positions().head;
        let mut head = start;
        let mut messages = 0;
        'turns: loop {
            if messages == limit {
                return self.read_end(start, head, messages, Stop::Limit);
            }
            if self.is_at_end(start, head) {
                return self.read_end(start, head, messages, Stop::Block);
            }
            let Some(settled) = self.settled(head) else {
                return self.read_end(start, head, messages, Stop::Unpublished);
            };
            if settled.type_id == PADDING_MSG_TYPE_ID {
                head = self.pass(head, settled);
                continue;
            }
            match self.show(head, settled, heeds, handler) {
                Action::Abort => return self.read_end(start, head, messages, Stop::Action),
                Action::Break => {
                    head = self.pass(head, settled);
                    return self.read_end(start, head, messages + 1, Stop::Action);
                }
                Action::Commit | Action::Continue => {
                    head = self.pass(head, settled);
                    messages += 1;
                }
            }
        }
    }

    /// Reads at most `limit` messages, and takes every action of the handler as `Continue`. The handler is shown a copy
    /// of each message.
    ///
    /// Stops with `Limit` after `limit` messages, otherwise with `Block` at the end of the buffer, otherwise with
    /// `Unpublished` if no settled record is at the head. What it passes is set to 0, and then the head moves.
    pub fn read<H: Handler>(&mut self, limit: u32, handler: &mut H) -> ReadEnd
        requires { H.ready handler.old }
        ensures ready { H.ready handler.new }
        ensures reads { ReadsTo H.step limit self.old self.new handler.old handler.new result }
        ensures within { result.messages ≤ limit }
        ensures blocked { result.stopped ≡ Stop.Unpublished → (h : List Claim) → Has self.new h → IsBlocked self.new h }
        ensures claims { (t : ClaimAt) → IsOpen self.old t → IsOpen self.new t }
    {
        self.run(limit, false, handler)
    }

    /// Reads as `read` does, and goes on past the end of the buffer: if the first read stops with `Block`, a second one
    /// follows, and no third. So `Unpublished` says that no settled record is at the head, and `Block` only that the
    /// read went from one end of the buffer to the next.
    pub fn read_across<H: Handler>(&mut self, limit: u32, handler: &mut H) -> ReadEnd
        requires { H.ready handler.old }
        ensures ready { H.ready handler.new }
        ensures reads { ReadsAcross (ReadsTo H.step) limit self.old self.new handler.old handler.new result }
        ensures within { result.messages ≤ limit }
        ensures bytes { head_of self.old + result.bytes ≡ head_of self.new }
        ensures blocked { result.stopped ≡ Stop.Unpublished → (h : List Claim) → Has self.new h → IsBlocked self.new h }
        ensures claims { (t : ClaimAt) → IsOpen self.old t → IsOpen self.new t }
    {
        let start = self.positions().head;
        let first = self.read(limit, handler);
        if first.stopped != Stop::Block {
            return first;
        }
        let second = self.read(limit - first.messages, handler);
        let (head, messages) = (self.positions().head, first.messages + second.messages);
        self.read_end(start, head, messages, second.stopped)
    }

    /// Reads as `read` does, and heeds the handler's actions: `Abort` leaves the message and stops, `Break` takes it
    /// and stops, both with `Action`; `Commit` and `Continue` go on. Padding and aborted records passed before a
    /// message that is left stay passed.
    pub fn controlled_read<H: Handler>(&mut self, limit: u32, handler: &mut H) -> ReadEnd
        requires { H.ready handler.old }
        ensures ready { H.ready handler.new }
        ensures controls { Controls H.step limit self.old self.new handler.old handler.new result }
        ensures within { result.messages ≤ limit }
        ensures bytes { head_of self.old + result.bytes ≡ head_of self.new }
        ensures blocked { result.stopped ≡ Stop.Unpublished → (h : List Claim) → Has self.new h → IsBlocked self.new h }
        ensures claims { (t : ClaimAt) → IsOpen self.old t → IsOpen self.new t }
    {
        self.run(limit, true, handler)
    }
}
