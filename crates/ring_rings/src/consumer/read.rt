//! Reads of a shared ring.

ghost use Rattle.std.specs.Prelude.{◌≡◌, ◌⊎◌, ◌+◌, ◌%◌, ◌<◌, ◌≤◌, ◌&&◌, ◌==◌, nat_lt};
ghost use Rattle.ring_rings.specs.Seats.{IsConsumerOf, capacity_of, consumer_view, head_of, seat_view, IsSameConsumer};
ghost use Rattle.ring_words.specs.{Across.ReadsAcross, Controlled.heeded};
ghost use Rattle.ring_rings.specs.{Reading.Controls, Reading.EndsAt, Reading.ReadsTo, Ring.Leaves, Ring.Receives};
ghost use Rattle.ring_rings.specs.ReadingSteps.{Ended, HasCome, MayMoveTo, SettlesAll};

use crate::bodies::Bodies;
use crate::consumer::turn::Turn;
use crate::ring::{Consumer, Ring};
use ring_layout::byte_index;
use ring_words::{Action, Handler, ReadEnd, Stop};

impl<K, B: Bodies> Ring<K, B> {
    /// Tests whether a read came from `start` to the end of the buffer.
    fn is_block_end(&self, start: u64, scan: u64) -> bool
        ensures { result ≡ (nat_lt start scan && scan % capacity_of self.now == 0) }
    {
        start < scan && byte_index(self.capacity, scan) == 0
    }

    /// Ends a read that began at the head `start` and has come to `scan`. Moves the head past what the read passed.
    #[inline(always)]
    fn finish(
        &self,
        consumer: &mut Consumer,
        start: u64,
        scan: u64,
        messages: u32,
        stopped: Stop,
    ) -> ReadEnd
        requires consumer { IsConsumerOf self.now consumer.old }
        requires start { start ≤ head_of consumer.old }
        requires to { HasCome scan (seat_view consumer.old)
            × MayMoveTo (capacity_of self.now) (head_of consumer.old) scan }
        ensures consumer { IsConsumerOf self.now consumer.new }
        ensures seat { IsSameConsumer consumer.old consumer.new }
        ensures settles { SettlesAll scan (seat_view consumer.old) (seat_view consumer.new) }
        ensures ended { Ended start scan messages stopped result }
    {
        self.move_head(consumer, scan);
        ReadEnd {
            messages,
            bytes: scan - start,
            stopped,
        }
    }

    /// Reads at most `limit` messages. Follows the handler's actions, or takes each of them as `Continue`.
    fn run<H: Handler>(
        &self,
        consumer: &mut Consumer,
        limit: u32,
        heeds: bool,
        handler: &mut H,
    ) -> ReadEnd
        requires consumer { IsConsumerOf self.now consumer.old }
        requires ready { H.ready handler.old }
        ensures consumer { IsConsumerOf self.now consumer.new }
        ensures ready { H.ready handler.new }
        ensures seat { IsSameConsumer consumer.old consumer.new }
        ensures controls { Controls (heeded heeds H.step) limit
            (consumer_view consumer.old) (consumer_view consumer.new) handler.old handler.new result }
        ensures ends { EndsAt limit (consumer_view consumer.old) (consumer_view consumer.new) result }
    {
        let start = consumer.head;
        let mut scan = start;
        let mut messages = 0;
        'turns: loop {
            if messages == limit {
                return self.finish(consumer, start, scan, messages, Stop::Limit);
            }
            if self.is_block_end(start, scan) {
                return self.finish(consumer, start, scan, messages, Stop::Block);
            }
            match self.turn(consumer, scan, heeds, handler) {
                Turn::Blocked => {
                    return self.finish(consumer, start, scan, messages, Stop::Unpublished);
                }
                Turn::Passed(span) => scan += span,
                Turn::Shown(span, action) => match action {
                    Action::Abort => {
                        self.move_head_before(consumer, scan);
                        return self.finish(consumer, start, scan, messages, Stop::Action);
                    }
                    Action::Break => {
                        scan += span;
                        messages += 1;
                        return self.finish(consumer, start, scan, messages, Stop::Action);
                    }
                    Action::Commit => {
                        scan += span;
                        messages += 1;
                        self.move_head(consumer, scan);
                    }
                    Action::Continue => {
                        scan += span;
                        messages += 1;
                    }
                },
            }
        }
    }

    /// Reads at most `limit` messages, and takes every action of the handler as `Continue`. The handler is shown a copy
    /// of each message, unless it decides on the message by its header. No memory is taken.
    ///
    /// Stops with `Limit` after `limit` messages. Otherwise stops with `Block` at the end of the buffer, or with
    /// `Unpublished` if no settled record was at the head. The read then moves the head past what it passed. If bodies
    /// are in words, it first sets these words to 0.
    #[inline(always)]
    pub fn read<H: Handler>(&self, consumer: &mut Consumer, limit: u32, handler: &mut H) -> ReadEnd
        requires consumer { IsConsumerOf self.now consumer.old }
        requires ready { H.ready handler.old }
        ensures consumer { IsConsumerOf self.now consumer.new }
        ensures ready { H.ready handler.new }
        ensures received { Receives H.step consumer.old consumer.new handler.old handler.new result.messages }
        ensures seat { IsSameConsumer consumer.old consumer.new }
        ensures reads { ReadsTo H.step limit (consumer_view consumer.old) (consumer_view consumer.new)
            handler.old handler.new result }
        ensures ends { EndsAt limit (consumer_view consumer.old) (consumer_view consumer.new) result }
    {
        self.run(consumer, limit, false, handler)
    }

    /// Reads as `read` does, and goes on past the end of the buffer. If the first read stops with `Block`, a second
    /// read follows, and no third one. So `Unpublished` means that no settled record was at the head. `Block` means
    /// only that the read went from one end of the buffer to the next.
    pub fn read_across<H: Handler>(
        &self,
        consumer: &mut Consumer,
        limit: u32,
        handler: &mut H,
    ) -> ReadEnd
        requires consumer { IsConsumerOf self.now consumer.old }
        requires ready { H.ready handler.old }
        ensures consumer { IsConsumerOf self.now consumer.new }
        ensures ready { H.ready handler.new }
        ensures received { Receives H.step consumer.old consumer.new handler.old handler.new result.messages }
        ensures seat { IsSameConsumer consumer.old consumer.new }
        ensures reads { ReadsAcross (ReadsTo H.step) limit (consumer_view consumer.old) (consumer_view consumer.new)
            handler.old handler.new result }
        ensures ends { EndsAt limit (consumer_view consumer.old) (consumer_view consumer.new) result }
    {
        let first = self.read(consumer, limit, handler);
        if first.stopped != Stop::Block {
            return first;
        }
        let second = self.read(consumer, limit - first.messages, handler);
        ReadEnd {
            messages: first.messages + second.messages,
            bytes: first.bytes + second.bytes,
            stopped: second.stopped,
        }
    }

    /// Reads as `read` does, and follows the handler's actions:
    /// - `Abort` leaves the message, and stops with `Action`.
    /// - `Break` takes the message, and stops with `Action`.
    /// - `Commit` takes the message, moves the head past it, and goes on.
    /// - `Continue` goes on.
    ///
    /// If a message is left, the padding and the aborted records before it stay passed.
    #[inline(always)]
    pub fn controlled_read<H: Handler>(
        &self,
        consumer: &mut Consumer,
        limit: u32,
        handler: &mut H,
    ) -> ReadEnd
        requires consumer { IsConsumerOf self.now consumer.old }
        requires ready { H.ready handler.old }
        ensures consumer { IsConsumerOf self.now consumer.new }
        ensures ready { H.ready handler.new }
        ensures received { Receives H.step consumer.old consumer.new handler.old handler.new result.messages
            ⊎ Leaves H.step consumer.old consumer.new handler.old handler.new result.messages }
        ensures seat { IsSameConsumer consumer.old consumer.new }
        ensures controls { Controls H.step limit (consumer_view consumer.old) (consumer_view consumer.new)
            handler.old handler.new result }
        ensures ends { EndsAt limit (consumer_view consumer.old) (consumer_view consumer.new) result }
    {
        self.run(consumer, limit, true, handler)
    }
}
