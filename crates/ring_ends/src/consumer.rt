//! A consumer with its ring.
ghost use Rattle.std.specs.Prelude.{◌≡◌, ◌⊎◌, IfErr, IfOk};
ghost use Rattle.ring_words.specs.Across.{ReadsAcross};
ghost use Rattle.ring_table.specs.Views.{with_beat};
ghost use Rattle.ring_rings.specs.{Reading.Controls, Reading.EndsAt, Reading.ReadsTo, Ring.LeavesIn, Ring.ReceivesIn};
ghost use Rattle.ring_rings.specs.Seats.{capacity_of, consumer_view, start_of, IsConsumerOf};
ghost use Rattle.ring_ends.specs.End.{received, Does};

use ring_rings::{Bodies, Consumer, Handler, Kind, ReadEnd, Ring};
use std::marker::Model;
use std::sync::Arc;

/// A consumer, with the ring that it reads.
#[derive(Drop)]
pub struct ConsumerEnd<K: Kind, B: Bodies> {
    pub(crate) ring: Arc<Ring<K, B>>,
    pub(crate) consumer: Consumer,
}

impl<K: Kind, B: Bodies> Model for ConsumerEnd<K, B> {
    ghost use Rattle.std.specs.Arc.{arc_value};
    ghost use Rattle.ring_rings.specs.Seats.{capacity_of, consumer_view, start_of, IsConsumerOf};
    ghost use Rattle.ring_ends.specs.End.{End};

    ghost Value = { End };

    ghost view = { λ e. record {
      many = K.many;
      table = (arc_value e.ring).table.shared.table_id;
      capacity = capacity_of (arc_value e.ring);
      start = start_of (arc_value e.ring);
      view = consumer_view e.consumer;
    } };

    ghost invariant = { λ e. IsConsumerOf (arc_value e.ring) e.consumer };
}

impl<K: Kind, B: Bodies> ConsumerEnd<K, B> {
    /// Reads at most `limit` messages, and takes every action of the handler as `Continue`.
    #[inline(always)]
    pub fn read<H: Handler>(&mut self, limit: u32, handler: &mut H) -> ReadEnd
        requires { H.ready handler.old }
        ensures ready { H.ready handler.new }
        ensures received { ReceivesIn H.step self.old.view self.new.view handler.old handler.new result.messages }
        ensures does { Does (λ v r w. ReadsTo H.step limit v w handler.old handler.new r) self.old result self.new }
        ensures ends { EndsAt limit self.old.view self.new.view result }
    {
        self.ring.read(&mut self.consumer, limit, handler)
    }

    /// Reads as `read` does, and goes on past the end of the buffer, once.
    #[inline(always)]
    pub fn read_across<H: Handler>(&mut self, limit: u32, handler: &mut H) -> ReadEnd
        requires { H.ready handler.old }
        ensures ready { H.ready handler.new }
        ensures received { ReceivesIn H.step self.old.view self.new.view handler.old handler.new result.messages }
        ensures does { Does (λ v r w. ReadsAcross (ReadsTo H.step) limit v w handler.old handler.new r)
            self.old result self.new }
        ensures ends { EndsAt limit self.old.view self.new.view result }
    {
        self.ring.read_across(&mut self.consumer, limit, handler)
    }

    /// Reads as `read` does, and heeds the handler's actions.
    #[inline(always)]
    pub fn controlled_read<H: Handler>(&mut self, limit: u32, handler: &mut H) -> ReadEnd
        requires { H.ready handler.old }
        ensures ready { H.ready handler.new }
        ensures received { ReceivesIn H.step self.old.view self.new.view handler.old handler.new result.messages
            ⊎ LeavesIn H.step self.old.view self.new.view handler.old handler.new result.messages }
        ensures does { Does (λ v r w. Controls H.step limit v w handler.old handler.new r) self.old result self.new }
        ensures ends { EndsAt limit self.old.view self.new.view result }
    {
        self.ring
            .controlled_read(&mut self.consumer, limit, handler)
    }

    /// Stores the heartbeat.
    pub fn set_heartbeat(&mut self, value: u64)
        ensures received { received self.new ≡ received self.old }
        ensures does { Does (λ v r w. w ≡ with_beat value v) self.old result self.new }
    {
        self.ring.set_heartbeat(&mut self.consumer, value);
    }
    /// Returns the bytes of the ring's buffer.
    pub fn capacity(&self) -> u32
        ensures { result ≡ self.now.capacity }
    {
        self.ring.capacity()
    }

    /// Returns the ring and the consumer without each other. If another end has the ring, this end comes back.
    pub fn into_ring(self) -> Result<(Ring<K, B>, Consumer), Self>
        ensures consumer { IfOk result (λ parts. IsConsumerOf parts.0 parts.1 × (consumer_view parts.1 ≡ self.view)) }
        ensures ring { IfOk result (λ parts. (parts.0.table.shared.table_id ≡ self.table)
            × (capacity_of parts.0 ≡ self.capacity) × (start_of parts.0 ≡ self.start)) }
        ensures in_use { IfErr result (λ end. end ≡ self) }
    {
        let ConsumerEnd { ring, consumer } = self;
        match Arc::try_unwrap(ring) {
            Ok(ring) => Ok((ring, consumer)),
            Err(ring) => Err(ConsumerEnd { ring, consumer }),
        }
    }
}
