//! The traits that a conductor needs of a ring of any kind.
ghost use Rattle.std.specs.Prelude.{◌≡◌, ◌⊎◌, ℕ, IfOk};
ghost use Rattle.ring_table.specs.{Staged.Bodies as TheBodies, Views.with_beat, Views.with_consumer_of};
ghost use Rattle.ring_rings.specs.declared.ring.{Consumer.Consumer as TheConsumer, Producer.Producer as TheProducer};
ghost use Rattle.ring_rings.specs.Closing.{close_refusal_of, kept_open, HandsOut, IsRefusedAs, Serves};
ghost use Rattle.ring_rings.specs.{Reading.Controls, Reading.EndsAt, Rescuing.IsRescued};
ghost use Rattle.ring_rings.specs.Ring.{received, sent, IsWhole, Leaves, Receives};
ghost use Rattle.ring_rings.specs.Seats.{capacity_of, consumer_view, open_claims_of, seat_view, shares_of};
ghost use Rattle.ring_rings.specs.Seats.{start_of, view_of, IsConsumerOf, IsProducerOf, IsSameConsumer};

use crate::bodies::Bodies;
use crate::rescue::Rescued;
use crate::ring::{CloseRefused, Consumer, Producer, Ring};
use ring_words::{Handler, ReadEnd, SoloRing, Stop};

/// A ring from which commands are read, with one producer or with many.
pub trait CommandSource: Sized {
    /// Returns the number of bytes of the ring's buffer.
    ghost bytes: { Self → ℕ };

    /// Returns the position of the ring's first claim.
    ghost start: { Self → ℕ };

    /// States that a producer is one of this ring.
    ghost is_producer: { Self → TheProducer → Type 0 };

    /// States that a consumer is the one of this ring.
    ghost is_consumer: { Self → TheConsumer → Type 0 };

    /// Reads at most `limit` messages, and follows the handler's actions, as `Ring::controlled_read` does.
    fn controlled_read<H: Handler>(
        &self,
        consumer: &mut Consumer,
        limit: u32,
        handler: &mut H,
    ) -> ReadEnd
        requires consumer { is_consumer self.now consumer.old }
        requires ready { H.ready handler.old }
        ensures consumer { is_consumer self.now consumer.new }
        ensures ready { H.ready handler.new }
        ensures received { Receives H.step consumer.old consumer.new handler.old handler.new result.messages
            ⊎ Leaves H.step consumer.old consumer.new handler.old handler.new result.messages }
        ensures seat { IsSameConsumer consumer.old consumer.new }
        ensures controls { Controls H.step limit (consumer_view consumer.old) (consumer_view consumer.new)
            handler.old handler.new result }
        ensures ends { EndsAt limit (consumer_view consumer.old) (consumer_view consumer.new) result };

    /// Takes the ring apart, as `Ring::close` does.
    fn close(self, producer: Producer, consumer: Consumer) -> Result<SoloRing, CloseRefused<Self>>
        requires producer { is_producer self producer }
        requires consumer { is_consumer self consumer }
        ensures refused { IsRefusedAs (kept_open self producer consumer)
            (close_refusal_of (open_claims_of producer) (shares_of producer)) result }
        ensures whole { IfOk result (IsWhole (sent producer) (received consumer)) }
        ensures rest { IfOk result (HandsOut (bytes self) (start self) (view_of producer) (consumer_view consumer)) }
        ensures service { IfOk result (Serves (bytes self) (view_of producer) (consumer_view consumer)) };
}

/// A ring from which commands are read, and whose consumer stores a heartbeat.
pub trait Heartbeat: CommandSource {
    /// Stores the consumer's heartbeat, as `Ring::set_heartbeat` does.
    fn set_heartbeat(&self, consumer: &mut Consumer, value: u64)
        requires consumer { Self.is_consumer self.now consumer.old }
        ensures consumer { Self.is_consumer self.now consumer.new }
        ensures received { received consumer.new ≡ received consumer.old }
        ensures seat { IsSameConsumer consumer.old consumer.new }
        ensures view { consumer_view consumer.new ≡ with_beat value (consumer_view consumer.old) };
}

impl<K, B: Bodies> CommandSource for Ring<K, B> {
    ghost bytes = { capacity_of };

    ghost start = { start_of };

    ghost is_producer = { IsProducerOf };

    ghost is_consumer = { IsConsumerOf };

    fn controlled_read<H: Handler>(
        &self,
        consumer: &mut Consumer,
        limit: u32,
        handler: &mut H,
    ) -> ReadEnd {
        Ring::controlled_read(self, consumer, limit, handler)
    }

    fn close(self, producer: Producer, consumer: Consumer) -> Result<SoloRing, CloseRefused<Self>> {
        Ring::close(self, producer, consumer)
    }
}

/// A ring from which commands are read, and which can be taken apart although producers are lost.
pub trait Rescue: CommandSource {
    /// The kind of memory in which the bodies of messages are.
    ghost bodies: { TheBodies };

    /// Takes the ring apart with its consumer alone, as `Ring::rescue` does.
    fn rescue(self, consumer: Consumer) -> Rescued
        requires consumer { Self.is_consumer self consumer }
        ensures rescued { IsRescued bodies (Self.bytes self) (Self.start self) (seat_view consumer) result };

    /// Takes the ring apart with its consumer and a producer that is left, as `Ring::rescue_with` does.
    fn rescue_with(self, producer: Producer, consumer: Consumer) -> Rescued
        requires producer { Self.is_producer self producer }
        requires consumer { Self.is_consumer self consumer }
        ensures rescued { IsRescued bodies (Self.bytes self) (Self.start self)
            (with_consumer_of (view_of producer) (seat_view consumer)) result };
}

impl<K, B: Bodies> Rescue for Ring<K, B> {
    ghost bodies = { B.bodies };

    fn rescue(self, consumer: Consumer) -> Rescued {
        Ring::rescue(self, consumer)
    }

    fn rescue_with(self, producer: Producer, consumer: Consumer) -> Rescued {
        Ring::rescue_with(self, producer, consumer)
    }
}

impl<K, B: Bodies> Heartbeat for Ring<K, B> {
    fn set_heartbeat(&self, consumer: &mut Consumer, value: u64) {
        Ring::set_heartbeat(self, consumer, value);
    }
}
