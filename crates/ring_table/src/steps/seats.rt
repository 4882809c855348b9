//! The steps that cut a seat in two or put two together. Each is a load of one word.
ghost use Rattle.std.specs.Prelude.{◌≡◌, ◌<◌, [], true, false};
ghost use Rattle.ring_table.specs.Views.{consumer_alone, with_consumer_of, without_consumer};
ghost use Rattle.ring_table.specs.{Views.producer_alone, Views.with_producer_of, Views.without_share, Seats.IsSameSeat};

use crate::mode::Mode;
use crate::plays::seats::{OneProducer, TheConsumer};
use crate::steps::{RingSeat, SharedRing};

/// Gives the consumer's part to a seat of its own.
pub fn split_consumer<M: Mode>(ring: &SharedRing<M>, seat: &mut RingSeat) -> RingSeat
    requires table { seat.old.table_id ≡ ring.now.table_id }
    requires words { 0 < ring.now.table_id.words }
    requires home { seat.old.me.0.out ≡ [] }
    requires consumes { seat.old.me.0.consumes ≡ true }
    ensures seat { IsSameSeat seat.old seat.new }
    ensures left { seat.new.me.0 ≡ without_consumer seat.old.me.0 }
    ensures right { (result.table_id ≡ seat.old.table_id) × (result.me ≡ (consumer_alone seat.old.me.0, [])) }
{
    ring.split_seat::<TheConsumer>(seat)
}

/// Makes a new producer with one of this one's shares, no claims, no draws and no heartbeats read.
pub fn split_producer<M: Mode>(ring: &SharedRing<M>, producer: &mut RingSeat) -> RingSeat
    requires table { producer.old.table_id ≡ ring.now.table_id }
    requires words { 0 < ring.now.table_id.words }
    requires home { producer.old.me.0.out ≡ [] }
    requires shares { 1 < producer.old.me.0.producer.shares }
    ensures seat { IsSameSeat producer.old producer.new }
    ensures left { producer.new.me.0 ≡ without_share producer.old.me.0 }
    ensures right { (result.table_id ≡ producer.old.table_id) × (result.me ≡ (producer_alone producer.old.me.0, [])) }
{
    ring.split_seat::<OneProducer>(producer)
}

/// Joins the consumer into a producer, which has its part from then on.
pub fn join_consumer<M: Mode>(ring: &SharedRing<M>, producer: &mut RingSeat, consumer: RingSeat)
    requires table { (producer.old.table_id ≡ ring.now.table_id) × (consumer.table_id ≡ ring.now.table_id) }
    requires words { 0 < ring.now.table_id.words }
    requires slots { (producer.old.me.0.out ≡ []) × (consumer.me.1 ≡ []) × (consumer.me.0.out ≡ []) }
    requires consumes { consumer.me.0.consumes ≡ true }
    requires no_share { consumer.me.0.producer.shares ≡ 0 }
    ensures seat { IsSameSeat producer.old producer.new }
    ensures view { producer.new.me.0 ≡ with_consumer_of producer.old.me.0 consumer.me.0 }
{
    ring.join_seat::<TheConsumer>(producer, consumer);
}

/// Joins another producer into this one: its claims are put among this one's by rising place, its shares are added, and
/// its draws and heartbeats are beside this one's.
pub fn join_producer<M: Mode>(ring: &SharedRing<M>, producer: &mut RingSeat, other: RingSeat)
    requires table { (producer.old.table_id ≡ ring.now.table_id) × (other.table_id ≡ ring.now.table_id) }
    requires words { 0 < ring.now.table_id.words }
    requires slots { (producer.old.me.0.out ≡ []) × (other.me.1 ≡ []) × (other.me.0.out ≡ []) }
    requires produces { other.me.0.consumes ≡ false }
    requires share { 0 < other.me.0.producer.shares }
    ensures seat { IsSameSeat producer.old producer.new }
    ensures view { producer.new.me.0 ≡ with_producer_of producer.old.me.0 other.me.0 }
{
    ring.join_seat::<OneProducer>(producer, other);
}
