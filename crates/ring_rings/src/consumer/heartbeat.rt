//! The heartbeat of a consumer.
ghost use Rattle.std.specs.Prelude.{◌≡◌};
ghost use Rattle.ring_table.specs.Views.{with_beat};
ghost use Rattle.ring_rings.specs.{Ring.received, Seats.IsConsumerOf, Seats.consumer_view, Seats.IsSameConsumer};

use crate::bodies::Bodies;
use crate::ring::{Consumer, Ring};
use ring_table::store_heartbeat;

impl<K, B: Bodies> Ring<K, B> {
    /// Stores the consumer's heartbeat, which producers load. The heartbeat is 0 before the first one is stored.
    pub fn set_heartbeat(&self, consumer: &mut Consumer, value: u64)
        requires { IsConsumerOf self.now consumer.old }
        ensures consumer { IsConsumerOf self.now consumer.new }
        ensures received { received consumer.new ≡ received consumer.old }
        ensures seat { IsSameConsumer consumer.old consumer.new }
        ensures view { consumer_view consumer.new ≡ with_beat value (consumer_view consumer.old) }
    {
        store_heartbeat(&self.table.shared, &mut consumer.seat, self.capacity, value);
    }
}
