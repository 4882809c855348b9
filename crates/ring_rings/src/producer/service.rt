//! The calls of producers for correlation ids, heartbeats and positions.
ghost use Rattle.std.specs.Prelude.{◌≡◌, ◌≤◌};
ghost use Rattle.ring_table.specs.ServiceSteps.{DrawsId, LoadsHeartbeat};
ghost use Rattle.ring_rings.specs.Joining.{LoadsPositions};
ghost use Rattle.ring_rings.specs.{Ring.sent, Seats.capacity_of, Seats.view_of, Seats.IsProducerOf, Seats.KeepsClaims};

use crate::bodies::Bodies;
use crate::ring::{Producer, Ring};
use ring_table::{draw_correlation_id, load_head, load_heartbeat, load_tail};
use ring_words::Positions;

impl<K, B: Bodies> Ring<K, B> {
    /// Draws the next correlation id. The ids are 0, 1, 2 and so on, modulo 2^64. All producers together draw each id
    /// once.
    pub fn next_correlation_id(&self, producer: &mut Producer) -> u64
        requires { IsProducerOf self.now producer.old }
        ensures producer { IsProducerOf self.now producer.new }
        ensures sent { sent producer.new ≡ sent producer.old }
        ensures draws { DrawsId (view_of producer.old) result (view_of producer.new) }
        ensures keeps { KeepsClaims self.now producer.old producer.new }
    {
        draw_correlation_id(&self.table.shared, &mut producer.seat, self.capacity)
    }

    /// Returns the consumer's heartbeat. This is 0 or a value that the consumer stored. It is never older than one that
    /// this producer read before.
    pub fn heartbeat(&self, producer: &mut Producer) -> u64
        requires { IsProducerOf self.now producer.old }
        ensures producer { IsProducerOf self.now producer.new }
        ensures sent { sent producer.new ≡ sent producer.old }
        ensures loads { LoadsHeartbeat (capacity_of self.now) (view_of producer.old) result (view_of producer.new) }
        ensures keeps { KeepsClaims self.now producer.old producer.new }
    {
        load_heartbeat(&self.table.shared, &mut producer.seat, self.capacity)
    }

    /// Returns the head and the tail. The tail is not below the head. This call loads first the head, and then the
    /// tail.
    pub fn positions(&self, producer: &mut Producer) -> Positions
        requires { IsProducerOf self.now producer.old }
        ensures producer { IsProducerOf self.now producer.new }
        ensures sent { sent producer.new ≡ sent producer.old }
        ensures order { result.head ≤ result.tail }
        ensures loads { LoadsPositions (capacity_of self.now) (view_of producer.old)
            result.head result.tail (view_of producer.new) }
        ensures keeps { KeepsClaims self.now producer.old producer.new }
    {
        let (words, seat) = (&self.table.shared, &mut producer.seat);
        let head = load_head(words, seat, self.capacity);
        let tail = load_tail(words, seat, self.capacity);
        producer.own_tail = tail;
        Positions { head, tail }
    }
}
