//! The end of a read, which gives the producers room: it stores the head. If bodies are in words, it clears the words
//! that the read has passed first.
ghost use Rattle.std.specs.Prelude.{◌≤◌, List};
ghost use Rattle.ring_table.specs.declared.claim.PlacedMessage.{PlacedMessage};
ghost use Rattle.ring_rings.specs.Seats.{IsConsumerOf, capacity_of, head_of, run_of, seat_view, IsSameConsumer};
ghost use Rattle.ring_rings.specs.ReadingSteps.{HasCome, IsLeft, MayMoveTo, SettlesAll, SettlesBefore};

use crate::bodies::Bodies;
use crate::ring::{Consumer, Ring};
use ring_table::Run;

impl<K, B: Bodies> Ring<K, B> {
    /// Stores the head after all that the read has passed, at `scan`. Does nothing if the head is at `scan`.
    #[inline(always)]
    pub(super) fn move_head(&self, consumer: &mut Consumer, scan: u64)
        requires consumer { IsConsumerOf self.now consumer.old }
        requires to { MayMoveTo (capacity_of self.now) (head_of consumer.old) scan }
        requires at { HasCome scan (seat_view consumer.old) }
        ensures consumer { IsConsumerOf self.now consumer.new }
        ensures seat { IsSameConsumer consumer.old consumer.new }
        ensures settles { SettlesAll scan (seat_view consumer.old) (seat_view consumer.new) }
    {
        if consumer.head < scan {
            let (words, seat) = (&self.table.shared, &mut consumer.seat);
            B::store_head(
                words,
                seat,
                self.capacity,
                consumer.head,
                scan,
                consumer.run,
            );
            consumer.head = scan;
            consumer.run = Run {
                from: scan,
                to: scan,
            };
        }
    }

    /// Does the same up to the place of the message that the read found last. This message stays in the ring.
    #[inline(always)]
    pub(super) fn move_head_before(&self, consumer: &mut Consumer, place: u64)
        requires consumer { IsConsumerOf self.now consumer.old }
        requires to { MayMoveTo (capacity_of self.now) (head_of consumer.old) place }
        requires left { (got : List PlacedMessage) × IsLeft place got (seat_view consumer.old) }
        requires run { run_of consumer.old ≤ place }
        ensures consumer { IsConsumerOf self.now consumer.new }
        ensures seat { IsSameConsumer consumer.old consumer.new }
        ensures settles { SettlesBefore place (seat_view consumer.old) (seat_view consumer.new) }
    {
        if consumer.head < place {
            let (words, seat) = (&self.table.shared, &mut consumer.seat);
            B::store_head_before(
                words,
                seat,
                self.capacity,
                consumer.head,
                place,
                consumer.run,
            );
            consumer.head = place;
            consumer.run = Run {
                from: place,
                to: place,
            };
        }
    }
}
