//! The steps on headers, which are words or marks.
ghost use Rattle.std.specs.Prelude.{◌≡◌, ◌+◌, ◌≤◌, ◌<◌, true};
ghost use Rattle.ring_layout.specs.declared.message.ClaimState.TheVariants.{Aborted, Committed};
ghost use Rattle.ring_layout.specs.History.{IsMessage};
ghost use Rattle.ring_table.specs.{Changes.blank, Changes.staged, ConsumerSteps.LoadsHeader, Views.with_run};
ghost use Rattle.ring_table.specs.ProducerSteps.{HasClaimAt, IsStagedOpen, NeedsPadding, with_changed};
ghost use Rattle.ring_table.specs.{Seats.IsSameSeat, Seats.IsSeatOf, Staged.AreRising, Staged.Padded, Staged.Stored};

use crate::mode::{InSlots, InWords, Mode};
use crate::steps::{RingSeat, SharedRing, consumer, marks, producer};
use crate::view::{Run, Wanted};

/// The steps on headers, whose words depend on where bodies lie.
pub trait Headers: Mode {
    /// Stores what shows the padding that is from `from` up to the claim's place, both in bytes.
    fn store_padding_header(
        ring: &SharedRing<Self>,
        producer: &mut RingSeat,
        capacity: u32,
        from: u64,
        place: u64,
    )
        requires seat { IsSeatOf ring.now.table_id ring.now.key capacity producer.old }
        requires near { place ≤ from + capacity }
        requires claim { HasClaimAt producer.old.me.0 place (NeedsPadding from) }
        ensures seat { IsSameSeat producer.old producer.new }
        ensures view { producer.new.me.0 ≡ with_changed place (staged Padded) producer.old.me.0 }
        ensures rising { AreRising producer.old.me.0.producer.claims };

    /// Stores what shows that a claim is committed.
    fn store_committed_header(
        ring: &SharedRing<Self>,
        producer: &mut RingSeat,
        capacity: u32,
        place: u64,
        wanted: Wanted,
    )
        requires seat { IsSeatOf ring.now.table_id ring.now.key capacity producer.old }
        requires message { IsMessage capacity (blank wanted.type_id wanted.len) }
        requires claim { HasClaimAt producer.old.me.0 place (IsStagedOpen wanted.type_id wanted.len) }
        ensures seat { IsSameSeat producer.old producer.new }
        ensures view { producer.new.me.0 ≡ with_changed place (staged (Stored Committed)) producer.old.me.0 }
        ensures rising { AreRising producer.old.me.0.producer.claims };

    /// Stores what shows that a claim is aborted.
    fn store_aborted_header(
        ring: &SharedRing<Self>,
        producer: &mut RingSeat,
        capacity: u32,
        place: u64,
        wanted: Wanted,
    )
        requires seat { IsSeatOf ring.now.table_id ring.now.key capacity producer.old }
        requires message { IsMessage capacity (blank wanted.type_id wanted.len) }
        requires claim { HasClaimAt producer.old.me.0 place (IsStagedOpen wanted.type_id wanted.len) }
        ensures seat { IsSameSeat producer.old producer.new }
        ensures view { producer.new.me.0 ≡ with_changed place (staged (Stored Aborted)) producer.old.me.0 }
        ensures rising { AreRising producer.old.me.0.producer.claims };

    /// Loads the header at the head, as a read begins. What an earlier read got beyond the head is forgotten. The read is
    /// in the new run then.
    fn load_first_header(
        ring: &SharedRing<Self>,
        consumer: &mut RingSeat,
        capacity: u32,
        head: u64,
        run: &mut Run,
    ) -> u64
        requires seat { IsSeatOf ring.now.table_id ring.now.key capacity consumer.old }
        requires consumes { consumer.old.me.0.consumes ≡ true }
        requires head { consumer.old.me.0.consumer.head ≡ head }
        requires nothing_cleared { consumer.old.me.0.consumer.cleared ≡ head }
        ensures seat { IsSameSeat consumer.old consumer.new }
        ensures run { run.new.from ≤ head }
        ensures told { LoadsHeader capacity head consumer.old.me.0.consumer.taken
            (with_run run.new consumer.old.me.0) result consumer.new.me.0 };

    /// Loads the header that the running read has reached. The read is in the new run then, which is the old one up to
    /// its end.
    fn load_next_header(
        ring: &SharedRing<Self>,
        consumer: &mut RingSeat,
        capacity: u32,
        scan: u64,
        run: &mut Run,
    ) -> u64
        requires seat { IsSeatOf ring.now.table_id ring.now.key capacity consumer.old }
        requires consumes { consumer.old.me.0.consumes ≡ true }
        requires scan { consumer.old.me.0.consumer.scan ≡ scan }
        requires near { scan < consumer.old.me.0.consumer.head + capacity }
        requires run { (consumer.old.me.0.consumer.run ≡ run.old) × (run.old.from ≤ scan) }
        ensures seat { IsSameSeat consumer.old consumer.new }
        ensures run { run.new.from ≤ scan }
        ensures told { LoadsHeader capacity scan consumer.old.me.0.consumer.got
            (with_run run.new consumer.old.me.0) result consumer.new.me.0 };
}

impl Headers for InWords {
    #[inline(always)]
    fn store_padding_header(
        ring: &SharedRing<Self>,
        producer: &mut RingSeat,
        capacity: u32,
        from: u64,
        place: u64,
    ) {
        producer::store_padding_word(ring, producer, capacity, from, place);
    }

    #[inline(always)]
    fn store_committed_header(
        ring: &SharedRing<Self>,
        producer: &mut RingSeat,
        capacity: u32,
        place: u64,
        wanted: Wanted,
    ) {
        producer::store_committed_word(ring, producer, capacity, place, wanted);
    }

    #[inline(always)]
    fn store_aborted_header(
        ring: &SharedRing<Self>,
        producer: &mut RingSeat,
        capacity: u32,
        place: u64,
        wanted: Wanted,
    ) {
        producer::store_aborted_word(ring, producer, capacity, place, wanted);
    }

    #[inline(always)]
    fn load_first_header(
        ring: &SharedRing<Self>,
        consumer: &mut RingSeat,
        capacity: u32,
        head: u64,
        run: &mut Run,
    ) -> u64 {
        *run = Run {
            from: head,
            to: head,
        };
        consumer::load_first_word(ring, consumer, capacity, head)
    }

    #[inline(always)]
    fn load_next_header(
        ring: &SharedRing<Self>,
        consumer: &mut RingSeat,
        capacity: u32,
        scan: u64,
        run: &mut Run,
    ) -> u64 {
        *run = Run {
            from: scan,
            to: scan,
        };
        consumer::load_next_word(ring, consumer, capacity, scan)
    }
}

impl Headers for InSlots {
    #[inline(always)]
    fn store_padding_header(
        ring: &SharedRing<Self>,
        producer: &mut RingSeat,
        capacity: u32,
        from: u64,
        place: u64,
    ) {
        marks::store_padding_mark(ring, producer, capacity, from, place);
    }

    #[inline(always)]
    fn store_committed_header(
        ring: &SharedRing<Self>,
        producer: &mut RingSeat,
        capacity: u32,
        place: u64,
        wanted: Wanted,
    ) {
        marks::store_committed_mark(ring, producer, capacity, place, wanted);
    }

    #[inline(always)]
    fn store_aborted_header(
        ring: &SharedRing<Self>,
        producer: &mut RingSeat,
        capacity: u32,
        place: u64,
        wanted: Wanted,
    ) {
        marks::store_aborted_mark(ring, producer, capacity, place, wanted);
    }

    #[inline(always)]
    fn load_first_header(
        ring: &SharedRing<Self>,
        consumer: &mut RingSeat,
        capacity: u32,
        head: u64,
        run: &mut Run,
    ) -> u64 {
        let (header, now) = marks::load_first_mark(ring, consumer, capacity, head);
        *run = now;
        header
    }

    #[inline(always)]
    fn load_next_header(
        ring: &SharedRing<Self>,
        consumer: &mut RingSeat,
        capacity: u32,
        scan: u64,
        run: &mut Run,
    ) -> u64 {
        if scan < run.to {
            return marks::load_in_run(ring, consumer, capacity, scan, *run);
        }
        let (header, now) = marks::load_next_mark(ring, consumer, capacity, scan);
        *run = now;
        header
    }
}
