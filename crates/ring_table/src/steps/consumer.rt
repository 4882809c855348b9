//! The steps of the consumer.
ghost use Rattle.std.specs.Prelude.{◌≡◌, ◌+◌, ◌%◌, ◌<◌, true};
ghost use Rattle.ring_layout.specs.Places.{index};
ghost use Rattle.ring_table.specs.{Views.logged, Views.no_run, Views.with_run, Seats.IsSameSeat, Seats.IsSeatOf};
ghost use Rattle.ring_table.specs.ConsumerSteps.{ClearsWord, LoadsBody, LoadsHeader, LoadsPassed};
ghost use Rattle.ring_table.specs.ConsumerSteps.{StandsBefore, StoresHead, StoresHeadBefore};

use crate::mode::InWords;
use crate::plays::consumer::{
    ClearWord, LoadBody, LoadFirstHeader, LoadNextHeader, LoadPassed, StoreHead, StoreHeadBefore,
};
use crate::steps::{RingSeat, SharedRing, trailer_word};
use ring_layout::ring_buffer_descriptor::HEAD_POSITION_WORD;
use ring_layout::word_index;

/// Loads the header at the head, as a read begins. What an earlier read got beyond the head is forgotten.
pub(crate) fn load_first_word(
    ring: &SharedRing<InWords>,
    consumer: &mut RingSeat,
    capacity: u32,
    head: u64,
) -> u64
    requires seat { IsSeatOf ring.now.table_id ring.now.key capacity consumer.old }
    requires consumes { consumer.old.me.0.consumes ≡ true }
    requires head { consumer.old.me.0.consumer.head ≡ head }
    requires nothing_cleared { consumer.old.me.0.consumer.cleared ≡ head }
    ensures seat { IsSameSeat consumer.old consumer.new }
    ensures told { LoadsHeader capacity head consumer.old.me.0.consumer.taken
        (with_run (no_run head) consumer.old.me.0) result consumer.new.me.0 }
{
    ring.load::<LoadFirstHeader>(consumer, word_index(capacity, head))
}

/// Loads the header that the running read has reached.
pub(crate) fn load_next_word(
    ring: &SharedRing<InWords>,
    consumer: &mut RingSeat,
    capacity: u32,
    scan: u64,
) -> u64
    requires seat { IsSeatOf ring.now.table_id ring.now.key capacity consumer.old }
    requires consumes { consumer.old.me.0.consumes ≡ true }
    requires scan { consumer.old.me.0.consumer.scan ≡ scan }
    requires near { scan < consumer.old.me.0.consumer.head + capacity }
    ensures seat { IsSameSeat consumer.old consumer.new }
    ensures told { LoadsHeader capacity scan consumer.old.me.0.consumer.got
        (with_run (no_run scan) consumer.old.me.0) result consumer.new.me.0 }
{
    ring.load::<LoadNextHeader>(consumer, word_index(capacity, scan))
}

/// Loads the word at a position, which says what a message that the running read has got has there. Its index in the
/// buffer is `target`.
pub fn load_body_word(
    ring: &SharedRing<InWords>,
    consumer: &mut RingSeat,
    capacity: u32,
    position: u64,
    target: usize,
) -> u64
    requires seat { IsSeatOf ring.now.table_id ring.now.key capacity consumer.old }
    requires target { target ≡ index capacity position }
    requires consumes { consumer.old.me.0.consumes ≡ true }
    ensures seat { IsSameSeat consumer.old consumer.new }
    ensures view { consumer.new.me.0 ≡ logged (index capacity position) result consumer.old.me.0 }
    ensures told { LoadsBody (index capacity position) consumer.old.me.0 result }
{
    ring.load::<LoadBody>(consumer, target)
}

/// Loads the next word that the read has passed and not yet cleared. If it is 0 it counts as cleared, since no other
/// thread stores to it. Its index in the buffer is `target`.
pub fn load_passed_word(
    ring: &SharedRing<InWords>,
    consumer: &mut RingSeat,
    capacity: u32,
    cleared: u64,
    target: usize,
) -> u64
    requires seat { IsSeatOf ring.now.table_id ring.now.key capacity consumer.old }
    requires target { target ≡ index capacity cleared }
    requires consumes { consumer.old.me.0.consumes ≡ true }
    requires cleared { consumer.old.me.0.consumer.cleared ≡ cleared }
    requires passed { cleared < consumer.old.me.0.consumer.scan }
    ensures seat { IsSameSeat consumer.old consumer.new }
    ensures told { LoadsPassed consumer.old.me.0 result consumer.new.me.0 }
{
    ring.load::<LoadPassed>(consumer, target)
}

/// Sets the next word that the read has passed to 0. Its index in the buffer is `target`.
pub fn clear_word(
    ring: &SharedRing<InWords>,
    consumer: &mut RingSeat,
    capacity: u32,
    cleared: u64,
    target: usize,
)
    requires seat { IsSeatOf ring.now.table_id ring.now.key capacity consumer.old }
    requires target { target ≡ index capacity cleared }
    requires consumes { consumer.old.me.0.consumes ≡ true }
    requires cleared { consumer.old.me.0.consumer.cleared ≡ cleared }
    requires passed { cleared < consumer.old.me.0.consumer.scan }
    ensures seat { IsSameSeat consumer.old consumer.new }
    ensures told { ClearsWord consumer.old.me.0 consumer.new.me.0 }
{
    ring.store::<ClearWord>(consumer, target, 0);
}

/// Stores the head after all that the read has passed, which is cleared.
pub fn store_head(ring: &SharedRing<InWords>, consumer: &mut RingSeat, capacity: u32, head: u64)
    requires seat { IsSeatOf ring.now.table_id ring.now.key capacity consumer.old }
    requires consumes { consumer.old.me.0.consumes ≡ true }
    requires scan { consumer.old.me.0.consumer.scan ≡ head }
    requires cleared { consumer.old.me.0.consumer.cleared ≡ head }
    ensures seat { IsSameSeat consumer.old consumer.new }
    ensures told { StoresHead consumer.old.me.0 consumer.new.me.0 }
{
    ring.store::<StoreHead>(consumer, trailer_word(capacity, HEAD_POSITION_WORD), head);
}

/// Stores the head before the last message that the read has got, which stays in the ring. All words before the message
/// are cleared.
pub fn store_head_before(
    ring: &SharedRing<InWords>,
    consumer: &mut RingSeat,
    capacity: u32,
    head: u64,
)
    requires seat { IsSeatOf ring.now.table_id ring.now.key capacity consumer.old }
    requires consumes { consumer.old.me.0.consumes ≡ true }
    requires last { StandsBefore head consumer.old.me.0 }
    requires cleared { consumer.old.me.0.consumer.cleared ≡ head }
    ensures seat { IsSameSeat consumer.old consumer.new }
    ensures told { StoresHeadBefore consumer.old.me.0 consumer.new.me.0 }
{
    ring.store::<StoreHeadBefore>(consumer, trailer_word(capacity, HEAD_POSITION_WORD), head);
}
