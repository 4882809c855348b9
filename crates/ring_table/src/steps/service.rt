//! The steps on the head cache, the correlation counter and the heartbeat.
ghost use Rattle.std.specs.Prelude.{◌≡◌, ◌<◌, ◌≤◌, true};
ghost use Rattle.ring_table.specs.{Views.with_beat, Seats.IsSameSeat, Seats.IsSeatOf};
ghost use Rattle.ring_table.specs.ServiceSteps.{DrawsId, LoadsCache, LoadsHeartbeat};

use crate::mode::Mode;
use crate::plays::service::{DrawId, LoadCache, LoadHeartbeat, StoreCache, StoreHeartbeat};
use crate::steps::{RingSeat, SharedRing, trailer_word};
use ring_layout::ring_buffer_descriptor::{
    CONSUMER_HEARTBEAT_WORD, CORRELATION_COUNTER_WORD, HEAD_CACHE_POSITION_WORD,
};

/// Loads the cached head, in bytes. It may be older than a head that this producer has seen, and is never above the
/// head.
pub fn load_cache<M: Mode>(ring: &SharedRing<M>, producer: &mut RingSeat, capacity: u32) -> u64
    requires { IsSeatOf ring.now.table_id ring.now.key capacity producer.old }
    ensures seat { IsSameSeat producer.old producer.new }
    ensures told { LoadsCache capacity producer.old.me.0 result producer.new.me.0 }
{
    ring.load::<LoadCache>(producer, trailer_word(capacity, HEAD_CACHE_POSITION_WORD))
}

/// Stores a head that this producer has seen, or an older one, into the cache.
pub fn store_cache<M: Mode>(ring: &SharedRing<M>, producer: &mut RingSeat, capacity: u32, head: u64)
    requires seat { IsSeatOf ring.now.table_id ring.now.key capacity producer.old }
    requires seen { head ≤ producer.old.me.0.producer.seen_head }
    ensures seat { IsSameSeat producer.old producer.new }
    ensures view { producer.new.me.0 ≡ producer.old.me.0 }
{
    ring.store::<StoreCache>(
        producer,
        trailer_word(capacity, HEAD_CACHE_POSITION_WORD),
        head,
    );
}

/// Draws the next correlation id by a fetch-and-add of 1.
pub fn draw_correlation_id<M: Mode>(
    ring: &SharedRing<M>,
    producer: &mut RingSeat,
    capacity: u32,
) -> u64
    requires seat { IsSeatOf ring.now.table_id ring.now.key capacity producer.old }
    requires share { 0 < producer.old.me.0.producer.shares }
    ensures seat { IsSameSeat producer.old producer.new }
    ensures told { DrawsId producer.old.me.0 result producer.new.me.0 }
{
    ring.fetch_add::<DrawId>(
        producer,
        trailer_word(capacity, CORRELATION_COUNTER_WORD),
        1,
    )
}

/// Loads the heartbeat: 0, or a value that the consumer stored, not before any that this producer read.
pub fn load_heartbeat<M: Mode>(ring: &SharedRing<M>, producer: &mut RingSeat, capacity: u32) -> u64
    requires seat { IsSeatOf ring.now.table_id ring.now.key capacity producer.old }
    requires share { 0 < producer.old.me.0.producer.shares }
    ensures seat { IsSameSeat producer.old producer.new }
    ensures told { LoadsHeartbeat capacity producer.old.me.0 result producer.new.me.0 }
{
    ring.load::<LoadHeartbeat>(producer, trailer_word(capacity, CONSUMER_HEARTBEAT_WORD))
}

/// Stores the consumer's heartbeat.
pub fn store_heartbeat<M: Mode>(
    ring: &SharedRing<M>,
    consumer: &mut RingSeat,
    capacity: u32,
    value: u64,
)
    requires seat { IsSeatOf ring.now.table_id ring.now.key capacity consumer.old }
    requires consumes { consumer.old.me.0.consumes ≡ true }
    ensures seat { IsSameSeat consumer.old consumer.new }
    ensures view { consumer.new.me.0 ≡ with_beat value consumer.old.me.0 }
{
    ring.store::<StoreHeartbeat>(
        consumer,
        trailer_word(capacity, CONSUMER_HEARTBEAT_WORD),
        value,
    );
}
