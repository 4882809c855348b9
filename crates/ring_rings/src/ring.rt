//! A ring, its producers and its consumer.
ghost use Rattle.std.specs.Prelude.{◌≡◌, ◌%◌, ◌/◌, ◌<◌, ◌≤◌, [], vec_len, true, false};
ghost use Rattle.ring_layout.specs.{Places.IsCapacity, Places.max_position, Layout.ring_words};
ghost use Rattle.ring_rings.specs.Matching.{Matches, matches_prop};

use crate::bodies::Bodies;
use crate::fault::CloseFault;
use ring_table::{InSlots, InWords, RingSeat, RingTable, Run};
use std::marker::PhantomData;

/// The kind of a ring that one producer writes.
pub struct OneToOne;

/// The kind of a ring that any number of producers write.
pub struct ManyToOne;

/// A ring of messages between threads, shared by reference. A ring has one consumer. Its kind `K` says whether it has
/// one producer or many. `B` says where the bodies of messages are: `InWords` in atomic words, `InSlots` in plain
/// memory. The calls are the same for both, and do the same.
#[derive(Drop)]
pub struct Ring<K, B: Bodies = InWords> {
    pub(crate) table: RingTable<B>,
    // Room for the words that `close` returns.
    pub(crate) room: Vec<u64>,
    pub(crate) capacity: u32,
    pub(crate) kind: PhantomData<K>,
    ghost key: { table.shared.key.capacity ≡ capacity },
    ghost wide: { (table.shared.table_id.words ≡ ring_words capacity)
        × (table.shared.table_id.slots ≡ B.slots_for capacity) × (vec_len room ≡ ring_words capacity) },
    ghost lawful: { IsCapacity capacity },
}

/// A ring with one producer, which moves the tail by a store.
///
/// The memory of this ring always has the format of a ring, bodies included. So a body costs an atomic step for each
/// eight bytes, and one more step to clear them. Use this ring if something else reads the memory by the format.
/// Otherwise use a `PlainOneToOneRing`.
pub type OneToOneRing = Ring<OneToOne>;

/// A ring with any number of producers, which move the tail by a compare-exchange. Its memory has the format of a ring,
/// as that of a `OneToOneRing` does.
pub type ManyToOneRing = Ring<ManyToOne>;

/// A ring whose bodies are in plain memory, which one thread at a time reads and writes.
pub type PlainRing<K> = Ring<K, InSlots>;

/// A ring with one producer, whose bodies are in plain memory.
///
/// This ring has the calls of a `OneToOneRing`. A body costs about as much as copying it. Headers and bodies are stored
/// separately, so the ring takes the memory of its buffer once more. Its words have the format of a ring only after it
/// was closed.
pub type PlainOneToOneRing = PlainRing<OneToOne>;

/// A ring with any number of producers, whose bodies are in plain memory as in a `PlainOneToOneRing`.
pub type PlainManyToOneRing = PlainRing<ManyToOne>;

/// Writes messages into a ring. One thread at a time uses a producer. A producer may move between threads.
///
/// The first producer holds 65,536 shares. `ManyToOneRing::split` moves one of them to a new producer. `close` needs
/// all shares back. So a ring can never be closed after one of its producers was dropped.
#[derive(Drop)]
pub struct Producer {
    pub(crate) seat: RingSeat,
    pub(crate) shares: u32,
    pub(crate) open_claims: u64,
    // The ring's tail, if this producer holds all shares.
    pub(crate) own_tail: u64,
    ghost known: { Matches seat.me.0 shares open_claims own_tail } by { matches_prop _ _ _ _ _ _ },
    ghost produces: { (seat.me.0.consumes ≡ false) × (seat.me.1 ≡ []) },
    ghost home: { seat.me.0.out ≡ [] },
}

/// Reads messages from a ring. One thread at a time uses a consumer. A consumer may move between threads. If the
/// consumer is dropped, the ring fills up, and can never be closed.
#[derive(Drop)]
pub struct Consumer {
    pub(crate) seat: RingSeat,
    pub(crate) head: u64,
    // The run of records that the running read is in.
    pub(crate) run: Run,
    pub(crate) scratch: Vec<u8>,
    ghost consumes: { (seat.me.0.consumes ≡ true) × (seat.me.1 ≡ []) × (seat.me.0.producer.shares ≡ 0) },
    ghost home: { seat.me.0.out ≡ [] },
    ghost stands: { (seat.me.0.consumer.head ≡ head) × (seat.me.0.consumer.cleared ≡ head) },
    ghost ran: { seat.me.0.consumer.run ≡ run },
    ghost whole: { (head % 8 ≡ 0) × (head ≤ max_position) },
    ghost room: { vec_len scratch ≡ seat.me.0.capacity / 8 },
}

/// The error of a ring that was not closed. It has the reason, and all arguments unchanged.
#[derive(Drop)]
pub struct CloseRefused<R> {
    pub reason: CloseFault,
    pub ring: R,
    pub producer: Producer,
    pub consumer: Consumer,
}
