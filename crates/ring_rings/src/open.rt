//! The calls that make rings, with their first producer and their consumer.
ghost use Rattle.std.specs.Prelude.{◌≡◌, ◌/◌, ◌%◌, ◌≤◌, [], IfOk};
ghost use Rattle.ring_layout.specs.Places.{is_capacity, IsCapacity, max_position};
ghost use Rattle.ring_layout.specs.Refusals.{make_refusal_of, IsMadeUnless};
ghost use Rattle.ring_rings.specs.Ring.{received, sent};
ghost use Rattle.ring_rings.specs.{Seats.capacity_of, Seats.start_of, Opening.IsFirstConsumer, Opening.IsFirstProducer};

use crate::bodies::Bodies;
use crate::ring::{Consumer, Producer, Ring};
use ring_layout::ring_buffer_descriptor::TRAILER_WORDS;
use ring_layout::{ALL_SHARES, MakeFault, check_ring, max_message};
use ring_table::{Key, Run, split_consumer};
use std::alloc::{AllocError, Global};
use std::marker::PhantomData;

impl<K, B: Bodies> Ring<K, B> {
    /// Makes an empty ring that starts at position 0, with its consumer and a producer that holds all shares. Returns
    /// the errors of `new_at`.
    pub fn new(alloc: Global, capacity: u32) -> Result<(Self, Producer, Consumer), MakeFault>
        ensures refused { IsMadeUnless (make_refusal_of (is_capacity capacity) capacity 0) result }
        ensures ring { IfOk result (λ made. (capacity_of made.0 ≡ capacity) × (start_of made.0 ≡ 0)) }
        ensures producer { IfOk result (λ made. IsFirstProducer made.0 capacity 0 made.1) }
        ensures consumer { IfOk result (λ made. IsFirstConsumer made.0 capacity 0 made.2) }
        ensures begins { IfOk result (λ made. (sent made.1 ≡ []) × (received made.2 ≡ [])) }
    {
        Self::new_at(alloc, capacity, 0)
    }

    /// Makes an empty ring that starts at a multiple of its capacity, in bytes, with its consumer and a producer that
    /// holds all shares. These are the errors, in this order:
    /// - `BadCapacity` if the capacity is not a power of two from 128 to 2^24;
    /// - `BadStart` if the start is not a multiple of the capacity, or is above 2^62;
    /// - `OutOfMemory`.
    pub fn new_at(
        alloc: Global,
        capacity: u32,
        start: u64,
    ) -> Result<(Self, Producer, Consumer), MakeFault>
        ensures refused { IsMadeUnless (make_refusal_of (is_capacity capacity) capacity start) result }
        ensures ring { IfOk result (λ made. (capacity_of made.0 ≡ capacity) × (start_of made.0 ≡ start)) }
        ensures producer { IfOk result (λ made. IsFirstProducer made.0 capacity start made.1) }
        ensures consumer { IfOk result (λ made. IsFirstConsumer made.0 capacity start made.2) }
        ensures begins { IfOk result (λ made. (sent made.1 ≡ []) × (received made.2 ≡ [])) }
    {
        check_ring(capacity, start)?;
        Self::make(alloc, capacity, start).map_err(|_| MakeFault::OutOfMemory)
    }

    /// Makes a ring of a valid capacity at a valid start.
    fn make(
        alloc: Global,
        capacity: u32,
        start: u64,
    ) -> Result<(Self, Producer, Consumer), AllocError>
        requires capacity { IsCapacity capacity }
        requires start { (start % capacity ≡ 0) × (start ≤ max_position) }
        ensures ring { IfOk result (λ made. (capacity_of made.0 ≡ capacity) × (start_of made.0 ≡ start)) }
        ensures producer { IfOk result (λ made. IsFirstProducer made.0 capacity start made.1) }
        ensures consumer { IfOk result (λ made. IsFirstConsumer made.0 capacity start made.2) }
    {
        let records = capacity as usize / 8;
        let room = vec![in alloc; 0u64; records + TRAILER_WORDS]?;
        let scratch = vec![in alloc; 0u8; records]?;
        let key = Key {
            capacity: u64::from(capacity),
            start,
        };
        let (table, mut seat) = B::open(alloc, key)?;
        let consumer = Consumer {
            seat: split_consumer(&table.shared, &mut seat),
            head: start,
            run: Run {
                from: start,
                to: start,
            },
            scratch,
        };
        let producer = Producer {
            seat,
            shares: ALL_SHARES,
            open_claims: 0,
            own_tail: start,
        };
        let ring = Ring {
            table,
            room,
            capacity,
            kind: PhantomData,
        };
        Ok((ring, producer, consumer))
    }

    /// Returns the number of bytes of the longest message, which is an eighth of the capacity. A longer message is
    /// refused with `TooLong`.
    pub fn max_message(&self) -> u32
        ensures { result ≡ capacity_of self.now / 8 }
    {
        max_message(self.capacity)
    }

    /// Returns the number of bytes of the buffer.
    pub fn capacity(&self) -> u32
        ensures { result ≡ capacity_of self.now }
    {
        self.capacity
    }
}
