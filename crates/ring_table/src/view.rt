//! What each seat at the ring's table knows. No value of a view is made.
use crate::claim::{PlacedMessage, StagedClaim};
use std::collections::LinkedList;

/// What a table is made of.
#[derive(Clone, Copy)]
pub struct Key {
    /// In bytes.
    pub capacity: u64,
    /// The position of the first claim.
    pub start: u64,
}

/// What a producer is about to claim. The compare-exchange of the tail announces its header to the rule.
#[derive(Clone, Copy)]
pub struct Wanted {
    pub type_id: i32,
    /// The bytes of the body.
    pub len: usize,
}

/// What one producer drew and read, the oldest first.
pub struct Service {
    /// The correlation ids as they were counted, not modulo 2^64.
    pub draws: LinkedList<u64>,
    /// The heartbeats, each with its index in the list of 0 and the values stored.
    pub heartbeats: LinkedList<(u64, u64)>,
}

/// What a producer knows.
pub struct ProducerView {
    /// Its part of the right to claim, of 65,536 in all.
    pub shares: u64,
    pub claims: LinkedList<StagedClaim>,
    /// The greatest end of a claim that it has seen.
    pub seen_tail: u64,
    /// The greatest head that it has loaded.
    pub seen_head: u64,
    pub service: Service,
    /// Of the producers that were joined into it.
    pub joined: LinkedList<Service>,
}

/// A run of marked records, one after another, whose last one ends at `to`. The mark at `from` is that of the whole run.
#[derive(Clone, Copy)]
pub struct Run {
    pub from: u64,
    pub to: u64,
}

/// What the consumer knows.
pub struct ConsumerView {
    pub head: u64,
    /// The position up to which the running read has set words to 0, or has found them so.
    pub cleared: u64,
    /// How far the running read has come.
    pub scan: u64,
    /// The run that the running read has reached. If it is at the end of the run, it must load another mark.
    pub run: Run,
    /// The messages below the head.
    pub taken: LinkedList<PlacedMessage>,
    /// The messages below `scan`.
    pub got: LinkedList<PlacedMessage>,
    /// The heads stored, the oldest first.
    pub heads: LinkedList<u64>,
    /// The heartbeats stored.
    pub heartbeats: LinkedList<u64>,
}

/// What a seat knows.
pub struct View {
    pub capacity: u64,
    /// Word and value of each load, but for those of words to be cleared.
    pub log: LinkedList<(u64, u64)>,
    pub producer: ProducerView,
    /// The message whose body the seat has out of its slots: one, or none.
    pub out: LinkedList<PlacedMessage>,
    /// Whether the seat is the consumer's. If it is not, `consumer` says nothing.
    pub consumes: bool,
    pub consumer: ConsumerView,
}
