//! The types of what a seat at the table knows. No value of these types is made, except of `Shape`.
use ring_layout::Message;
use std::collections::LinkedList;

/// A transmitted message. The transmission began at `before`. It has padding up to `place`, and the record at `place`.
pub struct Record {
    pub before: u64,
    pub place: u64,
    pub message: Message,
}

/// A transmission that is being made and will end at `end`, with the words of the body that are stored.
pub struct Draft {
    pub before: u64,
    pub place: u64,
    pub end: u64,
    pub words: LinkedList<u64>,
}

/// A message that a receiver copied, or returned without its body, and the number of times that it had been lapped
/// before.
pub struct Taken {
    pub place: u64,
    pub message: Message,
    pub count: u64,
}

/// The place at which a joined receiver had subscribed, and its copies.
pub struct Joined {
    pub from: u64,
    pub copies: LinkedList<Taken>,
}

/// A load of a word. A load of the buffer has its index, a tail that was stored before the load, and the word. The
/// other loads are of one of the three counters. The tail is the last one that was seen. For the body of a record that
/// was returned without its body, it is the tail at the moment of the return.
pub enum Load {
    Word(u64, u64, u64),
    Intent(u64),
    Tail(u64),
    Latest(u64),
}

/// The point that a call has reached.
pub enum Stage {
    /// The seat was joined to another seat.
    Spent,
    /// The transmitter is between two transmissions.
    Idle,
    /// The intent is stored, but the padding header is not stored yet.
    Begun(Draft),
    /// The intent and the padding header, if there is one, are stored.
    Storing(Draft),
    /// The header is stored.
    Written(Record),
    /// Latest is stored.
    Shown(Record),
    /// The receiver is between two calls.
    Resting,
    /// The receiver loaded a tail beyond its place.
    Sure,
    /// The receiver loaded this header.
    Headed(u64),
    /// The receiver loaded this header of padding, and validated it.
    Padded(u64),
    /// The receiver loaded this header after padding.
    Again(u64),
    /// The receiver loaded these words after a validated header.
    Reading(u64, LinkedList<u64>),
    /// A validation failed.
    Behind,
}

/// The knowledge of a seat. The transmitter knows the list `sent`, and the receivers that were joined to it (`heard`).
/// A receiver subscribed at `from`, and is now at `at`, before the entry `next` of the list. It was lapped `count`
/// times, and has its copies. Each seat has a log of its loads.
pub struct View {
    pub stage: Stage,
    pub shares: u64,
    pub capacity: u64,
    pub start: u64,
    pub sent: LinkedList<Record>,
    pub from: u64,
    pub at: u64,
    pub next: u64,
    pub count: u64,
    pub copies: LinkedList<Taken>,
    pub log: LinkedList<Load>,
    pub heard: LinkedList<Joined>,
}

/// The capacity in bytes, and the position at which the broadcast buffer began.
#[derive(Drop)]
pub struct Shape {
    pub capacity: u32,
    pub start: u64,
}
