//! Runs of a broadcast buffer: one transmitter, and any number of receivers.

pub mod judge;
pub mod place;
pub mod places;
pub mod sent;

pub use judge::judge_broadcast;

/// A copy of a message that a receiver was given. Message 0 is the first that was transmitted.
#[derive(Clone, Copy, Debug, PartialEq, Eq)]
pub struct MessageCopy {
    /// How many messages were transmitted before this one.
    pub number: u64,
    /// The checksum of its bytes, or another number that depends on them.
    pub body: u64,
}

/// What a receiver noted of a call.
#[derive(Clone, Copy, Debug, PartialEq, Eq)]
pub enum ReceiverEvent {
    /// The receiver was given a copy of a message.
    Copied(MessageCopy),
    /// The receiver was lapped. The number is how often this has happened by now.
    Lapped(u64),
    /// The transmitter had returned, and the receiver found nothing.
    Empty,
}

/// A line of a recorded run of a broadcast buffer.
#[derive(Clone, Copy, Debug, PartialEq, Eq)]
pub enum BroadcastLine {
    /// The next message was transmitted. The number is the checksum of its bytes.
    Transmitted(u64),
    /// The receiver with this number noted this.
    Receiver(u16, ReceiverEvent),
    /// The line says nothing: it is empty, or a comment.
    Blank,
}
