//! Runs of a ring: any number of producers, which claim room, and one consumer.

ghost use Rattle.std.specs.Prelude.{◌≡◌};
ghost use Rattle.ring_judge.specs.Ring.{is_aborted, is_open};

pub mod claims;
pub mod heads;
pub mod judge;
pub mod judged;
pub mod judgement;
pub mod merged;
pub mod order;
pub mod threads;
pub mod words;

pub use judge::{judge_ring, ring_before};
pub use judged::Judged;
pub use judgement::{Judgement, judge_threads};
pub use order::{NumberedLine, arranged};
pub use words::Cursor;

/// What became of a claim by the end of a run.
#[derive(Clone, Copy, Debug, PartialEq, Eq)]
pub enum Fate {
    /// The claim was neither committed nor aborted.
    Open,
    /// The claim was committed. The number is the checksum of the message's bytes, or another number that depends on
    /// them.
    Committed(u64),
    /// The claim was aborted.
    Aborted,
}

impl Fate {
    /// Tests whether the claim was neither committed nor aborted.
    pub fn is_open(&self) -> bool
        ensures { result ≡ is_open self.now }
    {
        match self {
            Fate::Open => true,
            Fate::Committed(_) | Fate::Aborted => false,
        }
    }

    /// Tests whether the claim was aborted.
    pub fn is_aborted(&self) -> bool
        ensures { result ≡ is_aborted self.now }
    {
        match self {
            Fate::Aborted => true,
            Fate::Committed(_) | Fate::Open => false,
        }
    }
}

/// A claim of a producer.
#[derive(Clone, Copy, Debug, PartialEq, Eq)]
pub struct RingClaim {
    /// The producer.
    pub producer: u16,
    /// The position of the claim's header, in bytes. Positions only rise, and do not start again at the end of the
    /// buffer.
    pub place: u64,
    /// The type id of the message.
    pub type_id: i32,
    /// The length of the message, in bytes.
    pub length: u32,
    /// What became of the claim.
    pub fate: Fate,
}

/// A message that the consumer was shown.
#[derive(Clone, Copy, Debug, PartialEq, Eq)]
pub struct RingCopy {
    /// The position of the message's header, in bytes, or `None` if the consumer does not know the position.
    pub place: Option<u64>,
    /// The type id.
    pub type_id: i32,
    /// The length, in bytes.
    pub length: u32,
    /// The checksum of its bytes, or another number that depends on them.
    pub body: u64,
}

/// A line of a recorded run of a ring.
#[derive(Clone, Copy, Debug, PartialEq, Eq)]
pub enum RingLine {
    /// A producer claimed room.
    Claimed(RingClaim),
    /// The ring refused a message of this producer with this length, in bytes, for lack of room.
    Full(u16, u32),
    /// The consumer was shown a message.
    Got(RingCopy),
    /// The head was at this position when a read had returned.
    Head(u64),
    /// The head and the tail were at these positions when all threads had ended.
    Positions(u64, u64),
    /// The word of the buffer at this position, in bytes, had this value.
    Word(u64, u64),
    /// The words after the last one of a line before were 0.
    Rest,
    /// The producers had returned, and the consumer found nothing.
    Empty,
    /// The line says nothing: it is empty, or a comment.
    Blank,
}
