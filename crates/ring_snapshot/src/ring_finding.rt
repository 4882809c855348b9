//! The findings about the words of a ring.
use thiserror::Error;

/// The reason why words are not those of a ring, or why its records end before the tail.
#[derive(Clone, Copy, Debug, PartialEq, Eq, Error)]
pub enum RingFinding {
    /// No ring has this many words. A ring has `capacity / 8 + 96` words, for a capacity that is a power of two from
    /// 128 to 2^24.
    #[error("BadSize: no ring has {words} words")]
    BadSize { words: usize },
    /// The number of slots for separate bodies is not the number of words of the buffer.
    #[error("BadBodies: the ring has no {words} words of bodies")]
    BadBodies { words: usize },
    /// The head or the tail is not a multiple of 8.
    #[error("UnalignedPosition: head {head}, tail {tail}")]
    UnalignedPosition { head: u64, tail: u64 },
    /// The tail is before the head.
    #[error("TailBeforeHead: head {head}, tail {tail}")]
    TailBeforeHead { head: u64, tail: u64 },
    /// There are more bytes between the head and the tail than the buffer has.
    #[error("TailTooFar: head {head}, tail {tail}")]
    TailTooFar { head: u64, tail: u64 },
    /// The position that was asked for is not between the head and the tail, or is not a multiple of 8.
    #[error("OutsideOfRecords: position {position}")]
    OutsideOfRecords { position: u64 },
    /// The header at this byte index has a length that no record has there.
    #[error("BadLength at {index}: length {length}")]
    BadLength { index: u32, length: i32 },
    /// The header at this byte index has a type id that no record has.
    #[error("BadType at {index}: type id {type_id}")]
    BadType { index: u32, type_id: i32 },
}
