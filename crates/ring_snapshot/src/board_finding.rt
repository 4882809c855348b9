//! The findings about the words of a broadcast buffer.
use thiserror::Error;

/// The reason why words are not those of a broadcast buffer, or why its records end before the tail.
#[derive(Clone, Copy, Debug, PartialEq, Eq, Error)]
pub enum BoardFinding {
    /// No broadcast buffer has this many words. One has `capacity / 8 + 16` words, for a capacity that is a power of
    /// two from 256 to 2^24.
    #[error("BadSize: no board has {words} words")]
    BadSize { words: usize },
    /// The intent, the tail or the place of the last record is not a multiple of 8.
    #[error("UnalignedPosition: intent {intent}, tail {tail}, latest {latest}")]
    UnalignedPosition { intent: u64, tail: u64, latest: u64 },
    /// The tail is before the place of the last record.
    #[error("TailBeforeLatest: tail {tail}, latest {latest}")]
    TailBeforeLatest { tail: u64, latest: u64 },
    /// The intent is before the tail.
    #[error("IntentBeforeTail: intent {intent}, tail {tail}")]
    IntentBeforeTail { intent: u64, tail: u64 },
    /// The tail is beyond the end of the buffer after the last record.
    #[error("TailTooFar: tail {tail}, latest {latest}")]
    TailTooFar { tail: u64, latest: u64 },
    /// The intent is more than the buffer's length beyond the last record, so that no record is whole.
    #[error("IntentTooFar: intent {intent}, latest {latest}")]
    IntentTooFar { intent: u64, latest: u64 },
    /// The words at the position that was asked for are overwritten, or no record begins there.
    #[error("OutsideOfRecords: position {position}")]
    OutsideOfRecords { position: u64 },
    /// The header at this byte index has a length that no record has there.
    #[error("BadLength at {index}: length {length}")]
    BadLength { index: u32, length: i32 },
    /// The header at this byte index has a type id that no record has there.
    #[error("BadType at {index}: type id {type_id}")]
    BadType { index: u32, type_id: i32 },
}
