//! The findings about the words of counters.
use thiserror::Error;

/// The reason why words are not those of counters, or why an id is not listed as a counter.
#[derive(Clone, Copy, Debug, PartialEq, Eq, Error)]
pub enum CountersFinding {
    /// No counters have this many words. There are 1 to 2^24 ids, and each has 64 words of metadata and 16 words of
    /// values.
    #[error("BadSize: no counters have {metadata} words of metadata and {values} of values")]
    BadSize { metadata: usize, values: usize },
    /// The metadata of this id have a state that no record has.
    #[error("BadState of {id}: state {state}")]
    BadState { id: u32, state: i32 },
    /// The metadata of this id have a label that is longer than its room.
    #[error("BadLabelLength of {id}: length {length}")]
    BadLabelLength { id: u32, length: i32 },
}
