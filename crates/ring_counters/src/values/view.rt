//! The types of what each seat of the values knows. No value of these types is made.
use std::collections::LinkedList;

/// A value that the writer stored.
pub struct ValueWrite {
    pub id: u32,
    pub value: i64,
}

/// A value that a reader loaded, and the writes that came before it.
pub struct ValueLoad {
    pub id: u32,
    pub value: i64,
    pub after: LinkedList<ValueWrite>,
}

/// The knowledge of a seat.
pub struct ValuesView {
    /// Whether the seat is the writer's.
    pub writes: bool,
    pub shares: u32,
    /// All writes of the writer, or the writes that a reader has seen.
    pub seen: LinkedList<ValueWrite>,
    /// The writes that there were when a reader was made. This is the reader of the seat, or the reader that the writer
    /// took back last.
    pub made: LinkedList<ValueWrite>,
    /// The loads of that reader.
    pub loads: LinkedList<ValueLoad>,
}
