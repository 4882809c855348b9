//! A record as it is in memory.
use crate::body::Body;

/// The state of a record.
#[derive(Clone, Copy, Debug, PartialEq, Eq)]
pub enum RecordState {
    /// The record is claimed, and neither committed nor aborted. It blocks the reader.
    Open,
    /// The record is committed. The reader is shown its message.
    Committed,
    /// The record is aborted. The reader passes it.
    Aborted,
    /// The record is aborted, or is padding up to the end of the buffer. Memory does not say which.
    AbortedOrPadding,
    /// The record is claimed, and its header is not yet stored. The number of records from here to the tail is unknown.
    Unstored,
}

/// A record as it is in memory.
#[derive(Debug, Drop)]
pub struct Record<'a> {
    /// The position of the record, in bytes.
    pub place: u64,
    /// The byte index of the record in the buffer.
    pub index: u32,
    /// The state of the record.
    pub state: RecordState,
    /// The type id of the record. It is -1 for padding and for an aborted record, and 0 if the header is not yet
    /// stored.
    pub type_id: i32,
    /// The number of bytes of the header and the message. For padding, the number of bytes up to the end of the buffer.
    /// For a header that is not yet stored, the number of bytes up to the tail.
    pub length: u32,
    /// The message of the record if it is open or committed, and otherwise no bytes.
    pub body: Body<'a>,
}
