//! A record of a broadcast buffer as it is in memory.
use crate::body::Body;

/// A record of a broadcast buffer as it is in memory.
#[derive(Debug, Drop)]
pub struct BoardRecord<'a> {
    /// The position of the record, in bytes.
    pub place: u64,
    /// The byte index of the record in the buffer.
    pub index: u32,
    /// Whether the record is padding up to the end of the buffer.
    pub is_padding: bool,
    /// Whether a receiver at the record's place takes the record as whole. This is so if the intent is below the place
    /// plus the capacity.
    pub is_valid: bool,
    /// The type id of the record, which is -1 for padding.
    pub type_id: i32,
    /// The number of bytes of the header and the message. For padding, the number of bytes up to the end of the buffer.
    pub length: u32,
    /// The message of the record, which is empty for padding.
    pub body: Body<'a>,
}
