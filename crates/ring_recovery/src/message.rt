//! A message that was recovered.
use crate::body::Body;

/// A committed message that was recovered.
#[derive(Debug, Drop)]
pub struct RecoveredMessage<'a> {
    /// The position of the record, in bytes.
    pub place: u64,
    /// The type id of the message.
    pub type_id: i32,
    /// The bytes of the message.
    pub body: Body<'a>,
}
