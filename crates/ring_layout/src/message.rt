//! Messages and claims as contracts name them. No value of a message or a claim is made. Histories are lists of claims,
//! and a ring has only words.
use std::collections::LinkedList;

/// A type id and a body of bytes.
pub struct Message {
    pub type_id: i32,
    pub body: LinkedList<u8>,
}

/// The state of a claim.
#[derive(Clone, Copy, Debug, PartialEq, Eq)]
pub enum ClaimState {
    /// The room of the claim is taken, and its body may still be written.
    Open,
    /// The claim is shown to the reader.
    Committed,
    /// The reader passes the claim.
    Aborted,
}

/// A message with a state.
pub struct Claim {
    pub message: Message,
    pub state: ClaimState,
}
