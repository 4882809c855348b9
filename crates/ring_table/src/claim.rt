//! Claims of a shared ring, whose headers may not be stored yet. No value of these types is made.
use ring_layout::{ClaimState, Message};
use std::collections::LinkedList;

/// How far a claim is.
pub enum Stage {
    /// The tail is moved. Padding is before the record, and its header is not stored.
    Moved,
    /// The padding's header is stored, or there is no padding. The claim's own header is not stored.
    Padded,
    /// The claim's header is stored and shows this state.
    Stored(ClaimState),
}

/// A claim with its place. While its header is not stored its type id and length may be provisional, with the right
/// span, and its bytes are 0.
pub struct StagedClaim {
    /// The end of the claim before it, where its padding begins.
    pub from: u64,
    pub place: u64,
    pub message: Message,
    pub stage: Stage,
}

/// A message with its place.
pub struct PlacedMessage {
    pub place: u64,
    pub message: Message,
}
