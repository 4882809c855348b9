//! The record of a counter in a listing.
use ring_layout::counter_descriptor::MAX_KEY_LENGTH;

/// A counter in use, as `CountersManager::live` lists it.
#[derive(Debug, Drop)]
pub struct CounterInfo {
    /// The counter's id.
    pub id: u32,
    /// The type that the counter was allocated with.
    pub type_id: i32,
    /// The counter's value.
    pub value: i64,
    /// The registration id that the counter was allocated with.
    pub registration: u64,
    /// The counter's owner, or 0 if the counter has no owner.
    pub owner: u64,
    /// The counter's key. A short key is followed by zeros.
    pub key: [u8; MAX_KEY_LENGTH],
    /// The counter's label.
    pub label: Vec<u8>,
}
