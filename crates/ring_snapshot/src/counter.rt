//! A counter as it is in memory.
use crate::body::Body;

/// The state of an id that was used.
#[derive(Clone, Copy, Debug, PartialEq, Eq)]
pub enum CounterState {
    /// A counter in use.
    Allocated,
    /// A counter that was freed. Its id may be allocated again from its deadline on.
    Reclaimed,
}

/// A counter as it is in memory. After a counter was freed, all words except its state and its deadline stay as they
/// were.
#[derive(Debug, Drop)]
pub struct Counter<'a> {
    /// The id of the counter.
    pub id: u32,
    /// The state of the counter.
    pub state: CounterState,
    /// The type that the counter was allocated with.
    pub type_id: i32,
    /// The moment from which the id may be allocated again, in milliseconds. This is 2^63 - 1 while the counter is in
    /// use.
    pub deadline: u64,
    /// The key of the counter, which has 112 bytes.
    pub key: Body<'a>,
    /// The label of the counter.
    pub label: Body<'a>,
    /// The value of the counter.
    pub value: i64,
    /// The registration id that the counter was allocated with.
    pub registration: u64,
    /// The owner of the counter, or 0 if the counter has no owner.
    pub owner: u64,
}
