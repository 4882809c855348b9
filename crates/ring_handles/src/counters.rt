//! Counters in a handle.
use crate::identity::Identity;
use ring_ends::{CountersEnd, ReaderEnd};

/// The counters' manager, with their values.
#[derive(Drop)]
pub struct CountersSide {
    pub(crate) end: CountersEnd,
    /// That of these counters.
    pub(crate) identity: Identity,
}

/// A reader of the values of counters, with those.
#[derive(Drop)]
pub struct ReaderSide {
    pub(crate) end: ReaderEnd,
    /// The counters', or their conductor's.
    pub(crate) identity: Identity,
}
