//! The calls of a counters manager.
pub(crate) mod allocate;
pub(crate) mod available;
pub(crate) mod list;
pub(crate) mod query;
