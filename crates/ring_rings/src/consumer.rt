//! The calls of the consumer.
pub(crate) mod heartbeat;
pub(crate) mod pass;
pub(crate) mod read;
pub(crate) mod turn;
