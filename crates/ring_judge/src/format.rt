//! The text of a recorded run.

pub mod broadcast_text;
pub mod fault;
pub mod kind;
pub mod lines;
pub mod numbers;
pub mod queue_text;
pub mod ring_text;
pub mod words;

pub use broadcast_text::parse_broadcast;
pub use fault::{BadLine, LineFault};
pub use kind::{Kind, RingShape, kind_of};
pub use queue_text::parse_queue;
pub use ring_text::parse_ring;
