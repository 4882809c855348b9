//! Judges recorded runs of rings and queues: whether some history of messages explains what each thread recorded.
#![tactic(auto)]

pub mod broadcast;
pub mod format;
pub mod message;
pub mod queue;
pub mod ring;
pub mod verdict;

pub use broadcast::{BroadcastLine, MessageCopy, ReceiverEvent, judge_broadcast};
pub use format::{
    BadLine, Kind, LineFault, RingShape, kind_of, parse_broadcast, parse_queue, parse_ring,
};
pub use message::Message;
pub use queue::{QueueLine, judge_queue};
pub use ring::{
    Cursor, Fate, Judged, Judgement, NumberedLine, RingClaim, RingCopy, RingLine, arranged,
    judge_ring, judge_threads, ring_before,
};
pub use verdict::Verdict;
