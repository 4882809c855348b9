//! Runs of a queue, of which only messages are recorded.

pub mod judge;
pub mod sent;
pub mod waiting;

use crate::message::Message;
pub use judge::judge_queue;

/// A line of a recorded run of a queue.
#[derive(Clone, Copy, Debug, PartialEq, Eq)]
pub enum QueueLine {
    /// A producer's call was accepted.
    Sent(Message),
    /// A producer's call was refused.
    Refused(Message),
    /// The consumer was shown a message.
    Got(Message),
    /// The producers had returned, and the consumer found nothing.
    Empty,
    /// The line says nothing: it is empty, or a comment.
    Blank,
}
