//! How a read ends.

/// Why a read stopped.
#[derive(Clone, Copy, Debug, PartialEq, Eq)]
pub enum Stop {
    /// The read took the number of messages that it was limited to.
    Limit,
    /// The end of the buffer was reached. The next read goes on after it.
    Block,
    /// There is no settled record at the head.
    Unpublished,
    /// The handler returned `Abort` or `Break`.
    Action,
}

/// What a read did.
#[derive(Clone, Copy, Debug, PartialEq, Eq)]
pub struct ReadEnd {
    /// The number of messages consumed.
    pub messages: u32,
    /// The number of bytes by which the head moved.
    pub bytes: u64,
    pub stopped: Stop,
}
