//! Messages of a recorded run.

/// What a recorder says of a message: who sent it, its number among that producer's calls, and a checksum of its
/// bytes. Two messages are the same if these three are.
#[derive(Clone, Copy, Debug, PartialEq, Eq)]
pub struct Message {
    /// The producer.
    pub producer: u16,
    /// The number that the producer gave to the call.
    pub number: u64,
    /// The checksum of its bytes, or another number that depends on them.
    pub body: u64,
}
