//! Calls on rings of each form, and what they return.
use ring_words::{ClaimFault, Standing, Stop};

/// A call on a ring, on one of its seats or on a claim.
#[derive(Clone, Copy)]
pub enum Call<'a> {
    Write(i32, &'a [u8]),
    Read(u32),
    ControlledRead(u32),
    ReadAcross(u32),
    /// A read of up to this many messages, with the positions before and after it.
    Standing(u32),
    Positions,
    Used,
    Capacity,
    MaxMessage,
    /// How many messages were shown up to now, or what is known of them in their place.
    Shown,
    /// A claim is made, and is the last one from now on.
    Claim(i32, usize),
    /// The claim before the last one is the last one from now on.
    Turn,
    /// Bytes are put at an offset into the last claim.
    Put(usize, &'a [u8]),
    /// The last claim is committed, and the one before it is the last one from now on.
    Commit,
    /// The same, but it is aborted.
    Abort,
    /// Only on a ring of one owner.
    Word(usize),
    /// Only on a ring of one owner.
    Drain,
    /// Only on a shared ring, like the calls below.
    CorrelationId,
    Heartbeat,
    SetHeartbeat(u64),
    /// The shares and the open claims of the producer.
    Holds,
    /// The other producer works from now on. It is made if there is none.
    Swap,
    /// The other producer is joined. Of the open claims of each, one stays open.
    Join,
}

/// What a call returns.
#[derive(Clone, Copy, Debug, PartialEq, Eq)]
pub enum Said {
    Done,
    Refused(ClaimFault),
    Contended,
    /// Messages, bytes, and why it stopped.
    Read(u32, u64, Stop),
    Stands(Standing),
    Word(Option<u64>),
    /// Head and tail.
    At(u64, u64),
    Number(u64),
    /// A claim was made: its place, its index and the bytes of its body.
    Made(u64, u32, usize),
    /// A claim without a body was made: its place and its index.
    MadeEmpty(u64, u32),
    /// The bytes did not fit.
    Outside,
    /// Shares and open claims of a producer.
    Holds(u32, u64),
    /// There is nothing for this call.
    Missing,
}

impl Said {
    /// What a claim that was made says.
    pub fn made(place: u64, index: u32, len: usize, is_empty: bool) -> Said {
        if is_empty {
            Said::MadeEmpty(place, index)
        } else {
            Said::Made(place, index, len)
        }
    }
}
