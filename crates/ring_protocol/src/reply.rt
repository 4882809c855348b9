//! The replies of the conductor, and their encoding as bytes.
ghost use Rattle.ring_protocol.specs.Writing.{EncodesReply};

pub mod decode;

use crate::fields::write_fields;

/// The type ids of replies.
pub mod type_ids {
    /// The type id of `Reply::Allocated`.
    pub const ALLOCATED: i32 = 101;

    /// The type id of `Reply::Done`.
    pub const DONE: i32 = 102;

    /// The type id of `Reply::Refused`.
    pub const REFUSED: i32 = 103;

    /// The type id of `Reply::Closed`.
    pub const CLOSED: i32 = 104;
}

/// The number of bytes of the longest reply.
pub const LONGEST_REPLY: usize = 12;

/// The reply to the command with the same correlation id.
#[derive(Clone, Copy, Debug, PartialEq, Eq)]
pub enum Reply {
    /// A counter was allocated. This is its id.
    Allocated { correlation: u64, id: u32 },
    /// The counter was freed or set.
    Done { correlation: u64 },
    /// Nothing was done. The reason has this number, as `RefusalCode` says.
    Refused { correlation: u64, code: i32 },
    /// This many counters of the owner were freed.
    Closed { correlation: u64, freed: u32 },
}

impl Reply {
    ghost use Rattle.std.specs.Prelude.{◌≡◌, length};
    ghost use Rattle.ring_protocol.specs.Reply.{correlation_id_of, spelling_of, type_id_of};

    /// Returns the type id of the message that encodes the reply.
    pub fn type_id(&self) -> i32
        ensures { result ≡ type_id_of self.now }
    {
        match self {
            Reply::Allocated { .. } => type_ids::ALLOCATED,
            Reply::Done { .. } => type_ids::DONE,
            Reply::Refused { .. } => type_ids::REFUSED,
            Reply::Closed { .. } => type_ids::CLOSED,
        }
    }

    /// Returns the correlation id of the command to which this is the reply.
    pub fn correlation(&self) -> u64
        ensures { result ≡ correlation_id_of self.now }
    {
        match *self {
            Reply::Allocated { correlation, .. } => correlation,
            Reply::Done { correlation } => correlation,
            Reply::Refused { correlation, .. } => correlation,
            Reply::Closed { correlation, .. } => correlation,
        }
    }

    /// Returns the length in bytes of the encoding. It is 8 for `Done`, and otherwise 12.
    #[tactic(auto, unfolding(crate::specs::Field::u32_field, crate::specs::Field::u64_field, crate::specs::Field::i32_field))]
    pub fn encoded_len(&self) -> usize
        ensures { result ≡ length (spelling_of self.now) }
    {
        match self {
            Reply::Done { .. } => 8,
            Reply::Allocated { .. } | Reply::Refused { .. } | Reply::Closed { .. } => LONGEST_REPLY,
        }
    }
}

/// Encodes the reply at the start of the output, and returns the number of bytes. This number is 8 for `Done`, and
/// otherwise 12. The rest of the output is unchanged.
pub fn encode_reply(reply: &Reply, out: &mut [u8; 12]) -> usize
    ensures { EncodesReply reply.now out.old out.new result }
{
    match *reply {
        Reply::Allocated { correlation, id } => {
            write_fields(out, &[&correlation.to_le_bytes(), &id.to_le_bytes()]).unwrap()
        }
        Reply::Done { correlation } => write_fields(out, &[&correlation.to_le_bytes()]).unwrap(),
        Reply::Refused { correlation, code } => {
            write_fields(out, &[&correlation.to_le_bytes(), &code.to_le_bytes()]).unwrap()
        }
        Reply::Closed { correlation, freed } => {
            write_fields(out, &[&correlation.to_le_bytes(), &freed.to_le_bytes()]).unwrap()
        }
    }
}
