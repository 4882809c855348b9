//! The commands that a client sends to the conductor, and their encoding as bytes.
ghost use Rattle.std.specs.Prelude.{◌≡◌, ◌+◌, ◌^◌, ◌<◌, ◌↔◌, ℕ, length, IfSome, IsSome};
ghost use Rattle.ring_protocol.specs.Command.{Allocate, AllocateOwned, Close, Free, Set, asked, content_of, with_id};
ghost use Rattle.ring_protocol.specs.Writing.{Encodes};

pub mod decode;

use crate::fields::{len_field, write_fields};

/// The type ids of commands.
pub mod type_ids {
    /// The type id of `Command::Allocate`.
    pub const ALLOCATE: i32 = 1;

    /// The type id of `Command::Free`.
    pub const FREE: i32 = 2;

    /// The type id of `Command::Set`.
    pub const SET: i32 = 3;

    /// The type id of `Command::AllocateOwned`.
    pub const ALLOCATE_OWNED: i32 = 4;

    /// The type id of `Command::Close`.
    pub const CLOSE: i32 = 5;
}

/// The number of bytes of the longest command whose key has at most 112 bytes and whose label has at most 380 bytes, as
/// those of a counter have.
pub const LONGEST_COMMAND: usize = 520;

/// A request to the conductor, which is a command without its correlation id. The key and the label are of type `T`.
/// This is `&[u8]` in a request that is sent, and `Vec<u8>` in a request that owns them.
#[derive(Clone, Copy, Debug, PartialEq, Eq, Drop)]
pub enum Request<T> {
    /// Makes a counter of this type.
    Allocate {
        type_id: i32,
        key: T,
        label: T,
    },
    /// Frees the counter with this id.
    Free {
        id: u32,
    },
    /// Sets the value of the counter with this id.
    Set {
        id: u32,
        value: i64,
    },
    /// Makes a counter that belongs to this owner.
    AllocateOwned {
        type_id: i32,
        owner: u64,
        key: T,
        label: T,
    },
    /// Frees each counter of this owner.
    Close {
        owner: u64,
    },
}

impl Request<Vec<u8>> {
    ghost use Rattle.ring_protocol.specs.Command.{content_of_owned, content_of_request};

    /// Returns the same request, with a key and a label that it borrows from this one.
    pub fn as_slices(&self) -> Request<&[u8]>
        ensures { content_of_request result ≡ content_of_owned self.now }
    {
        match self {
            Request::Allocate {
                type_id,
                key,
                label,
            } => Request::Allocate {
                type_id: *type_id,
                key: key.as_slice(),
                label: label.as_slice(),
            },
            Request::Free { id } => Request::Free { id: *id },
            Request::Set { id, value } => Request::Set {
                id: *id,
                value: *value,
            },
            Request::AllocateOwned {
                type_id,
                owner,
                key,
                label,
            } => Request::AllocateOwned {
                type_id: *type_id,
                owner: *owner,
                key: key.as_slice(),
                label: label.as_slice(),
            },
            Request::Close { owner } => Request::Close { owner: *owner },
        }
    }
}

impl Request<&[u8]> {
    ghost use Rattle.ring_protocol.specs.Command.{HasTextLengths, asked, content_of_request};
    ghost use Rattle.ring_protocol.specs.Command.{request_type_id, spelling_of};

    /// Returns the type id of the message that encodes the command.
    pub fn type_id(&self) -> i32
        ensures { result ≡ request_type_id (content_of_request self.now) }
    {
        match self {
            Request::Allocate { .. } => type_ids::ALLOCATE,
            Request::Free { .. } => type_ids::FREE,
            Request::Set { .. } => type_ids::SET,
            Request::AllocateOwned { .. } => type_ids::ALLOCATE_OWNED,
            Request::Close { .. } => type_ids::CLOSE,
        }
    }

    /// Returns the length in bytes of the encoding of the command, with any correlation id. The length is at most
    /// `LONGEST_COMMAND` if the key and the label are not too long for a counter. Returns `None` if the key or the
    /// label is longer than 2^32 - 1 bytes, since such a command cannot be encoded.
    pub fn encoded_len(&self) -> Option<usize>
        ensures fits { IsSome result ↔ HasTextLengths (content_of_request self.now) }
        ensures len { (correlation : ℕ) → IfSome result (λ n. n ≡ length (spelling_of (asked self.now correlation))) }
    {
        match self {
            Request::Allocate { key, label, .. } => Some(12 + sized_len(key)? + sized_len(label)?),
            Request::Free { .. } => Some(12),
            Request::Set { .. } => Some(20),
            Request::AllocateOwned { key, label, .. } => {
                Some(20 + sized_len(key)? + sized_len(label)?)
            }
            Request::Close { .. } => Some(16),
        }
    }
}

/// A command, which is a request with its correlation id. The reply to the command has the same correlation id. A
/// command that was decoded borrows its key and its label from the bytes.
#[derive(Clone, Copy, Debug, PartialEq, Eq)]
pub enum Command<'a> {
    /// Makes a counter of this type. The registration id of the counter is the correlation id.
    Allocate {
        correlation: u64,
        type_id: i32,
        key: &'a [u8],
        label: &'a [u8],
    },
    /// Frees the counter with this id.
    Free {
        correlation: u64,
        id: u32,
    },
    /// Sets the value of the counter with this id.
    Set {
        correlation: u64,
        id: u32,
        value: i64,
    },
    /// Makes a counter that belongs to this owner.
    AllocateOwned {
        correlation: u64,
        type_id: i32,
        owner: u64,
        key: &'a [u8],
        label: &'a [u8],
    },
    /// Frees each counter of this owner.
    Close {
        correlation: u64,
        owner: u64,
    },
}

impl<'a> Command<'a> {
    ghost use Rattle.ring_protocol.specs.Command.{HasTextLengths, spelling_of, type_id_of};

    /// Returns the request of the command, without the correlation id.
    pub fn request(&self) -> Request<&'a [u8]>
        ensures { asked result (content_of self.now).correlation ≡ content_of self.now }
    {
        match *self {
            Command::Allocate {
                type_id,
                key,
                label,
                ..
            } => Request::Allocate {
                type_id,
                key,
                label,
            },
            Command::Free { id, .. } => Request::Free { id },
            Command::Set { id, value, .. } => Request::Set { id, value },
            Command::AllocateOwned {
                type_id,
                owner,
                key,
                label,
                ..
            } => Request::AllocateOwned {
                type_id,
                owner,
                key,
                label,
            },
            Command::Close { owner, .. } => Request::Close { owner },
        }
    }

    /// Returns the correlation id, which the reply has too.
    pub fn correlation(&self) -> u64
        ensures { result ≡ (content_of self.now).correlation }
    {
        match *self {
            Command::Allocate { correlation, .. } => correlation,
            Command::Free { correlation, .. } => correlation,
            Command::Set { correlation, .. } => correlation,
            Command::AllocateOwned { correlation, .. } => correlation,
            Command::Close { correlation, .. } => correlation,
        }
    }

    /// Returns the type id of the message that encodes the command.
    pub fn type_id(&self) -> i32
        ensures { result ≡ type_id_of (content_of self.now) }
    {
        self.request().type_id()
    }

    /// Returns the length in bytes of the encoding of the command. The length is at most `LONGEST_COMMAND` if the key
    /// and the label are not too long for a counter. Returns `None` if the key or the label is longer than 2^32 - 1
    /// bytes, since such a command cannot be encoded.
    pub fn encoded_len(&self) -> Option<usize>
        ensures fits { IsSome result ↔ HasTextLengths (content_of self.now).request }
        ensures len { IfSome result (λ n. n ≡ length (spelling_of (content_of self.now))) }
    {
        self.request().encoded_len()
    }
}

/// Returns the number of bytes of a field that has these bytes after their length. Returns `None` if four bytes cannot
/// hold the length.
fn sized_len(bytes: &[u8]) -> Option<usize>
    ensures fits { IsSome result ↔ (length bytes.now < 2 ^ 32) }
    ensures len { IfSome result (λ n. n ≡ 4 + length bytes.now) }
{
    u32::try_from(bytes.len()).ok()?;
    Some(4 + bytes.len())
}

fn encode_allocate(
    out: &mut [u8],
    correlation: u64,
    type_id: i32,
    key: &[u8],
    label: &[u8],
) -> Option<usize>
    ensures { Encodes (with_id correlation (Allocate type_id key.now label.now)) out.old out.new result }
{
    write_fields(
        out,
        &[
            &correlation.to_le_bytes(),
            &type_id.to_le_bytes(),
            &len_field(key)?,
            key,
            &len_field(label)?,
            label,
        ],
    )
}

fn encode_free(out: &mut [u8], correlation: u64, id: u32) -> Option<usize>
    ensures { Encodes (with_id correlation (Free id)) out.old out.new result }
{
    write_fields(out, &[&correlation.to_le_bytes(), &id.to_le_bytes()])
}

fn encode_set(out: &mut [u8], correlation: u64, id: u32, value: i64) -> Option<usize>
    ensures { Encodes (with_id correlation (Set id value)) out.old out.new result }
{
    write_fields(
        out,
        &[
            &correlation.to_le_bytes(),
            &id.to_le_bytes(),
            &value.to_le_bytes(),
        ],
    )
}

fn encode_allocate_owned(
    out: &mut [u8],
    correlation: u64,
    type_id: i32,
    owner: u64,
    key: &[u8],
    label: &[u8],
) -> Option<usize>
    ensures { Encodes (with_id correlation (AllocateOwned type_id owner key.now label.now)) out.old out.new result }
{
    write_fields(
        out,
        &[
            &correlation.to_le_bytes(),
            &type_id.to_le_bytes(),
            &owner.to_le_bytes(),
            &len_field(key)?,
            key,
            &len_field(label)?,
            label,
        ],
    )
}

fn encode_close(out: &mut [u8], correlation: u64, owner: u64) -> Option<usize>
    ensures { Encodes (with_id correlation (Close owner)) out.old out.new result }
{
    write_fields(out, &[&correlation.to_le_bytes(), &owner.to_le_bytes()])
}

/// Encodes a request with a correlation id at the start of the output, and returns the number of bytes. The rest of the
/// output is unchanged.
///
/// Returns `None`, and writes nothing, if the encoding does not fit, or if the key or the label is longer than 2^32 - 1
/// bytes.
pub fn encode_request(correlation: u64, request: Request<&[u8]>, out: &mut [u8]) -> Option<usize>
    ensures { Encodes (asked request.entry correlation) out.old out.new result }
{
    match request {
        Request::Allocate {
            type_id,
            key,
            label,
        } => encode_allocate(out, correlation, type_id, key, label),
        Request::Free { id } => encode_free(out, correlation, id),
        Request::Set { id, value } => encode_set(out, correlation, id, value),
        Request::AllocateOwned {
            type_id,
            owner,
            key,
            label,
        } => encode_allocate_owned(out, correlation, type_id, owner, key, label),
        Request::Close { owner } => encode_close(out, correlation, owner),
    }
}

/// Encodes the command at the start of the output, as `encode_request` does.
///
/// Returns `None`, and writes nothing, if the encoding does not fit, or if the key or the label is longer than 2^32 - 1
/// bytes.
pub fn encode_command(command: &Command, out: &mut [u8]) -> Option<usize>
    ensures { Encodes (content_of command.now) out.old out.new result }
{
    encode_request(command.correlation(), command.request(), out)
}
