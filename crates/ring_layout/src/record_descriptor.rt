//! The layout of a record, after Agrona's `RecordDescriptor`.
//!
//! ```text
//!    0        4        8                        8 + n    span
//!   +--------+--------+------------------------+--------+
//!   | length | type   | message, n bytes       | zeros  |
//!   +--------+--------+------------------------+--------+
//!    the header word    length = 8 + n           up to a multiple of 8
//! ```
//!
//! All numbers are little-endian. While a record is claimed and not settled, its length is negated. An aborted record
//! and padding have the type id -1. A header that is not yet stored is 0.
ghost use Rattle.std.specs.Prelude.{◌≡◌, ◌+◌, ◌-◌, ◌*◌, ◌/◌, ◌%◌, ◌^◌, ◌<◌, ◌≤◌, ℤ, FitsSigned};
ghost use Rattle.std.specs.Int.{cast_signed, w32};
ghost use Rattle.ring_layout.specs.Headers.{header, open_header, committed_header, aborted_header, padding_header};
ghost use Rattle.ring_layout.specs.History.{span};

/// The length of a header, in bytes.
pub const HEADER_LENGTH: usize = 8;

/// The byte offset of the length in a header.
pub const LENGTH_OFFSET: usize = 0;

/// The byte offset of the type id in a header.
pub const TYPE_OFFSET: usize = 4;

/// The byte offset of the message in a record.
pub const ENCODED_MSG_OFFSET: usize = HEADER_LENGTH;

/// Records begin and end at multiples of this many bytes.
pub const ALIGNMENT: usize = HEADER_LENGTH;

/// The type id of padding and of aborted records.
pub const PADDING_MSG_TYPE_ID: i32 = -1;

/// Rounds a number of bytes, at most 2^64 - 8, up to a multiple of 8.
pub fn align8(bytes: u64) -> u64
    requires { bytes ≤ 2 ^ 64 - 8 }
    ensures { result ≡ (bytes + 7) / 8 * 8 }
{
    (bytes + 7) & !7
}

/// Returns the number of bytes that the record of a message of `len` bytes takes, for `len` up to 2^64 - 16. The record
/// has a header and the message, and is rounded up to a multiple of 8. Padding before the record is not counted.
pub fn span(len: usize) -> u64
    requires { len ≤ 2 ^ 64 - 16 }
    ensures { result ≡ span len }
{
    align8(HEADER_LENGTH as u64 + len as u64)
}

/// Returns the header word of a record. The length is in its low half, and the type id in its high half.
pub fn pack_header(len: i32, type_id: i32) -> u64
    ensures { result ≡ header len type_id }
{
    u64::from(type_id.cast_unsigned()) << 32 | u64::from(len.cast_unsigned())
}

/// Returns the length and the type id of a header word. The function is the inverse of `pack_header`.
pub fn unpack_header(word: u64) -> (i32, i32)
    ensures len { result.0 ≡ cast_signed w32 (word % 2 ^ 32) }
    ensures type_id { result.1 ≡ cast_signed w32 (word / 2 ^ 32) }
    ensures packed { header result.0 result.1 ≡ word }
    ensures unpacked { (len type_id : ℤ) → FitsSigned w32 len → FitsSigned w32 type_id → word ≡ header len type_id
        → (result.0 ≡ len) × (result.1 ≡ type_id) }
{
    let len = (word & 0xffff_ffff) as u32;
    let type_id = (word >> 32) as u32;
    (len.cast_signed(), type_id.cast_signed())
}

/// Returns the header word of an open claim of a message with `len` bytes. The length is negated until the claim is
/// settled.
#[inline]
pub fn open_header(type_id: i32, len: usize) -> u64
    requires { 8 + len < 2 ^ 31 }
    ensures { result ≡ open_header type_id len }
{
    pack_header(-((HEADER_LENGTH + len) as i32), type_id)
}

/// Returns the header word of a committed record of a message with `len` bytes.
#[inline]
pub fn committed_header(type_id: i32, len: usize) -> u64
    requires { 8 + len < 2 ^ 31 }
    ensures { result ≡ committed_header type_id len }
{
    pack_header((HEADER_LENGTH + len) as i32, type_id)
}

/// Returns the header word of an aborted record of a message with `len` bytes. The word is the same as that of padding.
#[inline]
pub fn aborted_header(len: usize) -> u64
    requires { 8 + len < 2 ^ 31 }
    ensures { result ≡ aborted_header len }
{
    pack_header((HEADER_LENGTH + len) as i32, PADDING_MSG_TYPE_ID)
}

/// Returns the header word of padding of this many bytes, which include the bytes of this word.
#[inline]
pub fn padding_header(bytes: u64) -> u64
    requires { bytes < 2 ^ 31 }
    ensures { result ≡ padding_header bytes }
{
    pack_header(bytes as i32, PADDING_MSG_TYPE_ID)
}
