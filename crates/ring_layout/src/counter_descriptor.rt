//! The layout of a counter's two records, after Agrona's `CountersReader` and `CountersManager`.
//!
//! ```text
//!   A metadata record, 512 bytes, 64 words
//!
//!    0        4        8              16                128        132              512
//!   +--------+--------+--------------+-----------------+----------+----------------+
//!   | state  | type   | free for     | key,            | label    | label,         |
//!   |        | id     | reuse from   | 112 bytes       | length   | 380 bytes      |
//!   +--------+--------+--------------+-----------------+----------+----------------+
//!   | word 0          | word 1       | words 2 to 15   | words 16 to 63            |
//!
//!   A value record, 128 bytes, 16 words
//!
//!    0            8              16             24             32                 128
//!   +------------+--------------+--------------+--------------+--------------------+
//!   | value      | registration | owner id     | reference id | zeros              |
//!   |            | id           |              | (always 0)   |                    |
//!   +------------+--------------+--------------+--------------+--------------------+
//!   | word 0     | word 1       | word 2       | word 3       | words 4 to 15      |
//! ```
//!
//! All numbers are little-endian. The value is signed. The records of the counter with the id n begin n times the
//! record's length after the start. An unused record is all zeros.

/// The length of a metadata record, in bytes.
pub const METADATA_LENGTH: usize = 512;

/// The number of words of a metadata record.
pub const METADATA_WORDS: usize = METADATA_LENGTH / 8;

/// The byte offset of the state in a metadata record. The state has 32 bits.
pub const STATE_OFFSET: usize = 0;

/// The byte offset of the type id in a metadata record. The type id has 32 bits.
pub const TYPE_ID_OFFSET: usize = 4;

/// The byte offset of the reuse deadline in a metadata record. The deadline has 64 bits, and is in milliseconds. A
/// freed id may be allocated again from this moment on.
pub const FREE_FOR_REUSE_DEADLINE_OFFSET: usize = 8;

/// The byte offset of the key in a metadata record.
pub const KEY_OFFSET: usize = 16;

/// The byte offset of the label's length in a metadata record. The length has 32 bits. The label follows its length.
pub const LABEL_OFFSET: usize = 128;

/// The index of the word that has the state in its low half and the type id in its high half.
pub const STATE_WORD: usize = STATE_OFFSET / 8;

/// The index of the word of the reuse deadline.
pub const FREE_FOR_REUSE_DEADLINE_WORD: usize = FREE_FOR_REUSE_DEADLINE_OFFSET / 8;

/// The index of the first word of the key.
pub const KEY_WORD: usize = KEY_OFFSET / 8;

/// The index of the word that has the label's length in its low half and the label's first four bytes in its high half.
pub const LABEL_WORD: usize = LABEL_OFFSET / 8;

/// The largest number of bytes of a key. A shorter key is followed by zeros.
pub const MAX_KEY_LENGTH: usize = LABEL_OFFSET - KEY_OFFSET;

/// The number of bytes of the label's length.
pub const LABEL_LENGTH_BYTES: usize = 4;

/// The number of bytes of the label's length and the label together.
pub const FULL_LABEL_LENGTH: usize = METADATA_LENGTH - LABEL_OFFSET;

/// The largest number of bytes of a label.
pub const MAX_LABEL_LENGTH: usize = FULL_LABEL_LENGTH - LABEL_LENGTH_BYTES;

/// The state of a record that was never used.
pub const RECORD_UNUSED: i32 = 0;

/// The state of the record of a counter in use.
pub const RECORD_ALLOCATED: i32 = 1;

/// The state of the record of a counter that was freed.
pub const RECORD_RECLAIMED: i32 = -1;

/// The deadline of a counter in use.
pub const NOT_FREE_FOR_REUSE: u64 = (1 << 63) - 1;

/// The length of a value record, in bytes.
pub const COUNTER_LENGTH: usize = 128;

/// The number of words of a value record.
pub const COUNTER_WORDS: usize = COUNTER_LENGTH / 8;

/// The byte offset of the value in a value record. The value has 64 bits, and is signed.
pub const VALUE_OFFSET: usize = 0;

/// The byte offset of the registration id in a value record. The registration id has 64 bits.
pub const REGISTRATION_ID_OFFSET: usize = 8;

/// The byte offset of the owner's id in a value record. The owner's id has 64 bits.
pub const OWNER_ID_OFFSET: usize = 16;

/// The byte offset of the reference id in a value record. The reference id has 64 bits, and is always 0.
pub const REFERENCE_ID_OFFSET: usize = 24;

/// The index of the word of the value.
pub const VALUE_WORD: usize = VALUE_OFFSET / 8;

/// The index of the word of the registration id.
pub const REGISTRATION_ID_WORD: usize = REGISTRATION_ID_OFFSET / 8;

/// The index of the word of the owner's id.
pub const OWNER_ID_WORD: usize = OWNER_ID_OFFSET / 8;

/// The index of the word of the reference id.
pub const REFERENCE_ID_WORD: usize = REFERENCE_ID_OFFSET / 8;

/// The largest number of counters that a manager keeps.
pub const MAX_COUNTERS: u32 = 4096;

/// The latest moment that a caller may pass, in milliseconds.
pub const MAX_MOMENT: u64 = 1 << 62;
