//! Bytes inside a word, of which the first byte is the lowest, and bytes in several words.
ghost use Rattle.std.specs.Prelude.{◌≡◌, ℕ, ◌+◌, ◌-◌, ◌*◌, ◌/◌, ◌%◌, ◌^◌, ◌<◌, ◌≤◌, length, slice_index, take};
ghost use Rattle.std.specs.Int.{from_le_bytes, to_le_bytes, w64};
ghost use Rattle.ring_layout.specs.{Bytes.HoldsBytes, History.overwritten};

/// Returns the word in which these bytes replace the bytes from `at` on. The bytes are inside the word.
pub fn put_bytes_word(word: u64, at: usize, bytes: &[u8]) -> u64
    requires { at + length bytes.now ≤ 8 }
    ensures { result ≡ from_le_bytes w64 (overwritten at bytes.now (to_le_bytes w64 word)) }
{
    let mut all = word.to_le_bytes();
    all[at..at + bytes.len()].copy_from_slice(bytes);
    u64::from_le_bytes(all)
}

/// Returns the first 8 bytes as a little-endian word, with zeros if there are fewer than 8 bytes.
pub fn first_word(bytes: &[u8]) -> u64
    ensures { result ≡ from_le_bytes w64 bytes.now }
{
    match bytes.first_chunk::<8>() {
        Some(chunk) => u64::from_le_bytes(*chunk),
        None => padded_word(bytes),
    }
}

/// Returns the byte at this place, or 0 if there is no such byte.
fn byte_or_zero(bytes: &[u8], at: usize) -> u8
    ensures { result ≡ slice_index bytes.now at }
{
    bytes.get(at).copied().unwrap_or(0)
}

/// Returns fewer than 8 bytes as a little-endian word, with zeros after them.
fn padded_word(bytes: &[u8]) -> u64
    requires { length bytes.now < 8 }
    ensures { result ≡ from_le_bytes w64 bytes.now }
{
    // The bytes are read one by one. A load of a word right after shorter copies to it would wait for all earlier
    // stores.
    u64::from_le_bytes([
        byte_or_zero(bytes, 0),
        byte_or_zero(bytes, 1),
        byte_or_zero(bytes, 2),
        byte_or_zero(bytes, 3),
        byte_or_zero(bytes, 4),
        byte_or_zero(bytes, 5),
        byte_or_zero(bytes, 6),
        0,
    ])
}

/// Stores bytes in the words from the index `at` on, with zeros up to the end of the last word.
///
/// A word of the slice has 8 bytes, of which the first one is the lowest. The words before and after these words are
/// unchanged.
#[inline]
pub fn store_bytes(words: &mut [u64], at: usize, bytes: &[u8])
    requires { at + (length bytes.now + 7) / 8 ≤ length words.old }
    ensures inside { HoldsBytes words.new at bytes.now }
    ensures below { (i : ℕ) → i < at → slice_index words.new i ≡ slice_index words.old i }
    ensures above { (i : ℕ) → at + (length bytes.now + 7) / 8 ≤ i → slice_index words.new i ≡ slice_index words.old i }
{
    let whole = bytes.len() / 8;
    for k in 0..whole {
        words[at + k] = first_word(&bytes[8 * k..8 * k + 8]);
    }
    if bytes.len() % 8 > 0 {
        words[at + whole] = first_word(&bytes[8 * whole..]);
    }
}

/// Writes the 8 bytes of a word over the bytes from `at` on.
pub fn put_word(bytes: &mut [u8], at: usize, word: u64)
    requires { at + 8 ≤ length bytes.old }
    ensures { bytes.new ≡ overwritten at (to_le_bytes w64 word) bytes.old }
{
    bytes[at..at + 8].copy_from_slice(&word.to_le_bytes());
}

/// Writes the bytes of a word over the bytes from `at` on, up to the end of the slice.
pub fn put_part(bytes: &mut [u8], at: usize, word: u64)
    requires { at ≤ length bytes.old }
    ensures { bytes.new ≡ overwritten at (take (length bytes.old - at) (to_le_bytes w64 word)) bytes.old }
{
    let room = bytes.len() - at;
    if room >= 8 {
        put_word(bytes, at, word);
    } else {
        bytes[at..].copy_from_slice(&word.to_le_bytes()[..room]);
    }
}

/// Returns the byte `at` of a word. `at` is 0 to 7.
pub fn get_byte_word(word: u64, at: usize) -> u8
    requires { at < 8 }
    ensures { result ≡ word / 2 ^ (8 * at) % 256 }
{
    ((word >> (8 * at)) & 0xff) as u8
}
