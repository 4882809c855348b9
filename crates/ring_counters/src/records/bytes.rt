//! Bytes in words, little-endian.
ghost use Rattle.std.specs.Prelude.{◌≡◌, ℕ, ◌+◌, ◌*◌, ◌/◌, ◌<◌, ◌≤◌, length, slice_index};
ghost use Rattle.ring_counters.specs.Records.{byte_at};

/// Copies bytes from the words, from the byte `from` on.
pub(crate) fn load_bytes(words: &[u64], from: usize, bytes: &mut [u8])
    requires { from + length bytes.old ≤ 8 * length words.now }
    ensures { (k : ℕ) → k < length bytes.new → slice_index bytes.new k ≡ byte_at words.now (from + k) }
{
    for (k, byte) in bytes.iter_mut().enumerate() {
        let at = from + k;
        *byte = ((words[at / 8] >> (8 * (at % 8))) & 0xff) as u8;
    }
}
