//! Bodies in a slice of words.
ghost use Rattle.std.specs.Prelude.{◌≡◌, ℕ, ◌+◌, ◌*◌, ◌/◌, ◌%◌, ◌^◌, ◌<◌, ◌≤◌, List, All, length, slice_index};
ghost use Rattle.ring_layout.specs.{Bytes.HoldsBytes, History.overwritten};

use ring_layout::{put_bytes_word, put_part, put_word};

/// Puts bytes into a body that is in the words from `at` on, from its byte `offset` on.
pub(crate) fn overwrite_body(words: &mut [u64], at: usize, offset: usize, bytes: &[u8])
    requires { at + (offset + length bytes.now + 7) / 8 ≤ length words.old }
    ensures inside { (body : List ℕ) → All (λ b. b < 256) body → offset + length bytes.now ≤ length body
        → HoldsBytes words.old at body → HoldsBytes words.new at (overwritten offset bytes.now body) }
    ensures below { (i : ℕ) → i < at → slice_index words.new i ≡ slice_index words.old i }
    ensures above { (i : ℕ) → at + (offset + length bytes.now + 7) / 8 ≤ i
        → slice_index words.new i ≡ slice_index words.old i }
{
    let mut done = 0;
    while done < bytes.len() {
        let (word, byte) = (at + (offset + done) / 8, (offset + done) % 8);
        let count = (8 - byte).min(bytes.len() - done);
        words[word] = put_bytes_word(words[word], byte, &bytes[done..done + count]);
        done += count;
    }
}

/// Copies a body out of the words from `at` on.
pub(crate) fn load_body(words: &[u64], at: usize, body: &mut [u8])
    requires { at + (length body.old + 7) / 8 ≤ length words.now }
    ensures { (k : ℕ) → k < length body.new → slice_index body.new k
        ≡ slice_index words.now (at + k / 8) / 2 ^ (8 * (k % 8)) % 256 }
{
    let whole = body.len() / 8;
    for k in 0..whole {
        put_word(body, 8 * k, words[at + k]);
    }
    if body.len() % 8 > 0 {
        put_part(body, 8 * whole, words[at + whole]);
    }
}

/// Sets `count` words from `at` on to 0, by one fill.
fn fill_zeros(words: &mut [u64], at: usize, count: usize)
    requires { at + count ≤ length words.old }
    ensures inside { (i : ℕ) → at ≤ i → i < at + count → slice_index words.new i ≡ 0 }
    ensures below { (i : ℕ) → i < at → slice_index words.new i ≡ slice_index words.old i }
    ensures above { (i : ℕ) → at + count ≤ i → slice_index words.new i ≡ slice_index words.old i }
{
    words[at..at + count].fill(0);
}

/// Sets `count` words from `at` on to 0.
///
/// Fewer than 8 are covered from both ends by fills of a fixed length, which are plain stores. A fill of unknown length
/// is a call, and the next load after such a short store may have to wait for it.
pub(crate) fn clear(words: &mut [u64], at: usize, count: usize)
    requires { at + count ≤ length words.old }
    ensures inside { (i : ℕ) → at ≤ i → i < at + count → slice_index words.new i ≡ 0 }
    ensures below { (i : ℕ) → i < at → slice_index words.new i ≡ slice_index words.old i }
    ensures above { (i : ℕ) → at + count ≤ i → slice_index words.new i ≡ slice_index words.old i }
{
    if count >= 8 {
        fill_zeros(words, at, count);
    } else if count >= 4 {
        fill_zeros(words, at, 4);
        fill_zeros(words, at + count - 4, 4);
    } else if count >= 2 {
        fill_zeros(words, at, 2);
        fill_zeros(words, at + count - 2, 2);
    } else if count == 1 {
        words[at] = 0;
    }
}
