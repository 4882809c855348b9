//! The search for counters among the words of memory.
ghost use Rattle.std.specs.Prelude.{◌≡◌, ℕ, ◌+◌, ◌<◌, ◌≤◌, false, true, drop, length, IfNone, IfSome};
ghost use Rattle.ring_snapshot.specs.CounterSearch.{is_counter_at, looks_like_counter};

use crate::search::first_index;
use ring_layout::counter_descriptor::{
    FREE_FOR_REUSE_DEADLINE_WORD, LABEL_WORD, MAX_LABEL_LENGTH, METADATA_WORDS, NOT_FREE_FOR_REUSE,
    RECORD_ALLOCATED, STATE_WORD,
};
use ring_layout::unpack_header;

/// Tests whether a metadata record of a counter in use begins with these words. Its state is that of a counter in use,
/// its deadline is 2^63 - 1, and its label is not longer than its room.
fn looks_like_counter(metadata: &[u64]) -> bool
    requires { 64 ≤ length metadata.now }
    ensures { result ≡ looks_like_counter metadata.now }
{
    let (length, _) = unpack_header(metadata[LABEL_WORD]);
    if length < 0 || length > MAX_LABEL_LENGTH as i32 {
        return false;
    }
    let (state, _) = unpack_header(metadata[STATE_WORD]);
    state == RECORD_ALLOCATED && metadata[FREE_FOR_REUSE_DEADLINE_WORD] == NOT_FREE_FOR_REUSE
}

/// Returns the first index from `from` on at which the metadata of a counter in use begin among words of memory.
/// Returns `None` if there is no such index. The values of the counter are elsewhere, and memory does not say at which
/// place.
pub fn next_counter(words: &[u64], from: usize) -> Option<usize>
    ensures found { IfSome result (λ at. (from ≤ at) × (at + 64 ≤ length words.now)
        × (is_counter_at words.now at ≡ true)) }
    ensures first { IfSome result (λ at. (k : ℕ) → from ≤ k → k < at → is_counter_at words.now k ≡ false) }
    ensures none { IfNone result ((k : ℕ) → from ≤ k → k + 64 ≤ length words.now
        → is_counter_at words.now k ≡ false) }
{
    let is_at = |at: usize| -> bool
        requires { at + 64 ≤ length words.now }
        ensures { is_counter_at words.entry.now at ≡ result }
    { looks_like_counter(&words[at..]) };
    first_index(words, METADATA_WORDS, from, is_at)
}
