//! The search for rings among the words of memory.
ghost use Rattle.std.specs.Prelude.{◌≡◌, ℕ, ◌+◌, ◌-◌, ◌/◌, ◌%◌, ◌<◌, ◌≤◌, false, true, length, IfNone, IfSome};
ghost use Rattle.ring_layout.specs.{Places.IsCapacity, Layout.ring_words};
ghost use Rattle.ring_snapshot.specs.Search.{is_ring_at};

use crate::listing::Listing;
use crate::ring::RingSnapshot;
use crate::search::{are_zero, first_index};
use ring_layout::ring_buffer_descriptor::TRAILER_WORDS;
use ring_layout::{is_capacity, word_index};

impl<'a> RingSnapshot<'a> {
    ghost use Rattle.std.specs.Prelude.{◌≡◌, ◌+◌, ◌-◌, ◌*◌, ◌/◌, ◌%◌, ◌^◌, ◌<◌, ◌≤◌, length};
    ghost use Rattle.ring_layout.specs.Layout.{head_index, ring_words, tail_index};
    ghost use Rattle.ring_snapshot.specs.RingRecords.{head_in, tail_in};
    ghost use Rattle.ring_snapshot.specs.Search.{has_clear_trailer, is_clear, is_used_buffer, looks_like_ring};

    /// Tests whether the words of the trailer without a name are 0.
    fn has_clear_trailer(&self) -> bool
        ensures { result ≡ has_clear_trailer self.now.capacity self.now.words.now }
    {
        let trailer = self.capacity as usize / 8;
        are_zero(self.words, trailer, 16)
            && are_zero(self.words, trailer + 17, 15)
            && are_zero(self.words, trailer + 33, 15)
            && are_zero(self.words, trailer + 49, 15)
            && are_zero(self.words, trailer + 65, 15)
            && are_zero(self.words, trailer + 81, 15)
    }

    /// Tests whether `count` words from a position on are 0. After the end of the buffer the words go on at its start.
    fn is_clear(&self, from: u64, count: usize) -> bool
        requires { 8 * count ≤ self.now.capacity }
        ensures { result ≡ is_clear self.now.capacity self.now.words.now count from }
    {
        let index = word_index(self.capacity, from);
        let first = count.min(self.capacity as usize / 8 - index);
        are_zero(self.words, index, first) && are_zero(self.words, 0, count - first)
    }

    /// Tests whether the words are those of a ring. The test covers the head and the tail, what is listed between them,
    /// and the rest of the buffer.
    fn is_used(&self, head: u64, tail: u64) -> bool
        ensures { result ≡ is_used_buffer self.now.capacity self.now.words.now head tail }
    {
        if tail > 1 << 62 || self.check_positions(head, tail).is_err() {
            return false;
        }
        if head != tail && self.words[word_index(self.capacity, head)] == 0 {
            return false;
        }
        let rest = (head + u64::from(self.capacity) - tail) / 8;
        Listing::new(*self, head, tail).are_records() && self.is_clear(tail, rest as usize)
    }

    /// Tests whether the words are those of a ring that was used. All of these must hold:
    /// - Something was claimed.
    /// - The words of the trailer without a name are 0.
    /// - The head and the tail make sense.
    /// - All that is listed between them are records, and the first of them has its header.
    /// - The rest of the buffer is 0.
    pub fn looks_like_one(&self) -> bool
        ensures { result ≡ looks_like_ring self.now.capacity self.now.words.now }
    {
        self.tail() > 0 && self.has_clear_trailer() && self.is_used(self.head(), self.tail())
    }
}

/// Returns the first index from `from` on at which a ring of this capacity begins among words of memory. The ring was
/// used, as [`RingSnapshot::looks_like_one`] tests. Returns `None` if there is no such index, or if no ring has this
/// capacity.
pub fn next_ring(words: &[u64], from: usize, capacity: u32) -> Option<usize>
    ensures found { IfSome result (λ at. (from ≤ at) × (at + ring_words capacity ≤ length words.now)
        × (is_ring_at capacity words.now at ≡ true)) }
    ensures first { IfSome result (λ at. (k : ℕ) → from ≤ k → k < at → is_ring_at capacity words.now k ≡ false) }
    ensures none { IfNone result (IsCapacity capacity → (k : ℕ) → from ≤ k
        → k + ring_words capacity ≤ length words.now → is_ring_at capacity words.now k ≡ false) }
{
    if !is_capacity(capacity) {
        return None;
    }
    let size = capacity as usize / 8 + TRAILER_WORDS;
    let is_at = |at: usize| -> bool
        requires { IsCapacity capacity × (size ≡ ring_words capacity) × (at + size ≤ length words.now) }
        ensures { is_ring_at capacity words.entry.now at ≡ result }
    {
        let words = &words[at..at + size];
        RingSnapshot { capacity, words }.looks_like_one()
    };
    first_index(words, size, from, is_at)
}
