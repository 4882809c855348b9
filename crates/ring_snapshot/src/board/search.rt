//! The search for broadcast buffers among the words of memory.
ghost use Rattle.std.specs.Prelude.{◌≡◌, ℕ, ◌+◌, ◌<◌, ◌≤◌, false, true, length, IfNone, IfSome};
ghost use Rattle.ring_layout.specs.Places.{IsBoardCapacity};
ghost use Rattle.ring_board.specs.Layout.{board_words};
ghost use Rattle.ring_snapshot.specs.BoardSearch.{is_board_at};

use crate::board::BoardSnapshot;
use crate::search::{are_zero, first_index};
use ring_layout::broadcast_buffer_descriptor::TRAILER_WORDS;
use ring_layout::is_board_capacity;

impl<'a> BoardSnapshot<'a> {
    ghost use Rattle.std.specs.Prelude.{◌≡◌, ◌+◌, ◌/◌, ◌<◌, ◌≤◌, length};
    ghost use Rattle.ring_snapshot.specs.BoardRecords.{intent_in, latest_in, tail_in};
    ghost use Rattle.ring_snapshot.specs.BoardSearch.{has_sound_records, looks_like_board};

    /// Tests whether the positions make sense, and whether all that `records` lists are records.
    #[tactic(auto, using(crate::proofs::SearchLemmas::not_refused, crate::proofs::SearchLemmas::is_refused))]
    fn has_sound_records(&self) -> bool
        ensures { result ≡ has_sound_records self.now.capacity self.now.words.now (intent_in self.now) (tail_in self.now)
            (latest_in self.now) }
    {
        match self.records() {
            Ok(records) => records.are_records(),
            Err(_finding) => false,
        }
    }

    /// Tests whether the words are those of a broadcast buffer that was used. All of these must hold:
    /// - A record is before the tail.
    /// - The words of the trailer without a name are 0.
    /// - The positions make sense.
    /// - All that [`BoardSnapshot::records`] lists are records, and the last of them ends at the tail.
    pub fn looks_like_one(&self) -> bool
        ensures { result ≡ looks_like_board self.now.capacity self.now.words.now }
    {
        self.latest() < self.tail()
            && are_zero(self.words, self.capacity as usize / 8 + 3, 13)
            && self.has_sound_records()
    }
}

/// Returns the first index from `from` on at which a broadcast buffer of this capacity begins among words of memory.
/// The broadcast buffer was used, as [`BoardSnapshot::looks_like_one`] tests. Returns `None` if there is no such index,
/// or if no broadcast buffer has this capacity.
pub fn next_board(words: &[u64], from: usize, capacity: u32) -> Option<usize>
    ensures found { IfSome result (λ at. (from ≤ at) × (at + board_words capacity ≤ length words.now)
        × (is_board_at capacity words.now at ≡ true)) }
    ensures first { IfSome result (λ at. (k : ℕ) → from ≤ k → k < at → is_board_at capacity words.now k ≡ false) }
    ensures none { IfNone result (IsBoardCapacity capacity → (k : ℕ) → from ≤ k
        → k + board_words capacity ≤ length words.now → is_board_at capacity words.now k ≡ false) }
{
    if !is_board_capacity(capacity) {
        return None;
    }
    let size = capacity as usize / 8 + TRAILER_WORDS;
    let is_at = |at: usize| -> bool
        requires { IsBoardCapacity capacity × (size ≡ board_words capacity) × (at + size ≤ length words.now) }
        ensures { is_board_at capacity words.entry.now at ≡ result }
    {
        let words = &words[at..at + size];
        BoardSnapshot { capacity, words }.looks_like_one()
    };
    first_index(words, size, from, is_at)
}
