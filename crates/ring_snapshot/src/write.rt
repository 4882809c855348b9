//! Writes the words of a ring, a closed broadcast buffer or counters.
ghost use Rattle.std.specs.Prelude.{◌≡◌, ℕ, List, OnOk, slice_get};
ghost use Rattle.std.specs.Io.KnownBytes.{Appends};
ghost use Rattle.ring_board.specs.{Closing.closed_words, Records.bytes_of};
ghost use Rattle.ring_counters.specs.Manager.{registry_of};
ghost use Rattle.ring_snapshot.specs.WordLists.{metadata_words, value_words};

use ring_board::ClosedBoard;
use ring_counters::CountersManager;
use ring_layout::counter_descriptor::{COUNTER_WORDS, METADATA_WORDS};
use ring_words::SoloRing;
use std::io::{self, ErrorKind, Write};

/// Memory that can be read as a list of words.
pub trait Words {
    ghost words: { Self → List ℕ };

    /// Returns the word at an index, or `None` after the last word.
    fn word_at(&self, index: usize) -> Option<u64>
        ensures { result ≡ slice_get (words self.now) index };
}

/// The words of the buffer, and then those of the trailer.
impl Words for SoloRing {
    ghost words = { λ r. r.words };

    fn word_at(&self, index: usize) -> Option<u64> {
        self.word(index)
    }
}

/// The words of the buffer, and then those of the trailer.
impl Words for ClosedBoard {
    ghost words = { closed_words };

    fn word_at(&self, index: usize) -> Option<u64> {
        self.word(index)
    }
}

/// The metadata of counters, as 64 words for each id.
#[derive(Drop)]
pub struct CounterMetadata<'a>(pub &'a CountersManager);

impl<'a> Words for CounterMetadata<'a> {
    ghost words = { λ m. metadata_words (registry_of m.0.now) };

    #[tactic(auto, using(crate::proofs::WriteLemmas::at_index, crate::proofs::WriteLemmas::past_index))]
    fn word_at(&self, index: usize) -> Option<u64> {
        let id = index / METADATA_WORDS;
        if id >= self.0.count() as usize {
            return None;
        }
        Some(self.0.metadata_word(id as u32, index % METADATA_WORDS))
    }
}

/// The values of counters, as 16 words for each id.
#[derive(Drop)]
pub struct CounterValueWords<'a>(pub &'a CountersManager);

impl<'a> Words for CounterValueWords<'a> {
    ghost words = { λ m. value_words (registry_of m.0.now) };

    #[tactic(auto, using(crate::proofs::WriteLemmas::at_index, crate::proofs::WriteLemmas::past_index))]
    fn word_at(&self, index: usize) -> Option<u64> {
        let id = index / COUNTER_WORDS;
        if id >= self.0.count() as usize {
            return None;
        }
        Some(self.0.value_word(id as u32, index % COUNTER_WORDS))
    }
}

/// Writes words. Each word is 8 bytes, little-endian. After a short write the call goes on with the rest. It stops at
/// the first error of the writer. Some of the words are then written.
pub fn write_words<S: Words, W: Write>(source: &S, out: &mut W) -> io::Result<()>
    ensures { OnOk result (Appends (W.contents out.old) (W.contents out.new) (bytes_of (S.words source.now))) }
{
    for index in 0..usize::MAX {
        let Some(word) = source.word_at(index) else {
            return Ok(());
        };
        out.write_all(&word.to_le_bytes())?;
    }
    // No memory has this many words.
    Err(io::Error::from(ErrorKind::FileTooLarge))
}
