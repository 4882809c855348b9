//! A metadata record of 64 words.
ghost use Rattle.std.specs.Prelude.{◌≡◌, ℕ, ◌+◌, ◌*◌, ◌/◌, ◌^◌, ◌<◌, ◌≤◌, length, slice_index};
ghost use Rattle.ring_layout.specs.Bytes.{word_of_bytes};
ghost use Rattle.ring_counters.specs.Counter.{Allocated, Metadata, Reclaimed, zero_padded, unused_metadata};
ghost use Rattle.ring_counters.specs.Counter.{deadline_of, label_text, metadata_word, state_of, state_word};

use crate::records::bytes::load_bytes;
use ring_layout::counter_descriptor::{
    FREE_FOR_REUSE_DEADLINE_WORD, KEY_OFFSET, KEY_WORD, LABEL_LENGTH_BYTES, LABEL_OFFSET,
    LABEL_WORD, MAX_KEY_LENGTH, MAX_LABEL_LENGTH, METADATA_WORDS, NOT_FREE_FOR_REUSE,
    RECORD_ALLOCATED, RECORD_RECLAIMED, STATE_WORD,
};
use ring_layout::{first_word, store_bytes};
use std::marker::Model;

#[derive(Drop)]
pub(crate) struct MetadataRecord {
    words: [u64; METADATA_WORDS],
}

impl Model for MetadataRecord {
    ghost use Rattle.ring_counters.specs.{Counter.Metadata, Records.metadata_of, Records.SomeMetadata};

    ghost Value = { Metadata };

    ghost view = { λ r. metadata_of r.words };

    ghost invariant = { λ r. SomeMetadata r.words };
}

/// Returns the word that has a state in its low half and a type id in its high half.
fn pack_state(state: i32, type_id: i32) -> u64
    ensures { result ≡ state_word state type_id }
{
    u64::from(type_id.cast_unsigned()) << 32 | u64::from(state.cast_unsigned())
}

/// Stores a label's length and the label, from the word `at` on. Zeros follow the label up to the end of its last word.
fn store_label(words: &mut [u64], at: usize, label: &[u8])
    requires short { length label.now ≤ 380 }
    requires room { at + (length label.now + 11) / 8 ≤ length words.old }
    ensures inside { (k : ℕ) → 8 * k < length label.now + 4
        → slice_index words.new (at + k) ≡ word_of_bytes (label_text label.now) k }
    ensures below { (i : ℕ) → i < at → slice_index words.new i ≡ slice_index words.old i }
    ensures above { (i : ℕ) → at + (length label.now + 11) / 8 ≤ i → slice_index words.new i ≡ slice_index words.old i }
{
    // The first 4 bytes of the label are in one word with its length.
    words[at] = first_word(label) << 32 | label.len() as u64;
    store_bytes(words, at + 1, &label[label.len().min(LABEL_LENGTH_BYTES)..]);
}

impl MetadataRecord {
    pub(crate) fn unused() -> Self
        ensures { result ≡ unused_metadata }
    {
        MetadataRecord {
            words: [0; METADATA_WORDS],
        }
    }

    /// Makes all words of the record those of a counter in use.
    pub(crate) fn allocate(&mut self, type_id: i32, key: &[u8], label: &[u8])
        requires key { length key.now ≤ 112 }
        requires label { length label.now ≤ 380 }
        ensures { self.new
            ≡ record { status = Allocated; type_id = type_id; key = zero_padded 112 key.now; label = label.now } }
    {
        self.words = [0; METADATA_WORDS];
        self.words[STATE_WORD] = pack_state(RECORD_ALLOCATED, type_id);
        self.words[FREE_FOR_REUSE_DEADLINE_WORD] = NOT_FREE_FOR_REUSE;
        store_bytes(&mut self.words, KEY_WORD, key);
        store_label(&mut self.words, LABEL_WORD, label);
    }

    /// Marks the record as reclaimed. The other words stay until the id is allocated again.
    pub(crate) fn reclaim(&mut self, deadline: u64)
        ensures { self.new ≡ record self.old { status = Reclaimed deadline } }
    {
        self.words[STATE_WORD] = pack_state(RECORD_RECLAIMED, self.type_id());
        self.words[FREE_FOR_REUSE_DEADLINE_WORD] = deadline;
    }

    pub(crate) fn state(&self) -> i32
        ensures { result ≡ state_of self.now.status }
    {
        ((self.words[STATE_WORD] & 0xffff_ffff) as u32).cast_signed()
    }

    pub(crate) fn type_id(&self) -> i32
        ensures { result ≡ self.now.type_id }
    {
        ((self.words[STATE_WORD] >> 32) as u32).cast_signed()
    }

    pub(crate) fn deadline(&self) -> u64
        ensures { result ≡ deadline_of self.now.status }
    {
        self.words[FREE_FOR_REUSE_DEADLINE_WORD]
    }

    pub(crate) fn key_into(&self, key: &mut [u8; MAX_KEY_LENGTH])
        ensures { key.new ≡ self.now.key }
    {
        load_bytes(&self.words, KEY_OFFSET, key);
    }

    /// Copies the label, with zeros after it, and returns its length.
    pub(crate) fn label_into(&self, label: &mut [u8; MAX_LABEL_LENGTH]) -> usize
        ensures len { result ≡ length self.now.label }
        ensures most { result ≤ 380 }
        ensures label { label.new ≡ zero_padded 380 self.now.label }
    {
        load_bytes(&self.words, LABEL_OFFSET + LABEL_LENGTH_BYTES, label);
        (self.words[LABEL_WORD] & 0xffff_ffff) as usize
    }

    pub(crate) fn word(&self, k: usize) -> u64
        requires { k < 64 }
        ensures { result ≡ metadata_word self.now k }
    {
        self.words[k]
    }
}
