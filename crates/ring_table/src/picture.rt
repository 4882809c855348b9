//! The words of a closed ring whose bodies lie in slots, in the ring's format.
ghost use Rattle.std.specs.Prelude.{◌≡◌, ℕ, List, ◌+◌, ◌/◌, ◌%◌, ◌≤◌, ◌<◌, vec_len};
ghost use Rattle.std.specs.Slots.{slots_items, slots_len, IsFull};
ghost use Rattle.ring_layout.specs.Layout.{ring_words};
ghost use Rattle.ring_table.specs.{declared.view.Key.Key as TheKey, Closed.IsClosed, Closed.IsLeft, Closed.LeavesRest};
ghost use Rattle.ring_table.specs.{Owners.all_of, Staged.elsewhere, Staged.shown_header, Staged.staged_end, Views.View};
ghost use Rattle.ring_table.specs.Walk.{IsCopied, Parts, Walked};

use crate::decode::{decode_marks, spread_runs};
use atomic_table::Closed;
use ring_layout::ring_buffer_descriptor::{HEAD_POSITION_WORD, TAIL_POSITION_WORD, TRAILER_WORDS};
use ring_layout::{align8, word_index};
use std::alloc::Global;

/// A header as the formats have it.
pub(crate) fn formatted(header: u64) -> u64
    ensures { result ≡ shown_header elsewhere header }
{
    if header / 0x1_0000_0000 == 0xffff_fffe {
        header + 0x1_0000_0000
    } else {
        header
    }
}

/// Copies the words of a table that was closed.
pub fn copy_words(closed: &Closed<u64, Global>, words: &mut Vec<u64>)
    requires { IsFull closed.now.words × (slots_len closed.now.words ≡ vec_len words.old) }
    ensures { words.new.items ≡ slots_items closed.now.words }
{
    for i in 0..words.len() {
        words[i] = closed.word(i);
    }
}

/// Copies `count` slots, from `first` on, into the words of the same indices.
pub(crate) fn copy_range(
    closed: &Closed<u64, Global>,
    words: &mut Vec<u64>,
    first: usize,
    count: usize,
)
    requires full { IsFull closed.now.slots }
    requires slots { first + count ≤ slots_len closed.now.slots }
    requires words { first + count ≤ vec_len words.old }
    ensures { IsCopied first count (slots_items closed.now.slots) words.old.items words.new.items }
{
    for k in first..first + count {
        words[k] = *closed.slots.get(k);
    }
}

/// Adds the body of the record at a position, or gives the padding there its header in the format. Returns the position
/// after it.
fn show_record(closed: &Closed<u64, Global>, words: &mut Vec<u64>, capacity: u32, at: u64) -> u64
    requires slots { IsFull closed.now.slots × (slots_len closed.now.slots ≡ capacity / 8) }
    requires words { vec_len words.old ≡ ring_words capacity }
    requires walk { (heads : List ℕ) × (t : Parts capacity heads (slots_items closed.now.slots))
        × Walked capacity t at words.old.items × (at < staged_end t.start (all_of t.hist)) }
    ensures rises { at < result }
    ensures words { vec_len words.new ≡ vec_len words.old }
    ensures walks { (heads : List ℕ) (t : Parts capacity heads (slots_items closed.now.slots))
        → Walked capacity t at words.old.items → at < staged_end t.start (all_of t.hist)
        → Walked capacity t result words.new.items }
{
    let index = word_index(capacity, at);
    let header = words[index];
    let shown = formatted(header);
    let bytes = align8(shown % 0x1_0000_0000);
    if shown == header {
        copy_range(closed, words, index + 1, bytes as usize / 8 - 1);
    } else {
        words[index] = shown;
    }
    at + bytes
}

/// Adds the bodies to words that show the headers alone of a table that was closed.
fn show_bodies(closed: &Closed<u64, Global>, words: &mut Vec<u64>, capacity: u32)
    requires slots { IsFull closed.now.slots × (slots_len closed.now.slots ≡ capacity / 8) }
    requires words { vec_len words.old ≡ ring_words capacity }
    requires parts { Parts capacity words.old.items (slots_items closed.now.slots) }
    ensures { (t : Parts capacity words.old.items (slots_items closed.now.slots))
        → Walked capacity t (staged_end t.start (all_of t.hist)) words.new.items }
{
    let tail = words[capacity as usize / 8 + TAIL_POSITION_WORD];
    let mut at = words[capacity as usize / 8 + HEAD_POSITION_WORD];
    while at < tail {
        at = show_record(closed, words, capacity, at);
    }
}

/// Frees a table that was closed, with its slots.
pub(crate) fn free_slots(mut closed: Closed<u64, Global>)
    requires { IsFull closed.slots }
{
    let mut i = 0;
    while i < closed.slot_count() {
        closed.take(i);
        i += 1;
    }
    closed.free();
}

/// The words of a ring whose bodies lie in slots, in `room`, from what its table left. They are those of a ring whose
/// bodies lie in words.
pub fn show_slots(closed: Closed<u64, Global>, room: Vec<u64>) -> Vec<u64>
    requires left { (k : TheKey) × (v : View) × IsLeft elsewhere k v closed
        × (slots_len closed.slots ≡ k.capacity / 8) }
    requires room { vec_len room ≡ slots_len closed.words }
    ensures { (k : TheKey) (v : View) → IsLeft elsewhere k v closed
        → IsClosed k.capacity k.start result.items v × LeavesRest k.capacity result.items v }
{
    let mut words = room;
    copy_words(&closed, &mut words);
    let capacity = ((words.len() - TRAILER_WORDS) * 8) as u32;
    spread_runs(&closed, &mut words, capacity);
    decode_marks(&closed, &mut words, capacity);
    show_bodies(&closed, &mut words, capacity);
    free_slots(closed);
    words
}
