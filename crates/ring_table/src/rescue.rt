//! How the claims that lost seats left in the words of a table are settled.
ghost use Rattle.std.specs.Prelude.{◌≡◌, ℕ, ◌+◌, ◌/◌, ◌%◌, ◌^◌, ◌≤◌, ◌<◌, List, slice_index, slice_set, vec_len, true, []};
ghost use Rattle.ring_layout.specs.{Layout.head_index, Layout.ring_words, Places.index, Places.IsCapacity};
ghost use Rattle.ring_table.specs.{declared.claim.StagedClaim.StagedClaim, declared.view.Key.Key as TheKey, Views.View};
ghost use Rattle.ring_table.specs.Staged.{elsewhere, in_words, shown_header, staged_end};
ghost use Rattle.ring_table.specs.{Refilling.Filled, Refilling.FillsTo, Refilling.MayFill, Owners.OwnedHistory};
ghost use Rattle.std.specs.Slots.{slots_items, slots_len, IsFull};
ghost use Rattle.ring_table.specs.Rescued.{settled_word, HadHistory, IsSaved, Rescues, Settles, ShowsClaims};

use crate::decode::{decode_marks, spread_runs};
use crate::picture::{copy_range, copy_words, formatted, free_slots};
use atomic_table::Closed;
use ring_layout::ring_buffer_descriptor::{HEAD_POSITION_WORD, TAIL_POSITION_WORD};
use ring_layout::{align8, padding_header, word_index};
use std::alloc::Global;

/// What lost seats had not settled: the number of claims with a header, and the bytes of claims without one.
#[derive(Clone, Copy, Debug, PartialEq, Eq)]
pub struct Unsettled {
    pub claims: u64,
    pub silent: u64,
}

/// The header that a word becomes when its claim is settled.
fn settle_header(word: u64) -> u64
    ensures { result ≡ settled_word word }
{
    let low = word % 0x1_0000_0000;
    if word == 0 {
        padding_header(8)
    } else if low > 0x8000_0000 {
        padding_header(0x1_0000_0000 - low)
    } else {
        word
    }
}

/// Settles the claim whose header is at a position. Returns the word as it was.
fn settle_word(words: &mut Vec<u64>, capacity: u32, at: u64) -> u64
    requires capacity { IsCapacity capacity }
    requires words { vec_len words.old ≡ ring_words capacity }
    ensures word { result ≡ slice_index words.old.items (index capacity at) }
    ensures words { words.new.items ≡ slice_set words.old.items (index capacity at) (settled_word result) }
{
    let index = word_index(capacity, at);
    let word = words[index];
    words[index] = settle_header(word);
    word
}

/// Settles each claim that the words show from the head on, at whatever stage its seat was lost.
pub fn settle_words(words: &mut Vec<u64>, capacity: u32) -> Unsettled
    requires capacity { IsCapacity capacity }
    requires words { vec_len words.old ≡ ring_words capacity }
    requires claims { (cs : List StagedClaim) × ShowsClaims in_words capacity words.old.items cs }
    ensures long { vec_len words.new ≡ vec_len words.old }
    ensures trailer { (i : ℕ) → capacity / 8 ≤ i → slice_index words.new.items i ≡ slice_index words.old.items i }
    ensures settles { (cs : List StagedClaim) → ShowsClaims in_words capacity words.old.items cs
        → Settles capacity (slice_index words.old.items (head_index capacity)) cs words.new.items
        result.claims result.silent }
{
    let tail = words[capacity as usize / 8 + TAIL_POSITION_WORD];
    let mut at = words[capacity as usize / 8 + HEAD_POSITION_WORD];
    let mut claims = 0;
    let mut silent = 0;
    while at < tail {
        let word = settle_word(words, capacity, at);
        if word == 0 {
            silent += 8;
        } else if word % 0x1_0000_0000 > 0x8000_0000 {
            claims += 1;
        }
        at += align8(settle_header(word) % 0x1_0000_0000);
    }
    Unsettled { claims, silent }
}

/// The words of a ring in its format, in `room`, from what a table left of which other seats may be lost. What no seat
/// settled is settled in them.
pub fn rescue_words(
    closed: Closed<u64, Global>,
    capacity: u32,
    room: Vec<u64>,
) -> (Vec<u64>, Unsettled)
    requires left { (k : TheKey) × (v : View) × IsSaved in_words k v closed × (slots_len closed.slots ≡ 0)
        × (k.capacity ≡ capacity) }
    requires room { vec_len room ≡ slots_len closed.words }
    ensures { (k : TheKey) (v : View) (hist : OwnedHistory) (drawn : ℕ) → IsSaved in_words k v closed
        → HadHistory in_words k v closed hist drawn → k.capacity ≡ capacity
        → Rescues capacity k.start v hist drawn result.0.items result.1.claims result.1.silent }
{
    let mut words = room;
    copy_words(&closed, &mut words);
    closed.free();
    let unsettled = settle_words(&mut words, capacity);
    (words, unsettled)
}

/// Gives the headers of words that show headers alone the form of the format.
fn format_headers(words: &mut Vec<u64>, records: usize)
    requires { records ≤ vec_len words.old }
    ensures long { vec_len words.new ≡ vec_len words.old }
    ensures headers { (i : ℕ) → i < records
        → slice_index words.new.items i ≡ shown_header elsewhere (slice_index words.old.items i) }
    ensures trailer { (i : ℕ) → records ≤ i → slice_index words.new.items i ≡ slice_index words.old.items i }
{
    for i in 0..records {
        words[i] = formatted(words[i]);
    }
}

/// Puts the body of the record at a position beside its header, if it is committed. Returns the position after it.
fn add_body(closed: &Closed<u64, Global>, words: &mut Vec<u64>, capacity: u32, at: u64) -> u64
    requires slots { IsFull closed.now.slots × (slots_len closed.now.slots ≡ capacity / 8) }
    requires capacity { IsCapacity capacity }
    requires words { vec_len words.old ≡ ring_words capacity }
    requires walk { (head : ℕ) × (F : ℕ → List ℕ) × (now : List StagedClaim)
        × FillsTo capacity head (slots_items closed.now.slots) F now at words.old.items × (at < staged_end head now) }
    ensures rises { at < result }
    ensures words { vec_len words.new ≡ vec_len words.old }
    ensures trailer { (i : ℕ) → capacity / 8 ≤ i → slice_index words.new.items i ≡ slice_index words.old.items i }
    ensures walks { (head : ℕ) (F : ℕ → List ℕ) (now : List StagedClaim)
        → FillsTo capacity head (slots_items closed.now.slots) F now at words.old.items → at < staged_end head now
        → FillsTo capacity head (slots_items closed.now.slots) F now result words.new.items }
{
    let index = word_index(capacity, at);
    let word = words[index];
    let bytes = align8(word % 0x1_0000_0000);
    if word / 0x1_0000_0000 < 0x8000_0000 {
        copy_range(closed, words, index + 1, bytes as usize / 8 - 1);
    }
    at + bytes
}

/// Puts the bodies of committed records beside their headers.
fn add_bodies(closed: &Closed<u64, Global>, words: &mut Vec<u64>, capacity: u32)
    requires slots { IsFull closed.now.slots × (slots_len closed.now.slots ≡ capacity / 8) }
    requires capacity { IsCapacity capacity }
    requires words { vec_len words.old ≡ ring_words capacity }
    requires claims { (F : ℕ → List ℕ) × (now : List StagedClaim)
        × MayFill capacity (slots_items closed.now.slots) F now words.old.items }
    ensures long { vec_len words.new ≡ vec_len words.old }
    ensures trailer { (i : ℕ) → capacity / 8 ≤ i → slice_index words.new.items i ≡ slice_index words.old.items i }
    ensures filled { (F : ℕ → List ℕ) (now : List StagedClaim)
        → MayFill capacity (slots_items closed.now.slots) F now words.old.items
        → Filled capacity (slice_index words.old.items (head_index capacity)) F now words.new.items }
{
    let tail = words[capacity as usize / 8 + TAIL_POSITION_WORD];
    let mut at = words[capacity as usize / 8 + HEAD_POSITION_WORD];
    while at < tail {
        at = add_body(closed, words, capacity, at);
    }
}

/// The same, from a table whose bodies lie in slots.
pub fn rescue_slots(
    closed: Closed<u64, Global>,
    capacity: u32,
    room: Vec<u64>,
) -> (Vec<u64>, Unsettled)
    requires left { (k : TheKey) × (v : View) × IsSaved elsewhere k v closed × (slots_len closed.slots ≡ k.capacity / 8)
        × (k.capacity ≡ capacity) }
    requires room { vec_len room ≡ slots_len closed.words }
    ensures { (k : TheKey) (v : View) (hist : OwnedHistory) (drawn : ℕ) → IsSaved elsewhere k v closed
        → HadHistory elsewhere k v closed hist drawn → k.capacity ≡ capacity
        → Rescues capacity k.start v hist drawn result.0.items result.1.claims result.1.silent }
{
    let mut words = room;
    copy_words(&closed, &mut words);
    spread_runs(&closed, &mut words, capacity);
    decode_marks(&closed, &mut words, capacity);
    format_headers(&mut words, capacity as usize / 8);
    let unsettled = settle_words(&mut words, capacity);
    add_bodies(&closed, &mut words, capacity);
    free_slots(closed);
    (words, unsettled)
}
