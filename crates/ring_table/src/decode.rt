//! The headers of a table that was closed, from its marks and its slots.
ghost use Rattle.std.specs.Prelude.{◌≡◌, ◌≢◌, ◌⊎◌, ℕ, ◌+◌, ◌/◌, ◌%◌, ◌^◌, ◌≤◌, ◌<◌, List, slice_index, vec_len};
ghost use Rattle.std.specs.Slots.{slots_items, slots_len, IsFull};
ghost use Rattle.ring_layout.specs.Layout.{head_index, ring_words};
ghost use Rattle.ring_layout.specs.{Marks.committed_kind, Places.index, Places.max_position, Places.IsCapacity};
ghost use Rattle.ring_table.specs.Marks.{decoded, AreMarked, IsDecoded, MayDecode, ShowsRuns, Spreads};

use atomic_table::Closed;
use ring_layout::mark_descriptor::{ABORTED_KIND, COMMITTED_KIND, PADDING_KIND};
use ring_layout::ring_buffer_descriptor::HEAD_POSITION_WORD;
use ring_layout::{align8, open_header, pack_header, word_index};
use std::alloc::Global;

/// The type id of padding in headers of which the bodies lie in slots.
const PADDING_MARK: i32 = -2;

/// Returns the header of what a word shows at a position, if the first slot has this word. Returns 0 if the word is no
/// mark. The header of an open claim has the type id 1 and a body that fills the record, since the slots may be out.
pub fn decode_mark(at: u64, mark: u64, slot: u64) -> u64
    requires { MayDecode at mark }
    ensures { result ≡ decoded at mark slot }
{
    if mark <= at {
        return 0;
    }
    let kind = mark % 8;
    if kind == COMMITTED_KIND {
        return slot;
    }
    let bytes = mark - kind - at;
    if kind == PADDING_KIND {
        return pack_header(bytes as i32, PADDING_MARK);
    }
    if kind == ABORTED_KIND {
        return 0xffff_ffff_0000_0000 + slot % 0x1_0000_0000;
    }
    open_header(1, bytes as usize - 8)
}

/// How far a walk over the words has come: nothing begins before `next`, and up to `end` lies the rest of a run.
#[derive(Clone, Copy)]
pub(crate) struct Spread {
    pub(crate) next: u64,
    pub(crate) end: u64,
}

/// The end of the run of the record at a position that has this mark, if the run that the walk is in ends at `end`. If no
/// committed record is there, it is the position.
fn run_end(at: u64, mark: u64, end: u64) -> u64
    ensures inside { at < end → result ≡ end }
    ensures marked { end ≤ at → at < mark → mark % 8 ≡ committed_kind → result ≡ mark }
    ensures none { end ≤ at → (mark ≤ at) ⊎ (mark % 8 ≢ committed_kind) → result ≡ at }
{
    if at < end {
        return end;
    }
    if mark <= at {
        return at;
    }
    if mark % 8 == COMMITTED_KIND { mark } else { at }
}

/// Gives the record at a position a mark of its own, if it is committed.
pub(crate) fn spread_mark(
    closed: &Closed<u64, Global>,
    words: &mut Vec<u64>,
    capacity: u32,
    at: u64,
    walk: Spread,
) -> Spread
    requires slots { IsFull closed.now.slots × (slots_len closed.now.slots ≡ capacity / 8) }
    requires capacity { IsCapacity capacity }
    requires words { vec_len words.old ≡ ring_words capacity }
    requires near { at ≤ 2 ^ 63 }
    requires walk { (head : ℕ) × (old headers : List ℕ)
        × (r : ShowsRuns capacity head (slots_items closed.now.slots) old headers)
        × Spreads capacity head headers r.ends old words.old.items at walk.next walk.end × (at < head + capacity) }
    ensures long { vec_len words.new ≡ vec_len words.old }
    ensures trailer { (i : ℕ) → capacity / 8 ≤ i → slice_index words.new.items i ≡ slice_index words.old.items i }
    ensures walks { (head : ℕ) (old headers : List ℕ)
        (r : ShowsRuns capacity head (slots_items closed.now.slots) old headers)
        → Spreads capacity head headers r.ends old words.old.items at walk.next walk.end → at < head + capacity
        → Spreads capacity head headers r.ends old words.new.items (at + 8) result.next result.end }
{
    if at < walk.next {
        return walk;
    }
    let index = word_index(capacity, at);
    let mark = words[index];
    let end = run_end(at, mark, walk.end);
    if end <= at {
        return Spread {
            next: at + 8,
            end: at + 8,
        };
    }
    let header = *closed.slots.get(index);
    let next = at + align8(header % 0x1_0000_0000);
    words[index] = next;
    Spread { next, end }
}

/// Gives each committed record a mark of its own: a mark may cover a run of records.
pub(crate) fn spread_runs(closed: &Closed<u64, Global>, words: &mut Vec<u64>, capacity: u32)
    requires slots { IsFull closed.now.slots × (slots_len closed.now.slots ≡ capacity / 8) }
    requires capacity { IsCapacity capacity }
    requires words { vec_len words.old ≡ ring_words capacity }
    requires head { (slice_index words.old.items (head_index capacity) % 8 ≡ 0)
        × (slice_index words.old.items (head_index capacity) ≤ max_position) }
    requires runs { (headers : List ℕ) × ShowsRuns capacity (slice_index words.old.items (head_index capacity))
        (slots_items closed.now.slots) words.old.items headers }
    ensures long { vec_len words.new ≡ vec_len words.old }
    ensures trailer { (i : ℕ) → capacity / 8 ≤ i → slice_index words.new.items i ≡ slice_index words.old.items i }
    ensures marks { (headers : List ℕ) → ShowsRuns capacity (slice_index words.old.items (head_index capacity))
        (slots_items closed.now.slots) words.old.items headers
        → AreMarked capacity (slice_index words.old.items (head_index capacity)) words.new.items headers }
{
    let head = words[capacity as usize / 8 + HEAD_POSITION_WORD];
    let mut walk = Spread {
        next: head,
        end: head,
    };
    for k in 0..capacity as u64 / 8 {
        walk = spread_mark(closed, words, capacity, head + 8 * k, walk);
    }
}

/// Puts the headers that the marks and the slots show in place of the marks.
pub(crate) fn decode_marks(closed: &Closed<u64, Global>, words: &mut Vec<u64>, capacity: u32)
    requires slots { IsFull closed.now.slots × (slots_len closed.now.slots ≡ capacity / 8) }
    requires capacity { IsCapacity capacity }
    requires words { vec_len words.old ≡ ring_words capacity }
    requires head { (slice_index words.old.items (head_index capacity) % 8 ≡ 0)
        × (slice_index words.old.items (head_index capacity) ≤ max_position) }
    requires marks { (p : ℕ) → p % 8 ≡ 0 → slice_index words.old.items (head_index capacity) ≤ p
        → p < slice_index words.old.items (head_index capacity) + capacity
        → MayDecode p (slice_index words.old.items (index capacity p)) }
    ensures long { vec_len words.new ≡ vec_len words.old }
    ensures headers { IsDecoded capacity (slice_index words.old.items (head_index capacity))
        (slots_items closed.now.slots) words.old.items words.new.items }
    ensures trailer { (i : ℕ) → capacity / 8 ≤ i → slice_index words.new.items i ≡ slice_index words.old.items i }
{
    let head = words[capacity as usize / 8 + HEAD_POSITION_WORD];
    let records = capacity as u64 / 8;
    for k in 0..records {
        let at = head + 8 * k;
        let index = word_index(capacity, at);
        let mark = words[index];
        let slot = *closed.slots.get(index);
        words[index] = decode_mark(at, mark, slot);
    }
}
