//! The words of a plain ring. Its own words have marks. Slots have the headers and the words of the bodies at the same
//! indexes.
ghost use Rattle.std.specs.Prelude.{◌≡◌, ◌≢◌, ℕ, ◌+◌, ◌-◌, ◌/◌, ◌≤◌, ◌==◌, if◌then◌else◌, List, length, replicate, set, slice_index, Err, IfErr, IfOk, None, Some};
ghost use Rattle.ring_layout.specs.{declared.message.Claim.Claim, History.overwritten, Places.index, Places.IsCapacity};
ghost use Rattle.ring_layout.specs.{Layout.ring_words, Refusals.IsRefusedBy};
ghost use Rattle.ring_snapshot.specs.declared.ring_finding.RingFinding.TheVariants.{BadBodies, BadSize};
ghost use Rattle.ring_snapshot.specs.{Marks.header_with, PlainRecords.IsPlain, PlainRecords.LiesBetween};
ghost use Rattle.ring_snapshot.specs.PlainWords.{joined, joined_from, span_at, with_body, with_record, with_zeros};

use crate::ring::RingSnapshot;
use crate::ring::mark::{header_with, mark_at, run_of};
use crate::ring_finding::RingFinding;
use ring_layout::mark_descriptor::PADDING_KIND;
use ring_layout::record_descriptor::PADDING_MSG_TYPE_ID;
use ring_layout::{align8, unpack_header, word_index};

impl<'a> RingSnapshot<'a> {
    ghost use Rattle.std.specs.Prelude.{◌≡◌, ◌+◌, ◌≤◌};
    ghost use Rattle.ring_snapshot.specs.PlainWords.{span_at};

    /// Returns the number of bytes that a record with this header takes at a position, or 0 if no record has this
    /// header.
    fn span_at(&self, tail: u64, at: u64, header: u64) -> u64
        requires { at ≤ tail }
        ensures span { result ≡ span_at self.now.capacity tail at header }
    {
        let (len, type_id) = unpack_header(header);
        let length = len.unsigned_abs();
        let is_passed = len > 0 && type_id == PADDING_MSG_TYPE_ID;
        if self.is_length(tail, at, length) && (type_id > 0 || is_passed) {
            align8(u64::from(length))
        } else {
            0
        }
    }
}

/// Sets `count` words from an index on to 0.
fn fill_zeros(words: &mut [u64], index: usize, count: usize)
    requires inside { index + count ≤ length words.old }
    ensures words { words.new ≡ overwritten index (replicate count 0) words.old }
    ensures length { length words.new ≡ length words.old }
    ensures others { (i : ℕ) → index + count ≤ i → slice_index words.new i ≡ slice_index words.old i }
{
    words[index..index + count].fill(0);
}

/// Writes the `count` words after the header at an index in the format. They are zeros if the mark is that of padding,
/// and otherwise those of the slots.
fn join_body(words: &mut [u64], slots: &[u64], mark: u64, index: usize, count: usize)
    requires inside { (index + 1 + count ≤ length slots.now) × (length slots.now ≤ length words.old) }
    ensures words { words.new ≡ with_body slots.now mark index count words.old }
    ensures length { length words.new ≡ length words.old }
    ensures others { (i : ℕ) → length slots.now ≤ i → slice_index words.new i ≡ slice_index words.old i }
{
    let (from, end) = (index + 1, index + 1 + count);
    if mark % 8 == PADDING_KIND {
        fill_zeros(words, from, count);
    } else {
        words[from..end].copy_from_slice(&slots[from..end]);
    }
}

/// Writes the record at a position with this mark in the format, or only its header if no record has this header.
/// Returns the number of bytes that the record takes, or 0 if there is no record.
fn join_record(
    words: &mut [u64],
    slots: &[u64],
    capacity: u32,
    tail: u64,
    mark: u64,
    at: u64,
) -> u64
    requires lawful { IsCapacity capacity }
    requires sizes { (length words.old ≡ ring_words capacity) × (length slots.now ≡ capacity / 8) }
    requires order { at ≤ tail }
    ensures span { result ≡ span_at capacity tail at (header_with capacity slots.now tail mark at) }
    ensures words { words.new
        ≡ (if result == 0 then set words.old (index capacity at) (header_with capacity slots.now tail mark at)
        else with_record capacity slots.now tail mark at result words.old) }
    ensures inside { at + result ≤ tail }
    ensures length { length words.new ≡ length words.old }
    ensures trailer { (i : ℕ) → capacity / 8 ≤ i → slice_index words.new i ≡ slice_index words.old i }
{
    let index = word_index(capacity, at);
    let header = header_with(slots, capacity, tail, mark, at);
    let ring = RingSnapshot {
        capacity,
        words: &*words,
    };
    let bytes = ring.span_at(tail, at, header);
    if bytes > 0 {
        join_body(words, slots, mark, index, bytes as usize / 8 - 1);
    }
    words[index] = header;
    bytes
}

/// Writes the records between these positions in the format, up to the first header that no record has.
#[tactic(auto, using(crate::proofs::JoinLemmas::joined_goes, crate::proofs::JoinLemmas::joined_over))]
fn join_records(words: &mut [u64], slots: &[u64], capacity: u32, head: u64, tail: u64)
    requires lawful { IsCapacity capacity }
    requires sizes { (length words.old ≡ ring_words capacity) × (length slots.now ≡ capacity / 8) }
    requires order { head ≤ tail }
    ensures joined { words.new ≡ joined_from capacity slots.now tail ((tail - head) / 8) 0 head words.old }
    ensures length { length words.new ≡ length words.old }
    ensures trailer { (i : ℕ) → capacity / 8 ≤ i → slice_index words.new i ≡ slice_index words.old i }
{
    let (mut at, mut run) = (head, 0);
    for _k in 0..(tail - head) / 8 {
        if at >= tail {
            return;
        }
        let mark = mark_at(&*words, capacity, run, at);
        let bytes = join_record(words, slots, capacity, tail, mark, at);
        if bytes == 0 {
            return;
        }
        run = run_of(mark);
        at += bytes;
    }
}

/// Sets `count` words from a position on to 0. After the end of the buffer the words go on at its start.
fn clear_words(words: &mut [u64], capacity: u32, at: u64, count: usize)
    requires lawful { IsCapacity capacity }
    requires sizes { (length words.old ≡ ring_words capacity) × (count ≤ capacity / 8) }
    ensures words { words.new ≡ with_zeros capacity at count words.old }
    ensures length { length words.new ≡ length words.old }
    ensures trailer { (i : ℕ) → capacity / 8 ≤ i → slice_index words.new i ≡ slice_index words.old i }
{
    let index = word_index(capacity, at);
    let first = count.min(capacity as usize / 8 - index);
    fill_zeros(words, index, first);
    fill_zeros(words, 0, count - first);
}

/// Makes the words of a ring in the format from the words of a plain ring and from `slots`. The slots are
/// `capacity / 8` words, which have the headers and the bodies at the same indexes. All listings can read the result.
///
/// The call goes from the head to the tail, one record after another. Padding gets its header, and zeros after it. Any
/// other record gets its header and its body, in each state. A mark of kind 0 can be that of a run of committed
/// records, which goes on up to the end in the mark. Inside of the run the call reads the headers in the slots, and no
/// words.
///
/// The call ends at a word that is no mark, which becomes 0, and at a mark that makes no sense. [`header_at`] says
/// which marks these are, and what they become. At a record of a run, it is the mark of the run that makes no sense. A
/// mark also makes no sense if its record would cross the end of the buffer or the tail. The words after these two stay
/// as they are.
///
/// All words of the buffer that are not between the head and the tail become 0. No word is changed if the positions
/// make no sense. If the words and the slots have a history between the head and the tail, the result has the words of
/// the history.
///
/// Returns `BadSize` if no ring has this many words. Otherwise returns `BadBodies` if there are not as many slots as
/// words of the buffer. After an error no word is changed.
pub fn join_bodies(words: &mut [u64], slots: &[u64]) -> Result<(), RingFinding>
    ensures no_ring { ((C : ℕ) → IsCapacity C → length words.old ≢ ring_words C)
        → result ≡ Err (BadSize (length words.old)) }
    ensures refused { (C : ℕ) → IsCapacity C → length words.old ≡ ring_words C
        → IsRefusedBy (if length slots.now == C / 8 then None else Some (BadBodies (length slots.now))) result }
    ensures same { IfErr result (λ _. words.new ≡ words.old) }
    ensures joined { (C : ℕ) → IsCapacity C → length words.old ≡ ring_words C
        → IfOk result (λ _. words.new ≡ joined C slots.now words.old) }
    ensures history { (C : ℕ) (h : List Claim) → IsCapacity C → length words.old ≡ ring_words C
        → IsPlain C words.old slots.now h → IfOk result (λ _. LiesBetween C words.old words.new h) }
    ensures length { length words.new ≡ length words.old }
    ensures trailer { (i : ℕ) → length words.old ≤ i + 96 → slice_index words.new i ≡ slice_index words.old i }
{
    let ring = RingSnapshot::new(&*words)?;
    let (capacity, head, tail) = (ring.capacity(), ring.head(), ring.tail());
    let is_ordered = ring.check_positions(head, tail).is_ok();
    if slots.len() != capacity as usize / 8 {
        return Err(RingFinding::BadBodies { words: slots.len() });
    }
    if is_ordered {
        let rest = (u64::from(capacity) - (tail - head)) / 8;
        clear_words(words, capacity, tail, rest as usize);
        join_records(words, slots, capacity, head, tail);
    }
    Ok(())
}
