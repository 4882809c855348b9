//! The marks in the words of a plain ring.
ghost use Rattle.std.specs.Prelude.{◌≡◌, ℕ, ◌+◌, ◌-◌, ◌/◌, ◌%◌, ◌<◌, ◌≤◌, ◌<ℤ◌, pos, length, slice_index};
ghost use Rattle.ring_layout.specs.{Marks.padding_kind, declared.message.Claim.Claim, Places.index, Places.IsCapacity};
ghost use Rattle.ring_layout.specs.{Headers.header_of, Headers.padding_header, Layout.ring_words, Layout.tail_index};
ghost use Rattle.ring_snapshot.specs.Marks.{HasMark, header_as, header_at, header_with, is_end, is_message_of, mark_at, marked_header, run_of};
ghost use Rattle.ring_snapshot.specs.RingRecords.{length_in};

use ring_layout::mark_descriptor::{ABORTED_KIND, COMMITTED_KIND, OPEN_KIND, PADDING_KIND};
use ring_layout::record_descriptor::PADDING_MSG_TYPE_ID;
use ring_layout::ring_buffer_descriptor::TAIL_POSITION_WORD;
use ring_layout::{align8, pack_header, padding_header, unpack_header, word_index};

/// The header of a mark that makes no sense. No record has the length 1.
pub const BAD_HEADER: u64 = 1;

/// Tests whether a record of `len` bytes may have a mark of this kind that ends `bytes` bytes after its position. The
/// record ends there too, or it is in a run of committed records, which ends at most `most` bytes after its position.
fn is_end(most: u64, bytes: u64, kind: u64, len: u64) -> bool
    ensures { result ≡ is_end most bytes kind len }
{
    len == bytes || kind == COMMITTED_KIND && len < bytes && bytes <= most
}

/// Tests whether a slot has the header of a message whose record may have such a mark.
fn is_message_of(most: u64, bytes: u64, kind: u64, slot: u64) -> bool
    ensures { result ≡ is_message_of most bytes kind slot }
{
    let (len, type_id) = unpack_header(slot);
    len > 0 && type_id > 0 && is_end(most, bytes, kind, align8(u64::from(len.unsigned_abs())))
}

/// Returns the header of a message in a slot, in the form that a record of this kind has.
fn header_as(kind: u64, slot: u64) -> u64
    requires { pos 0 <ℤ length_in slot }
    ensures { result ≡ header_as kind slot }
{
    let (len, type_id) = unpack_header(slot);
    if kind == OPEN_KIND {
        pack_header(-len, type_id)
    } else if kind == ABORTED_KIND {
        pack_header(len, PADDING_MSG_TYPE_ID)
    } else {
        slot
    }
}

/// Returns the header of a record or of padding in the format. Its mark ends `bytes` bytes after its position, the tail
/// is `most` bytes after it, and `slot` is in its first slot.
fn marked_header(most: u64, bytes: u64, kind: u64, slot: u64) -> u64
    ensures { result ≡ marked_header most bytes kind slot }
{
    if kind == PADDING_KIND {
        if bytes < 1 << 31 {
            padding_header(bytes)
        } else {
            BAD_HEADER
        }
    } else if kind <= ABORTED_KIND && is_message_of(most, bytes, kind, slot) {
        header_as(kind, slot)
    } else {
        BAD_HEADER
    }
}

/// Returns the mark of what is at a position. If a run that began before goes on up to `run`, and the position is in
/// it, this is the mark of the run. Otherwise it is the word there.
pub(crate) fn mark_at(words: &[u64], capacity: u32, run: u64, at: u64) -> u64
    requires lawful { IsCapacity capacity }
    requires sizes { length words.now ≡ ring_words capacity }
    ensures { result ≡ mark_at capacity words.now run at }
{
    if at < run {
        run
    } else {
        words[word_index(capacity, at)]
    }
}

/// Returns the end of the run with this mark, or 0 if the mark is not that of committed records.
pub(crate) fn run_of(mark: u64) -> u64
    ensures { result ≡ run_of mark }
{
    if mark % 8 == COMMITTED_KIND { mark } else { 0 }
}

/// Returns the header that this mark shows at a position.
pub(crate) fn header_with(slots: &[u64], capacity: u32, tail: u64, mark: u64, at: u64) -> u64
    requires lawful { IsCapacity capacity }
    requires sizes { length slots.now ≡ capacity / 8 }
    ensures header { result ≡ header_with capacity slots.now tail mark at }
    ensures claim { (c : Claim) → HasMark capacity tail slots.now at mark c → result ≡ header_of c }
{
    if mark <= at {
        return 0;
    }
    let kind = mark % 8;
    let bytes = (mark - kind).saturating_sub(at);
    marked_header(
        tail.saturating_sub(at),
        bytes,
        kind,
        slots[word_index(capacity, at)],
    )
}

/// Returns the header that the word at a position of a plain ring shows, as the format has it. `words` are those of a
/// ring of `capacity` bytes, and `slots` are the `capacity / 8` words with the messages and their headers.
///
/// Returns the header of the claim or of the padding whose mark the word is. If the mark is that of a run of committed
/// records, it is the header of the first one. Returns 0 if the word is no mark. Then nothing was stored for the
/// position, or it is inside of a record or of a run. Returns `BAD_HEADER` if the mark makes no sense:
/// - its kind is above 3;
/// - padding has 2^31 bytes or more;
/// - the header in the slot is no header of a message;
/// - the record would not end at the end in the mark, and it is no record of a run: the kind is not 0, the record would
///   end after the mark, or the end in the mark is above the tail.
pub fn header_at(words: &[u64], slots: &[u64], capacity: u32, at: u64) -> u64
    requires lawful { IsCapacity capacity }
    requires sizes { (length words.now ≡ ring_words capacity) × (length slots.now ≡ capacity / 8) }
    ensures header { result ≡ header_at capacity words.now slots.now at }
    ensures claim { (c : Claim) → HasMark capacity (slice_index words.now (tail_index capacity)) slots.now at
        (slice_index words.now (index capacity at)) c → result ≡ header_of c }
    ensures padding { (n : ℕ) → at % 8 ≡ 0 → n % 8 ≡ 0 → 0 < n → n ≤ capacity
        → slice_index words.now (index capacity at) ≡ at + n + padding_kind → result ≡ padding_header n }
    ensures none { slice_index words.now (index capacity at) ≤ at → result ≡ 0 }
{
    let tail = words[capacity as usize / 8 + TAIL_POSITION_WORD];
    header_with(slots, capacity, tail, words[word_index(capacity, at)], at)
}
