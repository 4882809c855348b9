//! The headers that marks and their first slots show.
ghost use Rattle.std.specs.Prelude.{◌≡◌, ◌/◌, ◌+◌, ◌<◌, ◌^◌, length};
ghost use Rattle.ring_layout.specs.{Places.IsCapacity, Layout.ring_words};
ghost use Rattle.ring_table.specs.Marks.{bytes_of, kind_of};
ghost use Rattle.ring_recovery.specs.Headers.{found_at, has_end, header_of_mark, is_of_run, is_stray, mark_in, walk_after, shows};

use ring_layout::mark_descriptor::{ABORTED_KIND, COMMITTED_KIND, OPEN_KIND, PADDING_KIND};
use ring_layout::{align8, word_index};
use ring_snapshot::BAD_HEADER;
use ring_table::decode_mark;

/// A walk over positions. The last committed record that it passed ends at `next`, and the run of this record at `end`.
#[derive(Clone, Copy, Debug)]
pub(crate) struct Walk {
    pub(crate) next: u64,
    pub(crate) end: u64,
}

/// The header at a position, or 0 if none was stored for it, and the walk after the position.
#[derive(Clone, Copy, Debug)]
pub(crate) struct Found {
    pub(crate) header: u64,
    pub(crate) walk: Walk,
}

/// Tests whether a mark at a position ends at a place that a record or padding may have as its end.
fn has_end(at: u64, mark: u64) -> bool
    ensures { result ≡ has_end at mark }
{
    let end = mark - mark % 8;
    end > at && end - at >= 8 && end - at < 1 << 31
}

/// Returns the kind of the record or padding that has this header.
fn kind_of(header: u64) -> u64
    ensures { result ≡ kind_of header }
{
    if header % 0x1_0000_0000 > 0x8000_0000 {
        return OPEN_KIND;
    }
    let type_bits = header / 0x1_0000_0000;
    if type_bits == 0xffff_fffe {
        PADDING_KIND
    } else if type_bits == 0xffff_ffff {
        ABORTED_KIND
    } else {
        COMMITTED_KIND
    }
}

/// Returns the number of bytes of the record or padding that has this header.
fn bytes_of(header: u64) -> u64
    ensures { result ≡ bytes_of header }
{
    let length = header % 0x1_0000_0000;
    if length > 0x8000_0000 {
        return align8(0x1_0000_0000 - length);
    }
    align8(length)
}

/// Tests whether a committed record with this header may begin at a position, in a run that ends at a mark.
fn is_of_run(at: u64, mark: u64, header: u64) -> bool
    requires { at < mark }
    ensures { result ≡ is_of_run at mark header }
{
    let bytes = bytes_of(header);
    bytes >= 8 && bytes <= mark - at && kind_of(header) == COMMITTED_KIND
}

/// Tests whether a mark at a position shows this header.
fn shows(at: u64, mark: u64, header: u64) -> bool
    requires { at < mark }
    ensures { result ≡ shows at mark header }
{
    if !has_end(at, mark) {
        return false;
    }
    if mark % 8 == COMMITTED_KIND {
        is_of_run(at, mark, header)
    } else {
        mark - at == bytes_of(header) + kind_of(header)
    }
}

/// Returns the header that a word and the first slot show at a position. Returns 0 if the word is no mark. Returns a
/// header that no record has if the word is no mark of what it shows.
fn header_of_mark(at: u64, mark: u64, slot: u64) -> u64
    ensures { result ≡ header_of_mark at mark slot }
{
    if mark <= at {
        return 0;
    }
    if !has_end(at, mark) {
        return BAD_HEADER;
    }
    let header = decode_mark(at, mark, slot);
    if shows(at, mark, header) {
        header
    } else {
        BAD_HEADER
    }
}

/// Returns the mark that counts at a position with this word. At each record of a run it is the end of the run.
fn mark_in(walk: Walk, at: u64, word: u64) -> u64
    ensures { result ≡ mark_in walk at word }
{
    if word <= at && walk.next == at {
        walk.end
    } else {
        word
    }
}

/// Tests whether the word at a position is a mark inside of a run, and not the end of the run.
fn is_stray(walk: Walk, at: u64, word: u64) -> bool
    ensures { result ≡ is_stray walk at word }
{
    at < walk.end && at < word && word != walk.end
}

/// Returns the walk after a position that has this mark and this first slot.
fn walk_after(walk: Walk, at: u64, mark: u64, slot: u64) -> Walk
    ensures { result ≡ walk_after walk at mark slot }
{
    if at < mark && mark % 8 == COMMITTED_KIND && shows(at, mark, slot) {
        Walk {
            next: at + bytes_of(slot),
            end: mark,
        }
    } else {
        walk
    }
}

/// Returns what a walk finds at a position.
pub(crate) fn found_at(words: &[u64], slots: &[u64], capacity: u32, walk: Walk, at: u64) -> Found
    requires capacity { IsCapacity capacity }
    requires words { length words.now ≡ ring_words capacity }
    requires slots { length slots.now ≡ capacity / 8 }
    ensures { result ≡ found_at capacity words.now slots.now walk at }
{
    let index = word_index(capacity, at);
    let word = words[index];
    let slot = slots[index];
    let mark = mark_in(walk, at, word);
    let header = if is_stray(walk, at, word) {
        BAD_HEADER
    } else {
        header_of_mark(at, mark, slot)
    };
    Found {
        header,
        walk: walk_after(walk, at, mark, slot),
    }
}
