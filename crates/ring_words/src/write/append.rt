//! Storing a record after the tail.
ghost use Rattle.std.specs.Prelude.{◌≡◌, ℕ, ◌+◌, ◌-◌, ◌*◌, ◌/◌, ◌%◌, ◌^◌, ◌<◌, ◌≤◌, pos, neg_ℤ, ◌≤ℤ◌, length, slice_index, slice_set};
ghost use Rattle.ring_layout.specs.{History.span, Places.IsCapacity, Places.index, Places.next_place};
ghost use Rattle.ring_words.specs.{Ring.ring, Ring.IsRing, Ring.tail_of, Storing.IsAdmitted, Storing.padded};
ghost use Rattle.ring_words.specs.Change.{AppendsClaim, opened, written};

use ring_layout::ring_buffer_descriptor::TAIL_POSITION_WORD;
use ring_layout::{
    Admission, committed_header, open_header, padding_header, store_bytes, word_index,
};

/// Stores the header of the padding before a record, if it has any, and the record's own.
fn store_headers(words: &mut [u64], capacity: u32, admission: Admission, header: u64)
    requires capacity { IsCapacity capacity }
    requires order { admission.tail ≤ admission.place }
    requires near { admission.place ≤ admission.tail + capacity }
    requires room { capacity / 8 ≤ length words.old }
    ensures { words.new ≡ slice_set (padded capacity admission.tail admission.place words.old)
        (index capacity admission.place) header }
{
    let Admission { tail, place, .. } = admission;
    if place > tail {
        words[word_index(capacity, tail)] = padding_header(place - tail);
    }
    words[word_index(capacity, place)] = header;
}

/// Appends an open claim to the words of a ring. The words after the tail are 0, and so is its body.
pub(crate) fn append_claim(
    words: &mut [u64],
    capacity: u32,
    admission: Admission,
    type_id: i32,
    len: usize,
)
    requires ring { IsRing (ring capacity words.old) }
    requires type_id { pos 1 ≤ℤ type_id }
    requires tail { admission.tail ≡ tail_of (ring capacity words.old) }
    requires admitted { IsAdmitted (ring capacity words.old) len admission.place admission.end }
    ensures claimed { AppendsClaim (ring capacity words.old) (opened type_id len) (ring capacity words.new) }
    ensures ring { IsRing (ring capacity words.new) }
{
    store_headers(words, capacity, admission, open_header(type_id, len));
    words[capacity as usize / 8 + TAIL_POSITION_WORD] = admission.end;
}

/// Appends a committed record to the words of a ring.
pub(crate) fn append_message(
    words: &mut [u64],
    capacity: u32,
    admission: Admission,
    type_id: i32,
    body: &[u8],
)
    requires ring { IsRing (ring capacity words.old) }
    requires type_id { pos 1 ≤ℤ type_id }
    requires tail { admission.tail ≡ tail_of (ring capacity words.old) }
    requires admitted { IsAdmitted (ring capacity words.old) (length body.now) admission.place admission.end }
    ensures claimed { AppendsClaim (ring capacity words.old) (written type_id body.now) (ring capacity words.new) }
    ensures ring { IsRing (ring capacity words.new) }
{
    let header = committed_header(type_id, body.len());
    store_headers(words, capacity, admission, header);
    let at = word_index(capacity, admission.place);
    store_bytes(words, at + 1, body);
    words[capacity as usize / 8 + TAIL_POSITION_WORD] = admission.end;
}
