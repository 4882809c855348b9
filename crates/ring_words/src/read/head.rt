//! Records at the head of a ring.
ghost use Rattle.std.specs.Prelude.{◌≡◌, ◌≢◌, ℕ, ◌+◌, ◌-◌, ◌*◌, ◌/◌, ◌%◌, ◌^◌, ◌<◌, ◌≤◌, List, ◌∷◌, length, slice_index};
ghost use Rattle.ring_words.specs.Ring.{ring, IsRingAt, Has, head_of};
ghost use Rattle.ring_layout.specs.{declared.message.Claim.Claim, declared.message.Message.Message, History.span};
ghost use Rattle.ring_layout.specs.Headers.{padding_type};
ghost use Rattle.ring_words.specs.Reading.{Sees, SeesCommitted, Leaves, MovesHead, IsAtHead};

use crate::read::action::Action;
use crate::read::handler::Handler;
use crate::words::{clear, load_body};
use ring_layout::record_descriptor::HEADER_LENGTH;
use ring_layout::ring_buffer_descriptor::HEAD_POSITION_WORD;
use ring_layout::{unpack_header, word_index};

/// The header of a settled record.
#[derive(Clone, Copy)]
pub(crate) struct Settled {
    pub(crate) len: u32,
    pub(crate) type_id: i32,
}

/// The settled record or padding at the head, if there is one.
pub(crate) fn settled_at_head(words: &[u64], capacity: u32, head: u64) -> Option<Settled>
    requires { IsRingAt (ring capacity words.now) head }
    ensures { (h : List Claim) → Has (ring capacity words.now) h → Sees (ring capacity words.now) h result }
{
    let (len, type_id) = unpack_header(words[word_index(capacity, head)]);
    if len > 0 {
        Some(Settled {
            len: len as u32,
            type_id,
        })
    } else {
        None
    }
}

/// Copies the body of the committed record at the head out of the words.
pub(crate) fn load_at_head(words: &[u64], capacity: u32, head: u64, body: &mut [u8])
    requires ring { IsRingAt (ring capacity words.now) head }
    requires within { head_of (ring capacity words.now) % capacity + span (length body.old) ≤ capacity }
    ensures { (c : Claim) (rest : List Claim) → Has (ring capacity words.now) (c ∷ rest)
        → IsAtHead (ring capacity words.now) c
        → length c.message.body ≡ length body.new → body.new ≡ c.message.body }
{
    load_body(words, word_index(capacity, head) + 1, body);
}

/// Shows the message at the head to the handler, from a copy.
pub(crate) fn show_at_head<H: Handler>(
    words: &[u64],
    capacity: u32,
    head: u64,
    scratch: &mut [u8],
    settled: Settled,
    handler: &mut H,
) -> Action
    requires ring { IsRingAt (ring capacity words.now) head }
    requires room { length scratch.old ≡ capacity / 8 }
    requires seen { (h : List Claim) → Has (ring capacity words.now) h
        → Sees (ring capacity words.now) h (Some settled) }
    requires message { settled.type_id ≢ padding_type }
    requires ready { H.ready handler.old }
    ensures ready { H.ready handler.new }
    ensures shown { (m : Message) × H.step handler.old m handler.new result
        × ((c : Claim) (rest : List Claim) → Has (ring capacity words.now) (c ∷ rest)
        → SeesCommitted (ring capacity words.now) c settled → c.message ≡ m) }
{
    let len = settled.len as usize - HEADER_LENGTH;
    let body = &mut scratch[..len];
    load_at_head(words, capacity, head, body);
    handler.on_message(settled.type_id, body)
}

/// Clears the settled record or padding at the head, moves the head past it, and returns the new head.
pub(crate) fn take_at_head(words: &mut [u64], capacity: u32, head: u64, settled: Settled) -> u64
    requires ring { IsRingAt (ring capacity words.old) head }
    requires seen { (h : List Claim) → Has (ring capacity words.old) h
        → Sees (ring capacity words.old) h (Some settled) }
    ensures ring { IsRingAt (ring capacity words.new) result }
    ensures moves { MovesHead (ring capacity words.old) (ring capacity words.new) }
    ensures on { head_of (ring capacity words.old) < head_of (ring capacity words.new) }
    ensures leaves { (h : List Claim) → Has (ring capacity words.old) h
        → Leaves (ring capacity words.old) h settled (ring capacity words.new) }
{
    let span = settled.len.next_multiple_of(8);
    clear(words, word_index(capacity, head), span as usize / 8);
    let next = head + u64::from(span);
    words[capacity as usize / 8 + HEAD_POSITION_WORD] = next;
    next
}
