//! The steps of a producer on the tail, the head and its claims.
ghost use Rattle.std.specs.Prelude.{◌≡◌, ◌+◌, ◌%◌, ◌<◌, ◌≤◌};
ghost use Rattle.ring_layout.specs.declared.message.ClaimState.TheVariants.{Aborted, Committed, Open};
ghost use Rattle.ring_layout.specs.{History.IsMessage, Places.index, Refusals.all_shares};
ghost use Rattle.ring_table.specs.{Staged.AreRising, Staged.Padded, Staged.Stored, Seats.IsSameSeat, Seats.IsSeatOf};
ghost use Rattle.ring_table.specs.Changes.{blank, with_header, staged, with_body_word};
ghost use Rattle.ring_table.specs.Views.{logged};
ghost use Rattle.ring_table.specs.ProducerSteps.{HasClaimAt, IsClaimable, IsStagedOpen, NeedsHeader, NeedsPadding, IsWordOfBody};
ghost use Rattle.ring_table.specs.ProducerSteps.{LoadsHead, LoadsOwn, LoadsTail, MovesOwnTail, MovesTail, with_changed};

use crate::mode::{InWords, Mode};
use crate::plays::producer::{
    LoadHead, LoadOwn, LoadTail, MoveOwnTail, MoveTail, StoreAborted, StoreBody, StoreClaimed,
    StoreCommitted, StorePadding,
};
use crate::steps::{RingSeat, SharedRing, trailer_word};
use crate::view::Wanted;
use ring_layout::ring_buffer_descriptor::{HEAD_POSITION_WORD, TAIL_POSITION_WORD};
use ring_layout::{aborted_header, committed_header, open_header, padding_header, word_index};

/// Loads the tail, in bytes. A producer that has all shares finds the tail that it has seen.
pub fn load_tail<M: Mode>(ring: &SharedRing<M>, producer: &mut RingSeat, capacity: u32) -> u64
    requires { IsSeatOf ring.now.table_id ring.now.key capacity producer.old }
    ensures seat { IsSameSeat producer.old producer.new }
    ensures told { LoadsTail capacity producer.old.me.0 result producer.new.me.0 }
{
    ring.load::<LoadTail>(producer, trailer_word(capacity, TAIL_POSITION_WORD))
}

/// Loads the head, in bytes.
pub fn load_head<M: Mode>(ring: &SharedRing<M>, producer: &mut RingSeat, capacity: u32) -> u64
    requires { IsSeatOf ring.now.table_id ring.now.key capacity producer.old }
    ensures seat { IsSameSeat producer.old producer.new }
    ensures told { LoadsHead capacity producer.old.me.0 result producer.new.me.0 }
{
    ring.load::<LoadHead>(producer, trailer_word(capacity, HEAD_POSITION_WORD))
}

/// Moves the tail from `old` to `new` if it is still `old`, which makes a claim of `wanted`. Returns the tail found.
pub fn move_tail<M: Mode>(
    ring: &SharedRing<M>,
    producer: &mut RingSeat,
    capacity: u32,
    old: u64,
    new: u64,
    wanted: Wanted,
) -> u64
    requires seat { IsSeatOf ring.now.table_id ring.now.key capacity producer.old }
    requires share { 0 < producer.old.me.0.producer.shares }
    requires room { IsClaimable capacity old new wanted.type_id wanted.len producer.old.me.0.producer.seen_head }
    ensures seat { IsSameSeat producer.old producer.new }
    ensures told { MovesTail capacity old new wanted producer.old.me.0 result producer.new.me.0 }
{
    let tail = trailer_word(capacity, TAIL_POSITION_WORD);
    let said = open_header(wanted.type_id, wanted.len);
    ring.compare_exchange_with::<MoveTail>(producer, tail, old, new, &said)
}

/// Moves the tail of a sole producer to `new`, which makes a claim of some type id and length with the right span. The
/// claim's first header fixes both.
pub fn store_tail<M: Mode>(
    ring: &SharedRing<M>,
    producer: &mut RingSeat,
    capacity: u32,
    new: u64,
    wanted: Wanted,
)
    requires seat { IsSeatOf ring.now.table_id ring.now.key capacity producer.old }
    requires sole { producer.old.me.0.producer.shares ≡ all_shares }
    requires room { IsClaimable capacity producer.old.me.0.producer.seen_tail new wanted.type_id wanted.len
        producer.old.me.0.producer.seen_head }
    ensures seat { IsSameSeat producer.old producer.new }
    ensures told { MovesOwnTail capacity new producer.old.me.0 producer.new.me.0 }
{
    ring.store::<MoveOwnTail>(producer, trailer_word(capacity, TAIL_POSITION_WORD), new);
}

/// Stores the header of the padding that is from `from` up to the claim's place, both in bytes.
pub(crate) fn store_padding_word(
    ring: &SharedRing<InWords>,
    producer: &mut RingSeat,
    capacity: u32,
    from: u64,
    place: u64,
)
    requires seat { IsSeatOf ring.now.table_id ring.now.key capacity producer.old }
    requires near { place ≤ from + capacity }
    requires claim { HasClaimAt producer.old.me.0 place (NeedsPadding from) }
    ensures seat { IsSameSeat producer.old producer.new }
    ensures view { producer.new.me.0 ≡ with_changed place (staged Padded) producer.old.me.0 }
    ensures rising { AreRising producer.old.me.0.producer.claims }
{
    let header = padding_header(place - from);
    ring.store::<StorePadding>(producer, word_index(capacity, from), header);
}

/// Stores the header of a claim of `len` bytes, its length negated. The claim is open from then on, with zeros for its
/// bytes.
pub fn store_claimed_header(
    ring: &SharedRing<InWords>,
    producer: &mut RingSeat,
    capacity: u32,
    place: u64,
    wanted: Wanted,
)
    requires seat { IsSeatOf ring.now.table_id ring.now.key capacity producer.old }
    requires message { IsMessage capacity (blank wanted.type_id wanted.len) }
    requires claim { HasClaimAt producer.old.me.0 place (NeedsHeader wanted.len) }
    ensures seat { IsSameSeat producer.old producer.new }
    ensures view { producer.new.me.0 ≡ with_changed place (with_header wanted.type_id wanted.len) producer.old.me.0 }
    ensures rising { AreRising producer.old.me.0.producer.claims }
{
    let header = open_header(wanted.type_id, wanted.len);
    ring.store::<StoreClaimed>(producer, word_index(capacity, place), header);
}

/// Stores the header of a claim that is committed.
pub(crate) fn store_committed_word(
    ring: &SharedRing<InWords>,
    producer: &mut RingSeat,
    capacity: u32,
    place: u64,
    wanted: Wanted,
)
    requires seat { IsSeatOf ring.now.table_id ring.now.key capacity producer.old }
    requires message { IsMessage capacity (blank wanted.type_id wanted.len) }
    requires claim { HasClaimAt producer.old.me.0 place (IsStagedOpen wanted.type_id wanted.len) }
    ensures seat { IsSameSeat producer.old producer.new }
    ensures view { producer.new.me.0 ≡ with_changed place (staged (Stored Committed)) producer.old.me.0 }
    ensures rising { AreRising producer.old.me.0.producer.claims }
{
    let header = committed_header(wanted.type_id, wanted.len);
    ring.store::<StoreCommitted>(producer, word_index(capacity, place), header);
}

/// Stores the header of a claim that is aborted: the type id of padding.
pub(crate) fn store_aborted_word(
    ring: &SharedRing<InWords>,
    producer: &mut RingSeat,
    capacity: u32,
    place: u64,
    wanted: Wanted,
)
    requires seat { IsSeatOf ring.now.table_id ring.now.key capacity producer.old }
    requires message { IsMessage capacity (blank wanted.type_id wanted.len) }
    requires claim { HasClaimAt producer.old.me.0 place (IsStagedOpen wanted.type_id wanted.len) }
    ensures seat { IsSameSeat producer.old producer.new }
    ensures view { producer.new.me.0 ≡ with_changed place (staged (Stored Aborted)) producer.old.me.0 }
    ensures rising { AreRising producer.old.me.0.producer.claims }
{
    let header = aborted_header(wanted.len);
    ring.store::<StoreAborted>(producer, word_index(capacity, place), header);
}

/// Stores the word of an open claim's body at the byte offset `at`, a multiple of 8. Its index in the buffer is
/// `target`.
pub fn store_body_word(
    ring: &SharedRing<InWords>,
    producer: &mut RingSeat,
    capacity: u32,
    place: u64,
    at: u64,
    target: usize,
    word: u64,
)
    requires seat { IsSeatOf ring.now.table_id ring.now.key capacity producer.old }
    requires target { target ≡ index capacity (place + 8 + at) }
    requires claim { HasClaimAt producer.old.me.0 place (IsWordOfBody at word) }
    ensures seat { IsSameSeat producer.old producer.new }
    ensures view { producer.new.me.0 ≡ with_changed place (with_body_word at word) producer.old.me.0 }
    ensures rising { AreRising producer.old.me.0.producer.claims }
{
    ring.store::<StoreBody>(producer, target, word);
}

/// Loads the word at a position, which says what the producer's own open claim has there.
pub fn load_own_word(
    ring: &SharedRing<InWords>,
    producer: &mut RingSeat,
    capacity: u32,
    position: u64,
) -> u64
    requires { IsSeatOf ring.now.table_id ring.now.key capacity producer.old }
    ensures seat { IsSameSeat producer.old producer.new }
    ensures view { producer.new.me.0 ≡ logged (index capacity position) result producer.old.me.0 }
    ensures told { LoadsOwn (index capacity position) producer.old.me.0 result }
    ensures rising { AreRising producer.old.me.0.producer.claims }
{
    ring.load::<LoadOwn>(producer, word_index(capacity, position))
}
