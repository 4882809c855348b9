//! A ring's table, as it is made.
ghost use Rattle.std.specs.Prelude.{◌≡◌, ◌/◌, ◌≤◌, [], replicate, IfOk};
ghost use Rattle.ring_layout.specs.{Layout.ring_words, Places.max_position};
ghost use Rattle.ring_table.specs.{Rule.IsLawful, Views.first_view, Closed.IsFresh};

use crate::mode::{InSlots, InWords};
use crate::rule::RingRule;
use crate::steps::RingSeat;
use crate::view::{Key, View};
use atomic_table::{Refused, Table};
use ring_layout::ring_buffer_descriptor::{
    HEAD_CACHE_POSITION_WORD, HEAD_POSITION_WORD, TAIL_POSITION_WORD, TRAILER_WORDS,
};
use std::alloc::{AllocError, Global};

/// A ring with its memory. Its field `shared` is what threads share.
pub type RingTable<M> = Table<u64, View, Key, RingRule<M>, Global>;

fn fresh_words(alloc: Global, key: Key) -> Result<Vec<u64>, AllocError>
    requires { IsLawful key.capacity key.start }
    ensures { IfOk result (λ v. IsFresh key.capacity key.start v.items) }
{
    let records = key.capacity as usize / 8;
    let mut words = vec![in alloc; 0u64; records + TRAILER_WORDS]?;
    words[records + TAIL_POSITION_WORD] = key.start;
    words[records + HEAD_CACHE_POSITION_WORD] = key.start;
    words[records + HEAD_POSITION_WORD] = key.start;
    Ok(words)
}

/// A fresh ring, and its first seat, which is the only producer and the consumer. The only error is that there was no
/// memory.
pub fn open(alloc: Global, key: Key) -> Result<(RingTable<InWords>, RingSeat), AllocError>
    requires lawful { IsLawful key.capacity key.start }
    requires limit { key.start ≤ max_position }
    ensures words { IfOk result (λ t. t.0.shared.table_id.words ≡ ring_words key.capacity) }
    ensures slots { IfOk result (λ t. t.0.shared.table_id.slots ≡ 0) }
    ensures key { IfOk result (λ t. t.0.shared.key ≡ key) }
    ensures seat { IfOk result (λ t. t.1.table_id ≡ t.0.shared.table_id) }
    ensures view { IfOk result (λ t. t.1.me ≡ (first_view key, [])) }
{
    let words = fresh_words(alloc, key)?;
    Table::of_words(alloc, words.as_slice(), &key)
}

fn zeros(alloc: Global, count: usize) -> Result<Vec<u64>, AllocError>
    ensures { IfOk result (λ v. v.items ≡ replicate count 0) }
{
    vec![in alloc; 0u64; count]
}

/// The same with bodies in slots.
pub fn open_slots(alloc: Global, key: Key) -> Result<(RingTable<InSlots>, RingSeat), AllocError>
    requires lawful { IsLawful key.capacity key.start }
    requires limit { key.start ≤ max_position }
    ensures words { IfOk result (λ t. t.0.shared.table_id.words ≡ ring_words key.capacity) }
    ensures slots { IfOk result (λ t. t.0.shared.table_id.slots ≡ key.capacity / 8) }
    ensures key { IfOk result (λ t. t.0.shared.key ≡ key) }
    ensures seat { IfOk result (λ t. t.1.table_id ≡ t.0.shared.table_id) }
    ensures view { IfOk result (λ t. t.1.me ≡ (first_view key, [])) }
{
    let words = fresh_words(alloc, key)?;
    let slots = zeros(alloc, key.capacity as usize / 8)?;
    match Table::new(alloc, words.as_slice(), slots, &key) {
        Ok(made) => Ok(made),
        Err(Refused { slots: _ }) => Err(AllocError),
    }
}
