//! The steps of a ring whose bodies are in words. Each atomic word has eight bytes, as in the ring's format.
ghost use Rattle.std.specs.Prelude.{◌≡◌, ℕ, ◌+◌, ◌*◌, ◌%◌, ◌<◌, ◌≤◌, List, [], ◌∷◌, ◌++◌, length};
ghost use Rattle.ring_layout.specs.Places.{index, max_position};
ghost use Rattle.ring_table.specs.{declared.claim.StagedClaim.StagedClaim, Seats.IsSameSeat, Seats.IsSeatOf};
ghost use Rattle.ring_table.specs.ConsumerSteps.{ClearsWord, StandsBefore, StoresHead, StoresHeadBefore};
ghost use Rattle.ring_table.specs.Views.{cleared_to, with_claims, with_consumer};
ghost use Rattle.ring_rings.specs.Bodies.{loaded, put_at, IsFreshClaim, MergesWord};
ghost use Rattle.ring_rings.specs.ReadingSteps.{CopiesWord, IsInBlock, IsReaderSeatOf, LoadsWord, OnlyLoads};

use crate::bodies::Bodies;
use atomic_table::Closed;
use ring_layout::record_descriptor::HEADER_LENGTH;
use ring_layout::{first_word, put_bytes_word, put_word, word_index};
use ring_table::{
    Headers, InWords, Key, RingSeat, RingTable, Run, SharedRing, Unsettled, Wanted, clear_word,
    copy_words, load_body_word, load_own_word, load_passed_word, open, rescue_words,
    store_body_word, store_claimed_header, store_head, store_head_before,
};
use std::alloc::{AllocError, Global};

/// Stores a whole body into the newest claim. The claim has the body's length, and its bytes are zeros.
#[inline(always)]
fn store_body(
    words: &SharedRing<InWords>,
    seat: &mut RingSeat,
    capacity: u32,
    place: u64,
    body: &[u8],
)
    requires seat { IsSeatOf words.now.table_id words.now.key capacity seat.old }
    requires place { place ≤ max_position }
    requires fresh { (cs : List StagedClaim) × (c : StagedClaim)
        × IsFreshClaim place (length body.now) cs c seat.old.me.0 }
    requires inside { place % capacity + 8 + length body.now ≤ capacity }
    ensures seat { IsSameSeat seat.old seat.new }
    ensures stored { (cs : List StagedClaim) (c : StagedClaim) → IsFreshClaim place (length body.now) cs c seat.old.me.0
        → seat.new.me.0 ≡ with_claims (cs ++ put_at 0 body.now c ∷ []) seat.old.me.0 }
{
    // A record does not cross the end of the buffer, so its words are side by side.
    let first = word_index(capacity, place) + 1;
    let whole = body.len() / 8;
    for k in 0..whole {
        let word = first_word(&body[8 * k..8 * k + 8]);
        // A word that is already 0 needs no store.
        if word != 0 {
            store_body_word(words, seat, capacity, place, 8 * k as u64, first + k, word);
        }
    }
    if 8 * whole < body.len() {
        let word = first_word(&body[8 * whole..]);
        let at = 8 * whole as u64;
        if word != 0 {
            store_body_word(words, seat, capacity, place, at, first + whole, word);
        }
    }
}

/// Returns a word of an open claim's body, in which these bytes replace those from byte `at` on. The word is loaded
/// first unless the bytes replace all of it.
fn merged_word(
    words: &SharedRing<InWords>,
    seat: &mut RingSeat,
    capacity: u32,
    position: u64,
    at: usize,
    bytes: &[u8],
) -> u64
    requires seat { IsSeatOf words.now.table_id words.now.key capacity seat.old }
    requires within { at + length bytes.now ≤ 8 }
    requires some { 0 < length bytes.now }
    ensures seat { IsSameSeat seat.old seat.new }
    ensures view { (loads : List (ℕ × ℕ)) × (seat.new.me.0 ≡ loaded loads seat.old.me.0) }
    ensures word { MergesWord (index capacity position) at bytes.now seat.old.me.0 result }
{
    if bytes.len() == 8 {
        return first_word(bytes);
    }
    put_bytes_word(load_own_word(words, seat, capacity, position), at, bytes)
}

/// Copies the word with the number `k` of the body at `place` to its room in the scratch. The first word of the body
/// has the index `first`.
#[inline(always)]
fn load_word(
    ring: &SharedRing<InWords>,
    seat: &mut RingSeat,
    capacity: u32,
    place: u64,
    first: usize,
    k: usize,
    scratch: &mut [u8],
)
    requires seat { IsReaderSeatOf ring.now.table_id ring.now.key capacity seat.old }
    requires place { (seat.old.me.0.consumer.cleared ≤ place) × (place ≤ max_position)
        × (place % capacity + 8 + 8 * k < capacity) }
    requires first { first ≡ index capacity place + 1 }
    requires room { 8 * k + 8 ≤ length scratch.old }
    ensures seat { IsSameSeat seat.old seat.new }
    ensures rest { OnlyLoads seat.old.me.0 seat.new.me.0 }
    ensures copies { CopiesWord capacity place k seat.old.me.0 scratch.old seat.new.me.0 scratch.new }
{
    let position = place + HEADER_LENGTH as u64 + 8 * k as u64;
    let word = load_body_word(ring, seat, capacity, position, first + k);
    put_word(scratch, 8 * k, word);
}

/// Loads the word number `k` of the body at `place`, and copies it nowhere. Its first word has the index `first`.
#[inline(always)]
fn skip_word(
    ring: &SharedRing<InWords>,
    seat: &mut RingSeat,
    capacity: u32,
    place: u64,
    first: usize,
    k: usize,
)
    requires seat { IsReaderSeatOf ring.now.table_id ring.now.key capacity seat.old }
    requires place { (seat.old.me.0.consumer.cleared ≤ place) × (place ≤ max_position)
        × (place % capacity + 8 + 8 * k < capacity) }
    requires first { first ≡ index capacity place + 1 }
    ensures seat { IsSameSeat seat.old seat.new }
    ensures rest { OnlyLoads seat.old.me.0 seat.new.me.0 }
    ensures loads { LoadsWord capacity place k seat.old.me.0 seat.new.me.0 }
{
    let position = place + HEADER_LENGTH as u64 + 8 * k as u64;
    load_body_word(ring, seat, capacity, position, first + k);
}

/// Clears the next word that the read has passed. The index of this word in the buffer is `target`.
#[inline(always)]
fn pass_word(
    ring: &SharedRing<InWords>,
    seat: &mut RingSeat,
    capacity: u32,
    cleared: u64,
    target: usize,
)
    requires seat { IsReaderSeatOf ring.now.table_id ring.now.key capacity seat.old }
    requires target { target ≡ index capacity cleared }
    requires cleared { seat.old.me.0.consumer.cleared ≡ cleared }
    requires passed { cleared < seat.old.me.0.consumer.scan }
    ensures seat { IsSameSeat seat.old seat.new }
    ensures told { ClearsWord seat.old.me.0 seat.new.me.0 }
{
    // A load costs much less than a store, and many words of messages are 0.
    if load_passed_word(ring, seat, capacity, cleared, target) != 0 {
        clear_word(ring, seat, capacity, cleared, target);
    }
}

/// Clears the words that the read has passed, from the head up to the position `to`.
#[inline(always)]
fn clear_up(words: &SharedRing<InWords>, seat: &mut RingSeat, capacity: u32, head: u64, to: u64)
    requires seat { IsReaderSeatOf words.now.table_id words.now.key capacity seat.old }
    requires cleared { seat.old.me.0.consumer.cleared ≡ head }
    requires passed { (head ≤ to) × (to ≤ seat.old.me.0.consumer.scan) }
    requires whole { (head % 8 ≡ 0) × (to % 8 ≡ 0) }
    requires inside { IsInBlock capacity head to }
    ensures seat { IsSameSeat seat.old seat.new }
    ensures view { seat.new.me.0 ≡ with_consumer (cleared_to to seat.old.me.0.consumer) seat.old.me.0 }
{
    // A read does not cross the end of the buffer, so the words are side by side.
    let first = word_index(capacity, head);
    let count = (to - head) / 8;
    // A turn handles four words, since the compiler keeps one turn for each pass of the loop.
    for k in 0..count / 4 {
        let (at, target) = (head + 32 * k, first + 4 * k as usize);
        pass_word(words, seat, capacity, at, target);
        pass_word(words, seat, capacity, at + 8, target + 1);
        pass_word(words, seat, capacity, at + 16, target + 2);
        pass_word(words, seat, capacity, at + 24, target + 3);
    }
    for j in count / 4 * 4..count {
        pass_word(words, seat, capacity, head + 8 * j, first + j as usize);
    }
}

impl Bodies for InWords {
    ghost slots_for = { λ _. 0 };

    fn open(alloc: Global, key: Key) -> Result<(RingTable<Self>, RingSeat), AllocError> {
        open(alloc, key)
    }

    #[inline(always)]
    fn store_claimed_header(
        words: &SharedRing<Self>,
        producer: &mut RingSeat,
        capacity: u32,
        place: u64,
        wanted: Wanted,
    ) {
        store_claimed_header(words, producer, capacity, place, wanted);
    }

    #[inline(always)]
    fn store_record(
        words: &SharedRing<Self>,
        seat: &mut RingSeat,
        capacity: u32,
        place: u64,
        wanted: Wanted,
        body: &[u8],
    ) {
        store_claimed_header(words, seat, capacity, place, wanted);
        store_body(words, seat, capacity, place, body);
        InWords::store_committed_header(words, seat, capacity, place, wanted);
    }

    #[inline(always)]
    fn put_bytes(
        words: &SharedRing<Self>,
        seat: &mut RingSeat,
        capacity: u32,
        place: u64,
        _len: usize,
        offset: usize,
        bytes: &[u8],
    ) {
        let mut done = 0;
        while done < bytes.len() {
            let (index, byte) = ((offset + done) / 8, (offset + done) % 8);
            let count = (8 - byte).min(bytes.len() - done);
            let chunk = &bytes[done..done + count];
            let at = 8 * index as u64;
            let position = place + 8 + at;
            let word = merged_word(words, seat, capacity, position, byte, chunk);
            let target = word_index(capacity, position);
            store_body_word(words, seat, capacity, place, at, target, word);
            done += count;
        }
    }

    #[inline(always)]
    fn load_body(
        words: &SharedRing<Self>,
        seat: &mut RingSeat,
        capacity: u32,
        place: u64,
        len: usize,
        scratch: &mut [u8],
    ) {
        // A record does not cross the end of the buffer, so its words are side by side.
        let first = word_index(capacity, place) + 1;
        let count = len.div_ceil(8);
        // A turn handles four words, since the compiler keeps one turn for each pass of the loop.
        for k in 0..count / 4 {
            load_word(words, seat, capacity, place, first, 4 * k, scratch);
            load_word(words, seat, capacity, place, first, 4 * k + 1, scratch);
            load_word(words, seat, capacity, place, first, 4 * k + 2, scratch);
            load_word(words, seat, capacity, place, first, 4 * k + 3, scratch);
        }
        for j in count / 4 * 4..count {
            load_word(words, seat, capacity, place, first, j, scratch);
        }
    }

    #[inline(always)]
    fn skip_body(
        words: &SharedRing<Self>,
        seat: &mut RingSeat,
        capacity: u32,
        place: u64,
        len: usize,
    ) {
        let first = word_index(capacity, place) + 1;
        let count = len.div_ceil(8);
        for k in 0..count {
            skip_word(words, seat, capacity, place, first, k);
        }
    }

    #[inline(always)]
    fn store_head(
        words: &SharedRing<Self>,
        seat: &mut RingSeat,
        capacity: u32,
        head: u64,
        to: u64,
        _run: Run,
    ) {
        clear_up(words, seat, capacity, head, to);
        store_head(words, seat, capacity, to);
    }

    #[inline(always)]
    fn store_head_before(
        words: &SharedRing<Self>,
        seat: &mut RingSeat,
        capacity: u32,
        head: u64,
        to: u64,
        _run: Run,
    ) {
        clear_up(words, seat, capacity, head, to);
        store_head_before(words, seat, capacity, to);
    }

    fn show(closed: Closed<u64, Global>, room: Vec<u64>) -> Vec<u64> {
        let mut words = room;
        copy_words(&closed, &mut words);
        closed.free();
        words
    }

    fn rescue(closed: Closed<u64, Global>, capacity: u32, room: Vec<u64>) -> (Vec<u64>, Unsettled) {
        rescue_words(closed, capacity, room)
    }
}
