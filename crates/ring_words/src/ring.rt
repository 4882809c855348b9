//! The ring with one owner.
ghost use Rattle.std.specs.Prelude.{◌≡◌, ◌/◌, ◌%◌, ◌||◌, List, IfOk, slice_get, vec_len};
ghost use Rattle.ring_layout.specs.{declared.message.Claim.Claim, Refusals.make_refusal_of, Refusals.IsMadeUnless};
ghost use Rattle.ring_layout.specs.{History.committed_of, Places.is_capacity};
ghost use Rattle.ring_words.specs.{Ring.ring, Ring.head_of, Ring.tail_of, Ring.Has, Ring.IsRing, Fresh.fresh};
ghost use Rattle.ring_words.specs.Open.{ClaimAt, IsOpen, IsOpenIn};

use crate::positions::Positions;
use ring_layout::ring_buffer_descriptor::{
    HEAD_CACHE_POSITION_WORD, HEAD_POSITION_WORD, TAIL_POSITION_WORD, TRAILER_WORDS,
};
use ring_layout::{MakeFault, check_ring, max_message};
use std::alloc::Global;
use std::marker::Model;

/// A ring of messages with one owner.
#[derive(Drop)]
pub struct SoloRing {
    pub(crate) capacity: u32,
    pub(crate) words: Vec<u64>,
    pub(crate) scratch: Vec<u8>,
}

impl Model for SoloRing {
    ghost use Rattle.std.specs.Prelude.{◌≡◌, ◌/◌, vec_len};
    ghost use Rattle.ring_words.specs.Ring.{Ring, ring, IsRing};

    ghost Value = { Ring };

    ghost view = { λ a. ring a.capacity a.words.items };

    ghost invariant = { λ a. IsRing (ring a.capacity a.words.items) × (vec_len a.scratch ≡ a.capacity / 8) };
}

impl SoloRing {
    /// Makes an empty ring that starts at position 0. Returns, in this order: `BadCapacity` if the capacity is not a
    /// power of two from 128 to 2^24; `OutOfMemory`.
    pub fn new(alloc: Global, capacity: u32) -> Result<Self, MakeFault>
        ensures refused { IsMadeUnless (make_refusal_of (is_capacity capacity) capacity 0) result }
        ensures fresh { IfOk result (λ ring. ring ≡ fresh capacity 0) }
    {
        Self::new_at(alloc, capacity, 0)
    }

    /// Makes an empty ring that starts at this position. Returns, in this order: `BadCapacity` if the capacity is not a
    /// power of two from 128 to 2^24; `BadStart` if the start is not a multiple of the capacity or is above 2^62;
    /// `OutOfMemory`.
    pub fn new_at(alloc: Global, capacity: u32, start: u64) -> Result<Self, MakeFault>
        ensures refused { IsMadeUnless (make_refusal_of (is_capacity capacity) capacity start) result }
        ensures fresh { IfOk result (λ ring. ring ≡ fresh capacity start) }
    {
        check_ring(capacity, start)?;
        let trailer = capacity as usize / 8;
        let mut words = vec![in alloc; 0; trailer + TRAILER_WORDS].map_err(
            |_| MakeFault::OutOfMemory,
        )?;
        words[trailer + TAIL_POSITION_WORD] = start;
        words[trailer + HEAD_CACHE_POSITION_WORD] = start;
        words[trailer + HEAD_POSITION_WORD] = start;
        let scratch = vec![in alloc; 0; trailer].map_err(|_| MakeFault::OutOfMemory)?;
        Ok(SoloRing {
            capacity,
            words,
            scratch,
        })
    }

    /// Makes a ring of words that already are one: the picture of a history, and its trailer. The scratch must have
    /// room for the longest message. The caller proves what the words show.
    pub fn from_words(capacity: u32, words: Vec<u64>, scratch: Vec<u8>) -> Self
        requires ring { IsRing (ring capacity words.items) }
        requires scratch { vec_len scratch ≡ capacity / 8 }
        ensures { result ≡ ring capacity words.items }
    {
        SoloRing {
            capacity,
            words,
            scratch,
        }
    }

    /// The bytes of its buffer.
    pub fn capacity(&self) -> u32
        ensures { result ≡ self.now.capacity }
    {
        self.capacity
    }

    /// The most bytes of a message: an eighth of the capacity. A longer one is refused with `TooLong`.
    pub fn max_message(&self) -> u32
        ensures { result ≡ self.now.capacity / 8 }
    {
        max_message(self.capacity)
    }

    /// Returns a word of the buffer or, after it, of the trailer; `None` past the last word.
    pub fn word(&self, index: usize) -> Option<u64>
        ensures { result ≡ slice_get self.now.words index }
    {
        self.words.get(index).copied()
    }

    /// Returns the head and the tail. The head is at most the tail, and the tail at most the head plus the capacity.
    pub fn positions(&self) -> Positions
        ensures head { result.head ≡ head_of self.now }
        ensures tail { result.tail ≡ tail_of self.now }
        ensures ring { IsRing self.now }
    {
        let trailer = self.capacity as usize / 8;
        Positions {
            head: self.words[trailer + HEAD_POSITION_WORD],
            tail: self.words[trailer + TAIL_POSITION_WORD],
        }
    }

    /// States that the ring has a history, and that all its histories show the same messages and have the same open
    /// claims. It computes nothing.
    pub fn history_law(&self)
        ensures some { (h : List Claim) × Has self.now h }
        ensures one { (h g : List Claim) → Has self.now h → Has self.now g → committed_of h ≡ committed_of g }
        ensures claims { (t : ClaimAt) → IsOpen self.now t → (h : List Claim) → Has self.now h
            → IsOpenIn self.now.capacity (head_of self.now) h t }
    {
        let _ = &self.words;
    }
}
