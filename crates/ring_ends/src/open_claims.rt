//! The claims that a producer keeps open, by number.
ghost use Rattle.std.specs.Prelude.{◌≡◌, ℕ, ◌<◌, ◌≤◌, ◌++◌, ◌∷◌, [], length, nat_eq, slice_index_or, MatchOption, None, OnErr, OnOk, Some, slice_set};
ghost use Rattle.std.specs.HashMap.{get};
ghost use Rattle.ring_rings.specs.Holding.{in_slots, AreApart};
ghost use Rattle.ring_ends.specs.Claims.{claims_in, has_numbered, HasRoomToKeep, IsNoNumber, IsSlotOf, LacksAt, TakesFrom};
ghost use Rattle.ring_ends.specs.Slots.{AreNoted};

use ring_rings::{Claim, KeptClaim};
use std::alloc::{AllocError, Global};
use std::collections::HashMap;
use std::marker::Model;

/// When room is made for a claim, at most this many slots stay out of the map.
const REST: usize = 32;

/// The claims that a producer keeps open. The number of a claim is its place, by which it is found in about the same
/// time however many are open.
#[derive(Drop)]
pub struct OpenClaims {
    /// The claims, the oldest first. The slot of a claim that was settled is empty, so that the others need not move.
    slots: Vec<Option<KeptClaim>>,
    /// The slot of each claim of the first `noted` slots, by its place. An entry stays after its claim was settled,
    /// until the empty slots are removed.
    map: HashMap<u64, usize>,
    noted: usize,
}

impl Model for OpenClaims {
    ghost use Rattle.std.specs.Prelude.{vec_capacity};
    ghost use Rattle.ring_ends.specs.Slots.{AreNoted, ClaimSlots};

    ghost Value = { ClaimSlots };

    ghost view = { λ a. record { slots = a.slots.items; room = vec_capacity a.slots } };

    ghost invariant = { λ a. AreNoted a.slots.items a.map a.noted };
}

/// Tests whether the slot at this index has the claim of this number.
fn has_number(slots: &[Option<KeptClaim>], index: usize, number: u64) -> bool
    ensures { result ≡ has_numbered number (slice_index_or slots.now index None) }
{
    if index >= slots.len() {
        return false;
    }
    match &slots[index] {
        Some(claim) => claim.place() == number,
        None => false,
    }
}

/// The slot of the claim of this number, if it is one of the first `noted` slots.
fn slot_in_map(
    slots: &[Option<KeptClaim>],
    map: &HashMap<u64, usize>,
    noted: usize,
    number: u64,
) -> Option<usize>
    requires { AreNoted slots.now map.now noted }
    ensures { MatchOption result ((i : ℕ) → i < noted → LacksAt number slots.now i) (IsSlotOf number slots.now) }
{
    if noted == 0 {
        return None;
    }
    match map.get(&number) {
        Some(&index) => if has_number(slots, index, number) {
            Some(index)
        } else {
            None
        },
        None => None,
    }
}

/// The slot of the claim of this number, if it is one from `first` on.
fn slot_in_rest(slots: &[Option<KeptClaim>], first: usize, number: u64) -> Option<usize>
    ensures { MatchOption result ((i : ℕ) → first ≤ i → LacksAt number slots.now i) (IsSlotOf number slots.now) }
{
    let mut end = slots.len();
    while end > first {
        end -= 1;
        if has_number(slots, end, number) {
            return Some(end);
        }
    }
    None
}

/// The slot of the claim of this number.
fn slot_of(
    slots: &[Option<KeptClaim>],
    map: &HashMap<u64, usize>,
    noted: usize,
    number: u64,
) -> Option<usize>
    requires { AreNoted slots.now map.now noted }
    ensures { MatchOption result (IsNoNumber number (in_slots slots.now)) (IsSlotOf number slots.now) }
{
    match slot_in_map(slots, map, noted, number) {
        Some(index) => Some(index),
        None => slot_in_rest(slots, noted, number),
    }
}

/// Enters the claims of the slots from `first` on into the map, until memory runs out, and returns how many of the
/// first slots the map has then.
fn note(slots: &[Option<KeptClaim>], map: &mut HashMap<u64, usize>, first: usize) -> usize
    requires { AreNoted slots.now map.old first }
    ensures { AreNoted slots.now map.new result }
{
    let mut noted = first;
    while noted < slots.len() {
        let Some(claim) = &slots[noted] else {
            noted += 1;
            continue;
        };
        let place = claim.place();
        // No two claims of a ring have one place, so it is new to the map.
        if map.contains_key(&place) {
            return noted;
        }
        let Ok(_) = map.insert(place, noted) else {
            return noted;
        };
        noted += 1;
    }
    noted
}

/// Returns how many of the first slots the map has if a claim of this place is put into the slot at this index.
fn noted_with(map: &HashMap<u64, usize>, place: u64, index: usize, noted: usize) -> usize
    ensures within { result ≤ noted }
    ensures there { index < result → get nat_eq map.now place ≡ Some index }
{
    if index >= noted {
        return noted;
    }
    match map.get(&place) {
        Some(&found) => if found == index { noted } else { index },
        None => index,
    }
}

/// Takes the last claim out, with the empty slots after it.
fn pop_from(slots: &mut Vec<Option<KeptClaim>>) -> Option<Claim>
    ensures { MatchOption result ((in_slots slots.old.items ≡ []) × (in_slots slots.new.items ≡ []))
        (λ t. in_slots slots.old.items ≡ in_slots slots.new.items ++ t ∷ []) }
{
    while let Some(slot) = slots.pop() {
        match slot {
            Some(kept) => return Some(kept.into_claim()),
            None => continue,
        }
    }
    None
}

impl OpenClaims {
    /// None is open.
    pub(crate) fn new(alloc: Global) -> Self
        ensures { claims_in result ≡ [] }
    {
        OpenClaims {
            slots: Vec::new(alloc),
            map: HashMap::new(alloc),
            noted: 0,
        }
    }

    /// Removes the empty slots.
    fn tidy(&mut self)
        ensures { claims_in self.new ≡ claims_in self.old }
    {
        self.slots.retain(|slot| slot.is_some());
        self.map.clear();
        self.noted = 0;
    }

    /// Enters the last slots into the map, if they are more than `REST`.
    fn note_rest(&mut self)
        ensures { self.new ≡ self.old }
    {
        if self.slots.len() - self.noted > REST {
            self.noted = note(&self.slots, &mut self.map, self.noted);
        }
    }

    /// Makes room for one more, if `count` are open. They stay, also if memory runs out.
    pub(crate) fn reserve(&mut self, count: u64) -> Result<(), AllocError>
        ensures room { OnOk result (HasRoomToKeep self.new) }
        ensures same { claims_in self.new ≡ claims_in self.old }
    {
        // At least as many claims were settled since the last time, so that each pays for one slot or two.
        if self.slots.len() as u64 / 2 > count.saturating_add(8) {
            self.tidy();
        }
        self.note_rest();
        self.slots.reserve(1)
    }

    /// Keeps one more, for which room was made.
    pub(crate) fn keep(&mut self, claim: Claim)
        requires { HasRoomToKeep self.old }
        ensures { claims_in self.new ≡ claims_in self.old ++ claim ∷ [] }
    {
        self.slots.push_reserved(Some(KeptClaim::of(claim)));
    }

    /// Takes the claim of this number out of its slot, and reports which slot that is.
    pub(crate) fn take(&mut self, number: u64) -> Option<(usize, Claim)>
        requires { AreApart (claims_in self.old) }
        ensures { MatchOption result
            (IsNoNumber number (claims_in self.old) × (claims_in self.new ≡ claims_in self.old))
            (λ t. TakesFrom number t.0 t.1 self.old.slots self.new.slots) }
    {
        let Some(index) = slot_of(&self.slots, &self.map, self.noted, number) else {
            return None;
        };
        match self.slots[index].take() {
            Some(kept) => Some((index, kept.into_claim())),
            None => unreachable!(),
        }
    }

    /// Puts a claim into the slot that it was taken out of.
    pub(crate) fn put_back(&mut self, index: usize, claim: Claim)
        requires { index < length self.old.slots }
        ensures { self.new.slots ≡ slice_set self.old.slots index (Some claim) }
    {
        self.noted = noted_with(&self.map, claim.place(), index, self.noted);
        self.slots[index] = Some(KeptClaim::of(claim));
    }

    /// Takes the youngest claim out.
    pub(crate) fn pop(&mut self) -> Option<Claim>
        ensures { MatchOption result ((claims_in self.old ≡ []) × (claims_in self.new ≡ []))
            (λ t. claims_in self.old ≡ claims_in self.new ++ t ∷ []) }
    {
        // The others are taken out next, so that the map is of no more use.
        self.noted = 0;
        pop_from(&mut self.slots)
    }

    /// Appends another producer's claims. Both are unchanged if memory runs out.
    pub(crate) fn append(&mut self, other: &mut OpenClaims) -> Result<(), AllocError>
        ensures appended { OnOk result (claims_in self.new ≡ claims_in self.old ++ claims_in other.old) }
        ensures refused { OnErr result (claims_in self.new ≡ claims_in self.old) }
        ensures kept { OnErr result (claims_in other.new ≡ claims_in other.old) }
    {
        other.tidy();
        other.noted = 0;
        let Ok(()) = self.slots.append(&mut other.slots) else {
            return Err(AllocError);
        };
        self.note_rest();
        Ok(())
    }
}
