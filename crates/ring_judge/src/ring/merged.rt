//! The lines of all threads, merged into one list.

ghost use Rattle.std.specs.Prelude.{◌≡◌, ◌+◌, ◌-◌, ◌<◌, ◌≤◌, ◌++◌, ℕ, [], All, IfOk, MatchBool, OnOk, drop, length, slice_index, slice_index_or, slice_set, take};
ghost use Rattle.std.specs.BinaryHeap.{heap_items, heap_len};
ghost use Rattle.ring_judge.specs.{Lists.lists_of, Threads.lines_of};
ghost use Rattle.ring_judge.specs.Merged.{AddsTurn, AreLists, AreMerged, FindsClaim, FindsClaimAt, HaveTurns, IsArranged, IsMerging, NoClaims, TakesTo, left_in};

use crate::ring::RingLine;
use crate::ring::order::NumberedLine;
use std::alloc::{AllocError, Global};
use std::cmp::Reverse;
use std::collections::BinaryHeap;

/// Returns the lines of these lists. A line of a list comes next if no list has a claim before the next claim of this
/// list. The lines after the last claims of their lists come last, and among these the lines of the first list.
pub fn merged(alloc: Global, lists: &[Vec<NumberedLine>]) -> Result<Vec<NumberedLine>, AllocError>
    requires lists { AreLists (lists_of lists.now) }
    requires some { 0 < length lists.now }
    ensures threads { IfOk result (λ lines. (t : ℕ)
        → lines_of t lines.items ≡ slice_index_or (lists_of lists.now) t []) }
    ensures arranged { IfOk result (λ lines. IsArranged lines.items) }
{
    let mut merging = Merging::new(alloc, lists)?;
    while merging.take_next(lists)? {}
    for thread in 1..lists.len() {
        merging.take_rest(lists, thread)?;
    }
    merging.take_rest(lists, 0)?;
    Ok(merging.lines)
}

/// Returns the index after the first claim of a list from this index on, and the place of the claim.
fn next_claim(list: &[NumberedLine], from: usize) -> Option<(usize, u64)>
    ensures { FindsClaim list.now from result }
{
    let mut at = from;
    while at < list.len() {
        if let RingLine::Claimed(claim) = list[at].line {
            return Some((at + 1, claim.place));
        }
        at += 1;
    }
    None
}

/// The lines that were taken so far.
#[derive(Drop)]
pub struct Merging {
    /// The number of lines that were taken from each list.
    pub taken: Vec<usize>,
    pub lines: Vec<NumberedLine>,
    /// The place of the next claim of each list, and the index of the list.
    pub turns: BinaryHeap<Reverse<(u64, usize)>>,
}

impl Merging {
    /// No lines of these lists.
    fn new(alloc: Global, lists: &[Vec<NumberedLine>]) -> Result<Self, AllocError>
        requires { AreLists (lists_of lists.now) }
        ensures { IfOk result (IsMerging (lists_of lists.now)) }
    {
        let mut merging = Merging {
            taken: vec![in alloc; 0usize; lists.len()]?,
            lines: Vec::new(alloc),
            turns: BinaryHeap::new(alloc),
        };
        for thread in 0..lists.len() {
            merging.add_turn(lists, thread)?;
        }
        Ok(merging)
    }

    /// Takes the lines of the list whose turn it is, up to its next claim. A turn that is not at the next claim of its
    /// list is dropped. Returns false if no turn is left, so that no list has a claim.
    fn take_next(&mut self, lists: &[Vec<NumberedLine>]) -> Result<bool, AllocError>
        requires lists { AreLists (lists_of lists.now) }
        requires merging { IsMerging (lists_of lists.now) self.old }
        ensures merging { OnOk result (IsMerging (lists_of lists.now) self.new) }
        ensures more { IfOk result (λ more. MatchBool more
            (left_in (lists_of lists.now) self.new.taken.items + heap_len self.new.turns
            < left_in (lists_of lists.now) self.old.taken.items + heap_len self.old.turns)
            (NoClaims (lists_of lists.now) self.new.taken.items)) }
    {
        let Some(Reverse((place, thread))) = self.turns.pop() else {
            return Ok(false);
        };
        if let Some(end) = self.end_of_turn(lists, thread, place) {
            self.take_to(lists, thread, end)?;
            self.add_turn(lists, thread)?;
        }
        Ok(true)
    }

    /// Adds the turn of a list, if the list has a claim that was not taken.
    fn add_turn(&mut self, lists: &[Vec<NumberedLine>], thread: usize) -> Result<(), AllocError>
        requires within { thread < length lists.now }
        requires taken { length self.old.taken.items ≡ length lists.now }
        ensures turn { OnOk result (AddsTurn (lists_of lists.now) self.old.taken.items thread
            (heap_items self.old.turns) (heap_items self.new.turns)) }
        ensures len { OnOk result (heap_len self.new.turns ≤ heap_len self.old.turns + 1) }
        ensures taken { self.new.taken ≡ self.old.taken }
        ensures lines { self.new.lines ≡ self.old.lines }
    {
        if let Some((_, place)) = self.next_claim(lists, thread) {
            self.turns.push(Reverse((place, thread)))?;
        }
        Ok(())
    }

    /// Returns the index after the next claim of a list, and the place of the claim.
    fn next_claim(&self, lists: &[Vec<NumberedLine>], thread: usize) -> Option<(usize, u64)>
        requires within { thread < length lists.now }
        requires taken { length self.now.taken.items ≡ length lists.now }
        ensures { FindsClaim (slice_index_or (lists_of lists.now) thread [])
            (slice_index self.now.taken.items thread) result }
    {
        next_claim(&lists[thread], self.taken[thread])
    }

    /// Returns the index after the next claim of a list, if the claim is at this place.
    fn end_of_turn(&self, lists: &[Vec<NumberedLine>], thread: usize, place: u64) -> Option<usize>
        requires within { thread < length lists.now }
        requires taken { length self.now.taken.items ≡ length lists.now }
        ensures { FindsClaimAt (lists_of lists.now) self.now.taken.items thread place result }
    {
        match self.next_claim(lists, thread) {
            Some((end, its_place)) if its_place == place => Some(end),
            _ => None,
        }
    }

    /// Takes the lines of a list before this index that were not taken.
    fn take_to(
        &mut self,
        lists: &[Vec<NumberedLine>],
        thread: usize,
        end: usize,
    ) -> Result<(), AllocError>
        requires within { thread < length lists.now }
        requires taken { length self.old.taken.items ≡ length lists.now }
        requires from { slice_index self.old.taken.items thread ≤ end }
        requires end { end ≤ length (slice_index_or (lists_of lists.now) thread []) }
        ensures { OnOk result (TakesTo (lists_of lists.now) thread end self.old self.new) }
    {
        let from = self.taken[thread];
        self.lines.extend_from_slice(&lists[thread][from..end])?;
        self.taken[thread] = end;
        Ok(())
    }

    /// Takes all lines of a list that were not taken.
    fn take_rest(&mut self, lists: &[Vec<NumberedLine>], thread: usize) -> Result<(), AllocError>
        requires within { thread < length lists.now }
        requires merged { AreMerged (lists_of lists.now) self.old.taken.items self.old.lines.items }
        ensures { OnOk result (TakesTo (lists_of lists.now) thread
            (length (slice_index_or (lists_of lists.now) thread [])) self.old self.new) }
    {
        self.take_to(lists, thread, lists[thread].len())
    }
}
