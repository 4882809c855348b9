//! The functions that give ids to counters and free them, and the queue of freed ids.
ghost use Rattle.std.specs.Prelude.{◌≡◌, ℕ, ◌^◌, ◌<◌, ◌≤◌, ◌↔◌, true, IfNone, IfSome};
ghost use Rattle.std.specs.Prelude.{length, position, remove, slice_index, slice_set};
ghost use Rattle.std.specs.VecDeque.{deque_capacity};
ghost use Rattle.ring_counters.specs.{Allocating.HasShortTexts, Allocating.counter_wanted, Counter.deadline_of};
ghost use Rattle.ring_counters.specs.Kept.{last_deadline};
ghost use Rattle.ring_counters.specs.Registry.{allocated_in, closed_in, count_of, counter_at, is_allocated, is_due};
ghost use Rattle.ring_counters.specs.Registry.{is_owned, next_id, owned_ids, reclaimed_in, status_at, unused_id};

use crate::records::metadata::MetadataRecord;
use crate::records::wanted::Wanted;
use crate::records::{Records, ValueRecord};
use std::collections::VecDeque;

/// Takes the id at this place from the queue. The id is mostly the first one. The first id is taken without a test of
/// which end of the queue is nearer.
fn take_freed(freed: &mut VecDeque<u32>, at: usize) -> u32
    requires { at < length freed.old.items }
    ensures id { result ≡ slice_index freed.old.items at }
    ensures items { freed.new.items ≡ remove freed.old.items at }
    ensures capacity { deque_capacity freed.new ≡ deque_capacity freed.old }
{
    if at > 0 {
        let Some(id) = freed.remove(at) else {
            unreachable!()
        };
        return id;
    }
    let Some(id) = freed.pop_front() else {
        unreachable!()
    };
    id
}

/// Returns whether the deadlines along the queue still never fall after an id with this deadline is added.
fn stays_in_order(
    in_order: bool,
    freed: &VecDeque<u32>,
    metadata: &[MetadataRecord],
    deadline: u64,
) -> bool
    requires { (k : ℕ) → k < length freed.now.items → slice_index freed.now.items k < length metadata.now }
    ensures { result ≡ true ↔ (0 < length freed.now.items → (in_order ≡ true)
        × (last_deadline metadata.now freed.now.items ≤ deadline)) }
{
    match freed.back() {
        Some(last) => in_order && metadata[*last as usize].deadline() <= deadline,
        None => true,
    }
}

/// Makes the records of an id those of a counter in use.
fn fill(metadata: &mut MetadataRecord, values: &mut ValueRecord, wanted: Wanted<'_>)
    requires { HasShortTexts wanted }
    ensures metadata { metadata.new ≡ (counter_wanted wanted.entry).metadata }
    ensures values { values.new ≡ (counter_wanted wanted.entry).values }
{
    let Wanted {
        type_id,
        key,
        label,
        registration,
        owner,
    } = wanted;
    metadata.allocate(type_id, key, label);
    values.allocate(registration, owner);
}

impl Records {
    /// Returns how many ids of the queue must be searched for one whose deadline has passed. If the deadlines never
    /// fall, this is at most the first id.
    fn reach(&self) -> usize
        ensures most { result ≤ length self.now.freed }
        ensures some { 0 < length self.now.freed → 0 < result }
        ensures later { (k : ℕ) → result ≤ k → k < length self.now.freed
            → deadline_of (status_at self.now (slice_index self.now.freed 0))
            ≤ deadline_of (status_at self.now (slice_index self.now.freed k)) }
    {
        if self.in_order {
            self.freed.len().min(1)
        } else {
            self.freed.len()
        }
    }

    /// Returns the index in the queue of the first freed id whose deadline has passed.
    fn first_due(&self, now: u64) -> Option<usize>
        ensures { result ≡ position (λ id. is_due now (status_at self.now id)) self.now.freed }
    {
        for at in 0..self.reach() {
            if self.metadata[self.freed[at] as usize].deadline() <= now {
                return Some(at);
            }
        }
        None
    }

    /// Returns the lowest id that was never used.
    fn first_unused(&self) -> Option<u32>
        ensures id { result ≡ unused_id self.now }
        ensures inside { IfSome result (λ id. id < count_of self.now) }
    {
        if (self.used as usize) < self.metadata.len() {
            Some(self.used)
        } else {
            None
        }
    }

    /// Gives the freed id at this place of the queue to a counter.
    fn reuse(&mut self, at: usize, wanted: Wanted<'_>) -> u32
        requires at { at < length self.old.freed }
        requires short { HasShortTexts wanted }
        ensures id { result ≡ slice_index self.old.freed at }
        ensures inside { result < count_of self.old }
        ensures changes { self.new.counters ≡ slice_set self.old.counters result (counter_wanted wanted.entry) }
        ensures queue { self.new.freed ≡ remove self.old.freed at }
        ensures timeout { self.new.reuse_ms ≡ self.old.reuse_ms }
    {
        let id = take_freed(&mut self.freed, at);
        let metadata = &mut self.metadata[id as usize];
        let values = &mut self.values[id as usize];
        fill(metadata, values, wanted);
        self.live[id as usize] = true;
        id
    }

    /// Gives an id to a counter for the first time.
    fn begin(&mut self, id: u32, wanted: Wanted<'_>)
        requires id { unused_id self.old ≡ Some id }
        requires short { HasShortTexts wanted }
        ensures { self.new ≡ allocated_in self.old id (counter_wanted wanted.entry) }
    {
        let metadata = &mut self.metadata[id as usize];
        let values = &mut self.values[id as usize];
        fill(metadata, values, wanted);
        self.live[id as usize] = true;
        self.used = id + 1;
    }

    /// Gives an id to a counter, if an id is free.
    pub(crate) fn allocate(&mut self, now: u64, wanted: Wanted<'_>) -> Option<u32>
        requires { HasShortTexts wanted }
        ensures id { result ≡ next_id self.old now }
        ensures some { IfSome result (λ id. (id < count_of self.old)
            × (self.new ≡ allocated_in self.old id (counter_wanted wanted.entry))) }
        ensures none { IfNone result (self.new ≡ self.old) }
    {
        match self.first_due(now) {
            Some(at) => Some(self.reuse(at, wanted)),
            None => match self.first_unused() {
                Some(id) => {
                    self.begin(id, wanted);
                    Some(id)
                }
                None => None,
            },
        }
    }

    /// Frees an allocated counter.
    pub(crate) fn reclaim(&mut self, now: u64, id: u32)
        requires now { now ≤ 2 ^ 62 }
        requires allocated { is_allocated (status_at self.old id) ≡ true }
        ensures { self.new ≡ reclaimed_in self.old now id }
    {
        let deadline = now + u64::from(self.reuse_ms);
        self.in_order = stays_in_order(self.in_order, &self.freed, &self.metadata, deadline);
        let record = &mut self.metadata[id as usize];
        record.reclaim(deadline);
        self.live[id as usize] = false;
        self.freed.push_back_reserved(id);
    }

    /// Returns whether the counter is in use and has this owner.
    fn is_owned(&self, id: u32, owner: u64) -> bool
        requires { id < count_of self.now }
        ensures { result ≡ is_owned owner (counter_at self.now id) }
    {
        self.is_live(id) && self.values(id).owner() == owner
    }

    /// Frees the counters of an owner, by rising id, and returns their number.
    pub(crate) fn close(&mut self, now: u64, owner: u64) -> u32
        requires { now ≤ 2 ^ 62 }
        ensures freed { result ≡ length (owned_ids self.old owner) }
        ensures changes { self.new ≡ closed_in self.old now owner }
    {
        let mut freed = 0;
        for id in 0..self.used() {
            if self.is_owned(id, owner) {
                self.reclaim(now, id);
                freed += 1;
            }
        }
        freed
    }
}
