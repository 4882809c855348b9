//! The counters as vectors of records, with their values, their metadata, and the ids that are in use.
mod available;
pub(crate) mod bytes;
mod ids;
pub(crate) mod metadata;
pub(crate) mod wanted;

ghost use Rattle.std.specs.Prelude.{◌≡◌, ℕ, ◌<◌, ◌≤◌, pos, true, IfOk, length, replicate};
ghost use Rattle.std.specs.VecDeque.{deque_capacity};
ghost use Rattle.ring_counters.specs.Counter.{Values, unused_metadata, unused_values, unused_counter, value_word};
ghost use Rattle.ring_counters.specs.Registry.{answer, count_of, counter_at, fresh_registry, id_refusal_of};
ghost use Rattle.ring_counters.specs.Registry.{is_allocated, is_registered, live_of, range_refusal_of, registered_id};
ghost use Rattle.ring_counters.specs.{Registry.status_at, Registry.with_value, Infos.IsInfoOf, Infos.AreInfos};

use crate::fault::IdFault;
use crate::info::CounterInfo;
use crate::records::metadata::MetadataRecord;
use ring_layout::counter_descriptor::{
    MAX_KEY_LENGTH, MAX_LABEL_LENGTH, OWNER_ID_WORD, REGISTRATION_ID_WORD, VALUE_WORD,
};
use std::alloc::{AllocError, Global};
use std::collections::VecDeque;
use std::marker::Model;

/// A value record without the 13 words that are always 0. So the records of many counters are close together. A set
/// touches only this record and a flag of the manager.
#[derive(Drop)]
pub(crate) struct ValueRecord {
    value: i64,
    registration: u64,
    owner: u64,
}

impl Model for ValueRecord {
    ghost use Rattle.ring_counters.specs.Counter.{Values};

    ghost Value = { Values };

    ghost view = { λ r. record { value = r.value; registration = r.registration; owner = r.owner } };
}

impl ValueRecord {
    pub(crate) fn unused() -> Self
        ensures { result ≡ unused_values }
    {
        ValueRecord {
            value: 0,
            registration: 0,
            owner: 0,
        }
    }

    /// Makes the record one of a counter in use. The value is 0.
    pub(crate) fn allocate(&mut self, registration: u64, owner: u64)
        ensures { self.new ≡ record { value = pos 0; registration = registration; owner = owner } }
    {
        self.value = 0;
        self.registration = registration;
        self.owner = owner;
    }

    pub(crate) fn set(&mut self, value: i64)
        ensures { self.new ≡ record self.old { value = value } }
    {
        self.value = value;
    }

    pub(crate) fn value(&self) -> i64
        ensures { result ≡ self.now.value }
    {
        self.value
    }

    pub(crate) fn registration(&self) -> u64
        ensures { result ≡ self.now.registration }
    {
        self.registration
    }

    pub(crate) fn owner(&self) -> u64
        ensures { result ≡ self.now.owner }
    {
        self.owner
    }

    /// Returns the word with this number, of the 16 words that the record has.
    #[tactic(auto, unfolding(crate::specs::Counter::value_word))]
    pub(crate) fn word(&self, k: usize) -> u64
        requires { k < 16 }
        ensures { result ≡ value_word self.now k }
    {
        match k {
            VALUE_WORD => self.value.cast_unsigned(),
            REGISTRATION_ID_WORD => self.registration,
            OWNER_ID_WORD => self.owner,
            _ => 0,
        }
    }
}

#[derive(Drop)]
pub(crate) struct Records {
    metadata: Vec<MetadataRecord>,
    values: Vec<ValueRecord>,
    /// A list of whether each counter is in use, as its metadata say. Some calls need only this part of the metadata.
    live: Vec<bool>,
    /// The freed ids in order of freeing, with room for every id.
    freed: VecDeque<u32>,
    /// Whether the deadlines never fall along the queue. If so, and the first deadline has not passed, no deadline has.
    in_order: bool,
    /// The lowest id that was never used.
    used: u32,
    reuse_ms: u32,
}

impl Model for Records {
    ghost use Rattle.std.specs.Prelude.{◌≡◌, length};
    ghost use Rattle.std.specs.VecDeque.{deque_capacity};
    ghost use Rattle.ring_counters.specs.{Registry.Registry, Kept.live_flags, Kept.registry_in, Kept.IsKept};

    ghost Value = { Registry };

    ghost view = { λ a. registry_in a.metadata.items a.values.items a.freed.items a.reuse_ms };

    ghost invariant = { λ a. (length a.values.items ≡ length a.metadata.items)
        × IsKept (registry_in a.metadata.items a.values.items a.freed.items a.reuse_ms)
        (deque_capacity a.freed) a.used a.in_order
        × (a.live.items ≡ live_flags a.metadata.items) };
}

/// Returns this many metadata records that were never used.
fn unused_metadata_records(alloc: Global, count: u32) -> Result<Vec<MetadataRecord>, AllocError>
    ensures { IfOk result (λ v. v.items ≡ replicate count unused_metadata) }
{
    let mut records = Vec::with_capacity(alloc, count as usize)?;
    for id in 0..count {
        records.push_reserved(MetadataRecord::unused());
    }
    Ok(records)
}

/// Returns this many value records that were never used.
fn unused_value_records(alloc: Global, count: u32) -> Result<Vec<ValueRecord>, AllocError>
    ensures { IfOk result (λ v. v.items ≡ replicate count unused_values) }
{
    let mut records = Vec::with_capacity(alloc, count as usize)?;
    for id in 0..count {
        records.push_reserved(ValueRecord::unused());
    }
    Ok(records)
}

impl Records {
    pub(crate) fn new(alloc: Global, count: u32, reuse_ms: u32) -> Result<Self, AllocError>
        requires { count ≤ 4096 }
        ensures { IfOk result (λ r. r ≡ fresh_registry count reuse_ms) }
    {
        Ok(Records {
            metadata: unused_metadata_records(alloc, count)?,
            values: unused_value_records(alloc, count)?,
            live: vec![in alloc; false; count as usize]?,
            freed: VecDeque::with_capacity(alloc, count as usize)?,
            in_order: true,
            used: 0,
            reuse_ms,
        })
    }

    pub(crate) fn count(&self) -> u32
        ensures count { result ≡ count_of self.now }
        ensures most { result ≤ 4096 }
    {
        self.metadata.len() as u32
    }

    pub(crate) fn set(&mut self, id: u32, value: i64)
        requires { is_allocated (status_at self.old id) ≡ true }
        ensures { self.new ≡ with_value self.old id value }
    {
        let record = &mut self.values[id as usize];
        record.set(value);
    }

    pub(crate) fn metadata(&self, id: u32) -> &MetadataRecord
        requires { id < count_of self.now }
        ensures { result.now ≡ (counter_at self.now id).metadata }
    {
        &self.metadata[id as usize]
    }

    pub(crate) fn values(&self, id: u32) -> &ValueRecord
        requires { id < count_of self.now }
        ensures { result.now ≡ (counter_at self.now id).values }
    {
        &self.values[id as usize]
    }

    /// Returns the number of ids that were ever used. These are the ids below this number.
    pub(crate) fn used(&self) -> u32
        ensures most { result ≤ count_of self.now }
        ensures unused { (id : ℕ) → result ≤ id → counter_at self.now id ≡ unused_counter }
    {
        self.used
    }

    /// Refuses an id that no counter in use has.
    pub(crate) fn check_allocated(&self, id: u32) -> Result<(), IdFault>
        ensures { result ≡ answer (id_refusal_of self.now id) tt }
    {
        self.check_range(id)?;
        if self.is_live(id) {
            Ok(())
        } else {
            Err(IdFault::NotAllocated)
        }
    }

    /// Refuses an id that is not below the number of counters.
    pub(crate) fn check_range(&self, id: u32) -> Result<(), IdFault>
        ensures { result ≡ answer (range_refusal_of self.now id) tt }
    {
        if id < self.count() {
            Ok(())
        } else {
            Err(IdFault::BadId)
        }
    }

    /// Returns whether the counter is in use.
    pub(crate) fn is_live(&self, id: u32) -> bool
        requires { id < count_of self.now }
        ensures { result ≡ is_allocated (status_at self.now id) }
    {
        self.live[id as usize]
    }

    /// Returns whether the counter is in use, with this type and registration.
    fn is_registered(&self, id: u32, type_id: i32, registration: u64) -> bool
        requires { id < count_of self.now }
        ensures { result ≡ is_registered type_id registration (counter_at self.now id) }
    {
        self.is_live(id)
            && self.metadata(id).type_id() == type_id
            && self.values(id).registration() == registration
    }

    /// Returns the lowest id in use with this type and registration.
    pub(crate) fn find(&self, type_id: i32, registration: u64) -> Option<u32>
        ensures { result ≡ registered_id self.now type_id registration }
    {
        for id in 0..self.used() {
            if self.is_registered(id, type_id, registration) {
                return Some(id);
            }
        }
        None
    }

    /// Returns the record of one counter in a listing.
    fn info(&self, alloc: Global, id: u32) -> Result<CounterInfo, AllocError>
        requires { id < count_of self.now }
        ensures { IfOk result (λ info. IsInfoOf id (counter_at self.now id) info) }
    {
        let metadata = self.metadata(id);
        let values = self.values(id);
        let mut key = [0; MAX_KEY_LENGTH];
        metadata.key_into(&mut key);
        let mut label = [0; MAX_LABEL_LENGTH];
        let len = metadata.label_into(&mut label);
        Ok(CounterInfo {
            id,
            type_id: metadata.type_id(),
            value: values.value(),
            registration: values.registration(),
            owner: values.owner(),
            key,
            label: label[..len].to_vec(alloc)?,
        })
    }

    /// Lists the counters in use, by rising id.
    pub(crate) fn live(&self, alloc: Global) -> Result<Vec<CounterInfo>, AllocError>
        ensures { IfOk result (λ infos. AreInfos infos.items (live_of self.now)) }
    {
        let mut infos = Vec::new(alloc);
        for id in 0..self.used() {
            if self.is_live(id) {
                infos.push(self.info(alloc, id)?)?;
            }
        }
        Ok(infos)
    }
}
