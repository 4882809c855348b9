//! The calls that read counters, and that make readers for other threads.
ghost use Rattle.std.specs.Prelude.{◌≡◌, ℕ, ◌+◌, ◌<◌, ◌↔◌, length, IfOk, IfErr, OnOk, OnErr, IsOk};
ghost use Rattle.ring_counters.specs.{Counter.zero_padded, Counter.state_of, Counter.deadline_of, ValueWrites.AreLoads};
ghost use Rattle.ring_counters.specs.Counter.{metadata_word as metadata_word_of, value_word as value_word_of};
ghost use Rattle.ring_counters.specs.Registry.{answer, count_of, live_of, registered_id};
ghost use Rattle.ring_counters.specs.{Infos.AreInfos, Manager.counter_in, Manager.range_refusal_at, Manager.refusal_at};
ghost use Rattle.ring_counters.specs.Agree.{Agree};
ghost use Rattle.ring_counters.specs.Seats.{IsNewReaderOf, IsReaderOf, made_of, loads_of};
ghost use Rattle.ring_counters.specs.Manager.{registry_of, writes_of, shares_of, IsManagerOf, KeepsCounters};

use crate::fault::{IdFault, OutOfMemory};
use crate::info::CounterInfo;
use crate::manager::CountersManager;
use crate::values::seats::{CounterValues, ValueReader};
use ring_layout::NoShares;
use ring_layout::counter_descriptor::{MAX_KEY_LENGTH, MAX_LABEL_LENGTH};
use std::alloc::Global;

impl CountersManager {
    /// Returns the number of counters of this manager. An id is in range if it is below this number.
    pub fn count(&self) -> u32
        ensures { result ≡ count_of (registry_of self.now) }
    {
        self.records.count()
    }

    /// Returns the value of a counter in use.
    ///
    /// Returns `BadId` if the id is not below the number of counters, and `NotAllocated` if no counter in use has the
    /// id.
    pub fn value(&self, id: u32) -> Result<i64, IdFault>
        ensures { result ≡ answer (refusal_at self.now id) (counter_in self.now id).values.value }
    {
        self.records.check_allocated(id)?;
        Ok(self.records.values(id).value())
    }

    /// Returns the owner of a counter in use, or 0 if the counter has no owner. The errors are those of `value`.
    pub fn owner(&self, id: u32) -> Result<u64, IdFault>
        ensures { result ≡ answer (refusal_at self.now id) (counter_in self.now id).values.owner }
    {
        self.records.check_allocated(id)?;
        Ok(self.records.values(id).owner())
    }

    /// Returns the type that a counter in use was allocated with. The errors are those of `value`.
    pub fn type_id(&self, id: u32) -> Result<i32, IdFault>
        ensures { result ≡ answer (refusal_at self.now id) (counter_in self.now id).metadata.type_id }
    {
        self.records.check_allocated(id)?;
        Ok(self.records.metadata(id).type_id())
    }

    /// Returns the registration id that a counter in use was allocated with. The errors are those of `value`.
    pub fn registration(&self, id: u32) -> Result<u64, IdFault>
        ensures { result ≡ answer (refusal_at self.now id) (counter_in self.now id).values.registration }
    {
        self.records.check_allocated(id)?;
        Ok(self.records.values(id).registration())
    }

    /// Returns the lowest id in use with this type and registration id, or `None` if there is no such id. The call
    /// looks at every id that was ever used.
    pub fn find(&self, type_id: i32, registration: u64) -> Option<u32>
        ensures { result ≡ registered_id (registry_of self.now) type_id registration }
    {
        self.records.find(type_id, registration)
    }

    /// Copies the label of a counter in use, with zeros after it, and returns its length in bytes. The errors are those
    /// of `value`. After an error `label` is unchanged.
    pub fn label_into(&self, id: u32, label: &mut [u8; MAX_LABEL_LENGTH]) -> Result<usize, IdFault>
        ensures result { result ≡ answer (refusal_at self.now id) (length (counter_in self.now id).metadata.label) }
        ensures label { OnOk result (label.new ≡ zero_padded 380 (counter_in self.now id).metadata.label) }
        ensures err { OnErr result (label.new ≡ label.old) }
    {
        self.records.check_allocated(id)?;
        Ok(self.records.metadata(id).label_into(label))
    }

    /// Copies the key of a counter in use. A short key is followed by zeros. The errors are those of `value`. After an
    /// error `key` is unchanged.
    pub fn key_into(&self, id: u32, key: &mut [u8; MAX_KEY_LENGTH]) -> Result<(), IdFault>
        ensures result { result ≡ answer (refusal_at self.now id) tt }
        ensures key { OnOk result (key.new ≡ (counter_in self.now id).metadata.key) }
        ensures err { OnErr result (key.new ≡ key.old) }
    {
        self.records.check_allocated(id)?;
        self.records.metadata(id).key_into(key);
        Ok(())
    }

    /// Returns the state of an id. The state is 0 if the id was never used, 1 if its counter is in use, and -1 if its
    /// counter was freed.
    ///
    /// Returns `BadId` if the id is not below the number of counters.
    pub fn state(&self, id: u32) -> Result<i32, IdFault>
        ensures { result ≡ answer (range_refusal_at self.now id) (state_of (counter_in self.now id).metadata.status) }
    {
        self.records.check_range(id)?;
        Ok(self.records.metadata(id).state())
    }

    /// Returns the moment from which an id may be allocated again, in milliseconds. This moment is 0 if the id was
    /// never used, and 2^63 - 1 if its counter is in use. Returns `BadId` as `state` does.
    pub fn deadline(&self, id: u32) -> Result<u64, IdFault>
        ensures { result
            ≡ answer (range_refusal_at self.now id) (deadline_of (counter_in self.now id).metadata.status) }
    {
        self.records.check_range(id)?;
        Ok(self.records.metadata(id).deadline())
    }

    /// Lists the counters in use, by rising id. The call looks at every id that was ever used.
    ///
    /// Returns `OutOfMemory` if memory runs out.
    pub fn live(&self, alloc: Global) -> Result<Vec<CounterInfo>, OutOfMemory>
        ensures { IfOk result (λ infos. AreInfos infos.items (live_of (registry_of self.now))) }
    {
        match self.records.live(alloc) {
            Ok(infos) => Ok(infos),
            Err(_error) => Err(OutOfMemory),
        }
    }

    /// Returns the word `k` of an id's metadata record.
    pub fn metadata_word(&self, id: u32, k: usize) -> u64
        requires id { id < count_of (registry_of self.now) }
        requires k { k < 64 }
        ensures { result ≡ metadata_word_of (counter_in self.now id).metadata k }
    {
        self.records.metadata(id).word(k)
    }

    /// Returns the word `k` of an id's value record.
    pub fn value_word(&self, id: u32, k: usize) -> u64
        requires id { id < count_of (registry_of self.now) }
        requires k { k < 16 }
        ensures { result ≡ value_word_of (counter_in self.now id).values k }
    {
        self.records.values(id).word(k)
    }

    /// Makes a reader of the values, for another thread. The reader takes one share.
    ///
    /// Returns `NoShares` if only one share is left. Nothing has then changed.
    pub fn reader(&mut self, values: &CounterValues) -> Result<ValueReader, NoShares>
        requires { IsManagerOf values.now self.old }
        ensures enough { IsOk result ↔ (1 < shares_of self.old) }
        ensures reader { IfOk result (IsNewReaderOf values.now (writes_of self.old)) }
        ensures shares { IfOk result (λ _. shares_of self.new + 1 ≡ shares_of self.old) }
        ensures keeps { KeepsCounters values.now self.old self.new }
        ensures err { OnErr result (self.new ≡ self.old) }
    {
        values.split(&mut self.writer)
    }

    /// Takes a reader back, with its share.
    pub fn join_reader(&mut self, values: &CounterValues, reader: ValueReader)
        requires manager { IsManagerOf values.now self.old }
        requires reader { IsReaderOf values.now reader }

        // The values that the reader loaded are values after prefixes of the writes. After all of the writes the values
        // are the registry's.
        ensures loads { AreLoads (made_of reader) (loads_of reader) (writes_of self.new) }
        ensures agree { Agree (registry_of self.new) (writes_of self.new) }
        ensures shares { shares_of self.new ≡ shares_of self.old + 1 }
        ensures keeps { KeepsCounters values.now self.old self.new }
    {
        values.join(&mut self.writer, reader);
    }

    /// Returns the number of shares that are not with readers. This number is 65,536 at first.
    pub fn value_shares(&self) -> u32
        ensures { result ≡ shares_of self.now }
    {
        self.writer.shares
    }
}
