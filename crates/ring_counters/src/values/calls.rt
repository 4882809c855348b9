//! The calls on values, and the steps of these calls. The writer stores, and readers load. Two more steps split a seat
//! and join two seats.
ghost use Rattle.std.specs.Prelude.{◌≡◌, ℕ, ◌+◌, ◌<◌, ◌≤◌, ◌↔◌, List, [], ◌∷◌, ◌++◌, true, false, IfOk, IfErr, IsOk};
ghost use Rattle.std.specs.Prelude.{OnOk, OnErr};
ghost use Rattle.ring_layout.specs.Refusals.{all_shares};
ghost use Rattle.ring_counters.specs.{declared.values.view.ValueWrite.ValueWrite, ValueWrites.AreLoads};
ghost use Rattle.ring_counters.specs.Registry.{answer, value_at, value_plus, is_raised_by};
ghost use Rattle.ring_counters.specs.{Views.value_write, Seats.values_count, Seats.writer_writes};
ghost use Rattle.ring_counters.specs.Seats.{IsNewReaderOf, IsReaderOf, IsWriterOf, LoadsValue, loads_of, made_of};
ghost use Rattle.ring_counters.specs.Manager.{refusal_at, registry_of, shares_of, IsManagerOf, SetsValue};

use crate::fault::{BadId, IdFault};
use crate::manager::CountersManager;
use crate::values::plays::{CutReader, JoinReader, LearnLoads, LoadValue, StoreValue};
use crate::values::seats::{CounterValues, ValueReader, ValueWriter};
use atomic_table::Table;
use ring_layout::{ALL_SHARES, NoShares, has_spare_share};
use std::alloc::{AllocError, Global};

impl CounterValues {
    /// Returns the values of `count` ids, which are all 0, and their writer.
    pub(crate) fn new(
        alloc: Global,
        count: usize,
    ) -> Result<(CounterValues, ValueWriter), AllocError>
        requires some { 0 < count }
        requires few { count ≤ 4096 }
        ensures { IfOk result (λ r. IsWriterOf r.0 r.1 × (values_count r.0 ≡ count)
            × (writer_writes r.1 ≡ []) × (r.1.shares ≡ all_shares)) }
    {
        let words = vec![in alloc; 0u64; count]?;
        let (table, seat) = Table::of_words(alloc, &words, &count)?;
        Ok((
            CounterValues { table },
            ValueWriter {
                seat,
                shares: ALL_SHARES,
            },
        ))
    }

    /// Stores a value.
    pub(crate) fn store(&self, writer: &mut ValueWriter, id: u32, value: i64)
        requires writer { IsWriterOf self.now writer.old }
        requires id { id < values_count self.now }
        ensures writer { IsWriterOf self.now writer.new }
        ensures writes { writer_writes writer.new ≡ writer_writes writer.old ++ value_write id value ∷ [] }
        ensures shares { writer.new.shares ≡ writer.old.shares }
    {
        self.table
            .shared
            .store::<StoreValue>(&mut writer.seat, id as usize, value.cast_unsigned());
    }

    /// Loads the value of an id. The value is 0 if the id was never used, and the last value if its counter was freed.
    /// The call takes one step and no memory.
    ///
    /// Returns `BadId` if the id is not below the number of counters. The reader is then unchanged.
    pub fn load(&self, reader: &mut ValueReader, id: u32) -> Result<i64, BadId>
        requires { IsReaderOf self.now reader.old }
        ensures reader { IsReaderOf self.now reader.new }
        ensures in_range { IsOk result ↔ (id < values_count self.now) }

        // The value is the id's value after some writes, and was loaded in this call. These writes include all writes
        // that the reader has seen.
        ensures loads { IfOk result (λ value. LoadsValue id value reader.old reader.new) }
        ensures made { made_of reader.new ≡ made_of reader.old }
        ensures err { IfErr result (λ _. reader.new ≡ reader.old) }
    {
        if id as usize >= self.table.word_count() {
            return Err(BadId);
        }
        let word = self
            .table
            .shared
            .load::<LoadValue>(&mut reader.seat, id as usize);
        Ok(word.cast_signed())
    }

    /// Makes a reader, which takes one share of the writer.
    pub(crate) fn split(&self, writer: &mut ValueWriter) -> Result<ValueReader, NoShares>
        requires { IsWriterOf self.now writer.old }
        ensures writer { IsWriterOf self.now writer.new }
        ensures writes { writer_writes writer.new ≡ writer_writes writer.old }
        ensures enough { IsOk result ↔ (1 < writer.old.shares) }
        ensures reader { IfOk result (IsNewReaderOf self.now (writer_writes writer.old)) }
        ensures shares { IfOk result (λ _. writer.new.shares + 1 ≡ writer.old.shares) }
        ensures err { IfErr result (λ _. writer.new ≡ writer.old) }
    {
        if !has_spare_share(writer.shares) {
            return Err(NoShares);
        }
        let seat = self.table.shared.split_seat::<CutReader>(&mut writer.seat);
        writer.shares -= 1;
        Ok(ValueReader { seat })
    }

    /// Takes a reader back, with its share.
    pub(crate) fn join(&self, writer: &mut ValueWriter, reader: ValueReader)
        requires writer { IsWriterOf self.now writer.old }
        requires reader { IsReaderOf self.now reader }
        ensures writer { IsWriterOf self.now writer.new }
        ensures writes { writer_writes writer.new ≡ writer_writes writer.old }
        ensures shares { writer.new.shares ≡ writer.old.shares + 1 }
        ensures loads { AreLoads (made_of reader) (loads_of reader) (writer_writes writer.old) }
    {
        let ValueReader { seat } = reader;
        let shares = writer.shares + 1;
        self.table
            .shared
            .join_seat::<JoinReader>(&mut writer.seat, seat);
        // Only the next step says what the joined reader loaded.
        self.table.shared.load::<LearnLoads>(&mut writer.seat, 0);
        writer.shares = shares;
    }
}

impl CountersManager {
    /// Sets the value of a counter in use.
    ///
    /// Returns `BadId` if the id is not below the number of counters, and `NotAllocated` if no counter in use has the
    /// id. After an error nothing has changed.
    pub fn set(&mut self, values: &CounterValues, id: u32, value: i64) -> Result<(), IdFault>
        requires { IsManagerOf values.now self.old }
        ensures result { result ≡ answer (refusal_at self.old id) tt }
        ensures sets { OnOk result (SetsValue id value self.old self.new) }
        ensures shares { shares_of self.new ≡ shares_of self.old }
        ensures values { IsManagerOf values.now self.new }
        ensures err { OnErr result (self.new ≡ self.old) }
    {
        self.records.check_allocated(id)?;
        self.records.set(id, value);
        values.store(&mut self.writer, id, value);
        Ok(())
    }

    /// Adds to the value of a counter in use, and returns the value before the addition. The call makes one `set`.
    ///
    /// The sum is taken modulo 2^64. Above 2^63 - 1 it wraps to -2^63, and below -2^63 it wraps to 2^63 - 1. The errors
    /// are those of `set`. After an error nothing has changed.
    pub fn add(&mut self, values: &CounterValues, id: u32, delta: i64) -> Result<i64, IdFault>
        requires { IsManagerOf values.now self.old }
        ensures before { result ≡ answer (refusal_at self.old id) (value_at (registry_of self.old) id) }
        ensures sets { OnOk result (SetsValue id (value_plus (registry_of self.old) id delta) self.old self.new) }
        ensures shares { shares_of self.new ≡ shares_of self.old }
        ensures values { IsManagerOf values.now self.new }
        ensures err { OnErr result (self.new ≡ self.old) }
    {
        let before = self.value(id)?;
        self.set(values, id, before.wrapping_add(delta))?;
        Ok(before)
    }

    /// Sets the value of a counter in use if the value was less. Returns whether the value was set. The call makes one
    /// `set`, or does nothing.
    ///
    /// The errors are those of `set`. After an error nothing has changed.
    pub fn propose_max(
        &mut self,
        values: &CounterValues,
        id: u32,
        value: i64,
    ) -> Result<bool, IdFault>
        requires { IsManagerOf values.now self.old }
        ensures raised { result ≡ answer (refusal_at self.old id) (is_raised_by (registry_of self.old) id value) }
        ensures sets { IfOk result (λ raised. raised ≡ true → SetsValue id value self.old self.new) }
        ensures kept { IfOk result (λ raised. raised ≡ false → self.new ≡ self.old) }
        ensures shares { shares_of self.new ≡ shares_of self.old }
        ensures values { IsManagerOf values.now self.new }
        ensures err { OnErr result (self.new ≡ self.old) }
    {
        let is_below = self.value(id)? < value;
        if is_below {
            self.set(values, id, value)?;
        }
        Ok(is_below)
    }
}
