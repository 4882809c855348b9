//! Counters with their values.
ghost use Rattle.std.specs.Prelude.{◌≡◌, ◌≤◌, ◌^◌, [], negsuc, pos, IfErr, IfOk, IsOkUnless, MatchOption, Err};
ghost use Rattle.ring_layout.specs.Refusals.{all_shares};
ghost use Rattle.ring_counters.specs.declared.fault.MakeFault.TheVariants.{OutOfMemory};
ghost use Rattle.ring_counters.specs.{Manager.registry_of, Manager.shares_of, Manager.writes_of, Seats.values_count};
ghost use Rattle.ring_counters.specs.Registry.{fresh_registry, make_refusal_of};
ghost use Rattle.ring_ends.specs.Counters.{AddsTo, ClosesOwner, Frees, Lends, Manages, Raises, Replaces, Sets, SetsExpected, TakesReader, TriesAllocate};
ghost use Rattle.ring_ends.specs.declared.many_to_one.SplitFault.TheVariants.{OneShare};

use crate::lending::Lender;
use crate::many_to_one::SplitFault;
use crate::reader::ReaderEnd;
use ring_counters::{
    AllocateRefused, BadOwner, CounterValues, CountersManager, IdFault, MakeFault,
};
use std::alloc::Global;
use std::marker::Model;
use std::sync::Arc;

/// A manager of counters, with the values that readers load.
#[derive(Drop)]
pub struct CountersEnd {
    values: Arc<CounterValues>,
    manager: CountersManager,
}

impl Model for CountersEnd {
    ghost use Rattle.std.specs.Arc.{arc_value};
    ghost use Rattle.ring_counters.specs.Manager.{IsManagerOf};
    ghost use Rattle.ring_ends.specs.Counters.{Counters};

    ghost Value = { Counters };

    ghost view = { λ e. record { values = arc_value e.values; manager = e.manager } };

    ghost invariant = { λ e. IsManagerOf (arc_value e.values) e.manager };
}

impl CountersEnd {
    /// Makes `count` counters, of which none is used, and all shares of their values. The id of a freed counter may be
    /// allocated again `reuse_ms` milliseconds later. The errors are those of `CountersManager::new`.
    pub fn new(alloc: Global, count: u32, reuse_ms: u32) -> Result<CountersEnd, MakeFault>
        ensures refused { MatchOption (make_refusal_of count) (IsOkUnless result OutOfMemory)
            (λ fault. result ≡ Err fault) }
        ensures registry { IfOk result (λ made. registry_of made.manager ≡ fresh_registry count reuse_ms) }
        ensures writes { IfOk result (λ made. writes_of made.manager ≡ []) }
        ensures shares { IfOk result (λ made. shares_of made.manager ≡ all_shares) }
        ensures values { IfOk result (λ made. values_count made.values ≡ count) }
    {
        let (values, manager) = CountersManager::new(alloc, count, reuse_ms)?;
        let Ok(values) = Arc::new(alloc, values) else {
            return Err(MakeFault::OutOfMemory);
        };
        Ok(CountersEnd { values, manager })
    }

    /// Returns the manager, which answers all that can be asked of the counters.
    pub fn counters(&self) -> &CountersManager
        ensures { result.now ≡ self.now.manager }
    {
        &self.manager
    }

    /// Allocates a counter for an owner, and returns its id. The owner 0 stands for none.
    pub fn allocate_owned(
        &mut self,
        now: u64,
        type_id: i32,
        key: &[u8],
        label: &[u8],
        registration: u64,
        owner: u64,
    ) -> Result<u32, AllocateRefused>
        ensures { Manages (TriesAllocate now type_id key.now label.now registration owner) self.old result self.new }
    {
        self.manager.allocate_owned(&self.values, now, type_id, key, label, registration, owner)
    }

    /// Sets the value of a counter in use.
    pub fn set(&mut self, id: u32, value: i64) -> Result<(), IdFault>
        ensures { Manages (Sets id value tt) self.old result self.new }
    {
        self.manager.set(&self.values, id, value)
    }

    /// Adds to the value of a counter in use, modulo 2^64, and returns the value before.
    pub fn add(&mut self, id: u32, delta: i64) -> Result<i64, IdFault>
        ensures { Manages (AddsTo id delta) self.old result self.new }
    {
        self.manager.add(&self.values, id, delta)
    }

    /// Adds 1 to the value of a counter in use, as `add` does, and returns the value before.
    pub fn increment(&mut self, id: u32) -> Result<i64, IdFault>
        ensures { Manages (AddsTo id (pos 1)) self.old result self.new }
    {
        self.manager.increment(&self.values, id)
    }

    /// Subtracts 1 from the value of a counter in use, as `add` does, and returns the value before.
    pub fn decrement(&mut self, id: u32) -> Result<i64, IdFault>
        ensures { Manages (AddsTo id (negsuc 0)) self.old result self.new }
    {
        self.manager.decrement(&self.values, id)
    }

    /// Sets the value of a counter in use, and returns the value before.
    pub fn get_and_set(&mut self, id: u32, value: i64) -> Result<i64, IdFault>
        ensures { Manages (Replaces id value) self.old result self.new }
    {
        self.manager.get_and_set(&self.values, id, value)
    }

    /// Sets the value of a counter in use if the value was less, and returns whether it did.
    pub fn propose_max(&mut self, id: u32, value: i64) -> Result<bool, IdFault>
        ensures { Manages (Raises id value) self.old result self.new }
    {
        self.manager.propose_max(&self.values, id, value)
    }

    /// Sets the value of a counter in use if the value was the expected one, and returns whether it did.
    pub fn compare_and_set(&mut self, id: u32, expected: i64, value: i64) -> Result<bool, IdFault>
        ensures { Manages (SetsExpected id expected value) self.old result self.new }
    {
        self.manager
            .compare_and_set(&self.values, id, expected, value)
    }

    /// Frees a counter in use at the moment `now`, which is at most 2^62 milliseconds.
    pub fn free(&mut self, now: u64, id: u32) -> Result<(), IdFault>
        requires { now ≤ 2 ^ 62 }
        ensures { Manages (Frees now id) self.old result self.new }
    {
        self.manager.free(now, id)
    }

    /// Frees each counter in use of an owner, at the moment `now`, and returns their number.
    pub fn close_owner(&mut self, now: u64, owner: u64) -> Result<u32, BadOwner>
        requires { now ≤ 2 ^ 62 }
        ensures { Manages (ClosesOwner now owner) self.old result self.new }
    {
        self.manager.close_owner(now, owner)
    }

    /// Makes a reader of the values, for another thread, with one share of these counters.
    pub fn reader(&mut self) -> Result<ReaderEnd, SplitFault>
        ensures lent { IfOk result (λ reader. Lends self.old reader self.new) }
        ensures refused { IfErr result (λ fault. (self.new ≡ self.old)
            × (fault ≡ OneShare → shares_of self.old.manager ≤ 1)) }
    {
        let Ok(values) = Arc::try_clone(&self.values) else {
            return Err(SplitFault::OutOfMemory);
        };
        match self.manager.reader(&self.values) {
            Ok(reader) => Ok(ReaderEnd {
                values: Lender::Own(values),
                reader,
            }),
            Err(_) => Err(SplitFault::OneShare),
        }
    }

    /// Takes a reader of these values back, with its share.
    pub fn join(&mut self, reader: ReaderEnd)
        requires { reader.values ≡ self.old.values }
        ensures { TakesReader self.old reader self.new }
    {
        let ReaderEnd { values: _, reader } = reader;
        self.manager.join_reader(&self.values, reader);
    }
}
