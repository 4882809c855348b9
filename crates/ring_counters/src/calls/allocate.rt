//! The calls that make, allocate and free counters.
ghost use Rattle.std.specs.Prelude.{◌≡◌, ◌^◌, ◌≤◌, ◌↔◌, pos, [], ◌∷◌, ◌++◌, length, nat_lt};
ghost use Rattle.std.specs.Prelude.{Err, IfOk, IsErr, IsOkUnless, MatchOption, OnErr, OnOk};
ghost use Rattle.std.specs.List.{list_all};
ghost use Rattle.ring_layout.specs.Refusals.{all_shares};
ghost use Rattle.ring_counters.specs.Registry.{allocated_in, allocation_of, answer, closed_in, fresh_registry};
ghost use Rattle.ring_counters.specs.Registry.{make_refusal_of, new_counter, owned_ids, reclaimed_in, text_refusal_of};
ghost use Rattle.ring_counters.specs.{Views.value_write, Seats.values_count};
ghost use Rattle.ring_counters.specs.Manager.{refusal_at, registry_of, writes_of, shares_of, IsManagerOf, KeepsValues};

use crate::fault::{AllocateRefused, BadOwner, IdFault, MakeFault};
use crate::manager::CountersManager;
use crate::records::Records;
use crate::records::wanted::Wanted;
use crate::values::seats::CounterValues;
use ring_layout::counter_descriptor::{MAX_COUNTERS, MAX_KEY_LENGTH, MAX_LABEL_LENGTH};
use std::alloc::Global;

/// Returns whether each byte is below 128.
fn is_ascii(label: &[u8]) -> bool
    ensures { result ≡ list_all (λ b. nat_lt b 128) label.now }
{
    // The loop has no early return, so that many bytes are tested in one instruction. The union has its highest bit set
    // if any byte has it set.
    let mut union = 0;
    for byte in label {
        union |= *byte;
    }
    union < 128
}

/// Refuses a key or a label that breaks its limit.
fn check_texts(key: &[u8], label: &[u8]) -> Result<(), AllocateRefused>
    ensures { result ≡ answer (text_refusal_of key.now label.now) tt }
{
    if key.len() > MAX_KEY_LENGTH {
        return Err(AllocateRefused::KeyTooLong);
    }
    if label.len() > MAX_LABEL_LENGTH {
        return Err(AllocateRefused::LabelTooLong);
    }
    if is_ascii(label) {
        Ok(())
    } else {
        Err(AllocateRefused::LabelNotAscii)
    }
}

impl CountersManager {
    /// Makes `count` unused counters, and the values that readers load. A freed id may be allocated again `reuse_ms`
    /// milliseconds after it was freed.
    ///
    /// Returns `BadCount` if the count is 0 or above 4,096, and otherwise `OutOfMemory` if there is no memory. The call
    /// takes all the memory that the counters ever need.
    pub fn new(
        alloc: Global,
        count: u32,
        reuse_ms: u32,
    ) -> Result<(CounterValues, CountersManager), MakeFault>
        ensures refusal { MatchOption (make_refusal_of count)
            (IsOkUnless result MakeFault.OutOfMemory) (λ fault. result ≡ Err fault) }
        ensures values { IfOk result (λ made. IsManagerOf made.0 made.1) }
        ensures count { IfOk result (λ made. values_count made.0 ≡ count) }
        ensures registry { IfOk result (λ made. registry_of made.1 ≡ fresh_registry count reuse_ms) }
        ensures writes { IfOk result (λ made. writes_of made.1 ≡ []) }
        ensures shares { IfOk result (λ made. shares_of made.1 ≡ all_shares) }
    {
        if count == 0 || count > MAX_COUNTERS {
            return Err(MakeFault::BadCount);
        }
        let Ok(records) = Records::new(alloc, count, reuse_ms) else {
            return Err(MakeFault::OutOfMemory);
        };
        let Ok((values, writer)) = CounterValues::new(alloc, count as usize) else {
            return Err(MakeFault::OutOfMemory);
        };
        Ok((values, CountersManager { records, writer }))
    }

    /// Allocates a counter without an owner, as `allocate_owned` does with the owner 0.
    pub fn allocate(
        &mut self,
        values: &CounterValues,
        now: u64,
        type_id: i32,
        key: &[u8],
        label: &[u8],
        registration: u64,
    ) -> Result<u32, AllocateRefused>
        requires { IsManagerOf values.now self.old }
        ensures id { result ≡ allocation_of (registry_of self.old) now key.now label.now }
        ensures registry { IfOk result (λ id. registry_of self.new
            ≡ allocated_in (registry_of self.old) id (new_counter type_id key.now label.now registration 0)) }
        ensures writes { IfOk result (λ id. writes_of self.new ≡ writes_of self.old ++ value_write id (pos 0) ∷ []) }
        ensures shares { shares_of self.new ≡ shares_of self.old }
        ensures values { IsManagerOf values.now self.new }
        ensures err { OnErr result (self.new ≡ self.old) }
    {
        self.allocate_owned(values, now, type_id, key, label, registration, 0)
    }

    /// Allocates a counter for an owner, and returns its id. The id is the first freed id, in order of freeing, whose
    /// deadline is at most `now`. If there is none, the id is the lowest one that was never used. The value is 0. A
    /// short key is followed by zeros.
    ///
    /// These are the errors, in this order:
    /// - `KeyTooLong` if the key has more than 112 bytes;
    /// - `LabelTooLong` if the label has more than 380 bytes;
    /// - `LabelNotAscii` if the label has a byte of 128 or more;
    /// - `NoFreeCounter` if no id is free.
    ///
    /// After an error nothing has changed. A key or a label is never cut.
    pub fn allocate_owned(
        &mut self,
        values: &CounterValues,
        now: u64,
        type_id: i32,
        key: &[u8],
        label: &[u8],
        registration: u64,
        owner: u64,
    ) -> Result<u32, AllocateRefused>
        requires { IsManagerOf values.now self.old }
        ensures id { result ≡ allocation_of (registry_of self.old) now key.now label.now }
        ensures registry { IfOk result (λ id. registry_of self.new
            ≡ allocated_in (registry_of self.old) id (new_counter type_id key.now label.now registration owner)) }
        ensures writes { IfOk result (λ id. writes_of self.new ≡ writes_of self.old ++ value_write id (pos 0) ∷ []) }
        ensures shares { shares_of self.new ≡ shares_of self.old }
        ensures values { IsManagerOf values.now self.new }
        ensures err { OnErr result (self.new ≡ self.old) }
    {
        check_texts(key, label)?;
        let wanted = Wanted {
            type_id,
            key,
            label,
            registration,
            owner,
        };
        match self.records.allocate(now, wanted) {
            Some(id) => {
                values.store(&mut self.writer, id, 0);
                Ok(id)
            }
            None => Err(AllocateRefused::NoFreeCounter),
        }
    }

    /// Frees a counter at the moment `now`, which is at most 2^62 milliseconds. Its id may be allocated again
    /// `reuse_ms` milliseconds later. The other words of the counter stay until then.
    ///
    /// Returns `BadId` and `NotAllocated` as `set` does. After an error nothing has changed.
    pub fn free(&mut self, now: u64, id: u32) -> Result<(), IdFault>
        requires { now ≤ 2 ^ 62 }
        ensures result { result ≡ answer (refusal_at self.old id) tt }
        ensures registry { OnOk result (registry_of self.new ≡ reclaimed_in (registry_of self.old) now id) }
        ensures values { KeepsValues self.old self.new }
        ensures err { OnErr result (self.new ≡ self.old) }
    {
        self.records.check_allocated(id)?;
        self.records.reclaim(now, id);
        Ok(())
    }

    /// Frees every counter in use of an owner, and returns their number. The moment `now` is at most 2^62 milliseconds.
    /// The counters are freed by rising id, each as `free` does. The call looks at every id that was ever used.
    ///
    /// Returns `BadOwner` if the owner is 0, which means that there is no owner. Nothing has then changed.
    pub fn close_owner(&mut self, now: u64, owner: u64) -> Result<u32, BadOwner>
        requires { now ≤ 2 ^ 62 }
        ensures refusal { IsErr result ↔ (owner ≡ 0) }
        ensures freed { IfOk result (λ freed. freed ≡ length (owned_ids (registry_of self.old) owner)) }
        ensures registry { OnOk result (registry_of self.new ≡ closed_in (registry_of self.old) now owner) }
        ensures values { KeepsValues self.old self.new }
        ensures err { OnErr result (self.new ≡ self.old) }
    {
        if owner == 0 {
            return Err(BadOwner);
        }
        Ok(self.records.close(now, owner))
    }
}
