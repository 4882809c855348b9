//! The call that counts how many counters can be allocated.
ghost use Rattle.std.specs.Prelude.{◌≡◌, ◌↔◌, None};
ghost use Rattle.ring_counters.specs.{Available.available_in, Manager.registry_of, Registry.next_id};

use crate::manager::CountersManager;

impl CountersManager {
    /// Returns the number of counters that can be allocated at the moment `now`, in milliseconds. These are the ids
    /// that were never used, and the freed ids whose deadline is at most `now`. So a freed id is counted from
    /// `reuse_ms` milliseconds after it was freed. The call looks at every freed id.
    pub fn available(&self, now: u64) -> u32
        ensures count { result ≡ available_in (registry_of self.now) now }

        // The result is 0 exactly if an allocation at this moment finds no id.
        ensures none { (result ≡ 0) ↔ (next_id (registry_of self.now) now ≡ None) }
    {
        self.records.available(now)
    }
}
