//! The count of the ids that can be given.
ghost use Rattle.std.specs.Prelude.{◌≡◌, ◌≤◌};
ghost use Rattle.ring_counters.specs.Available.{available_in, due_count, unused_count};

use crate::records::Records;

impl Records {
    /// Returns the number of freed ids whose deadline has passed. The function looks at each freed id.
    fn due_count(&self, now: u64) -> u32
        ensures count { result ≡ due_count self.now now }
        ensures most { result ≤ 4096 }
    {
        let mut due = 0;
        for at in 0..self.freed.len() {
            if self.metadata[self.freed[at] as usize].deadline() <= now {
                due += 1;
            }
        }
        due
    }

    /// Returns the number of ids that were never used.
    fn unused_count(&self) -> u32
        ensures count { result ≡ unused_count self.now }
        ensures most { result ≤ 4096 }
    {
        self.count() - self.used
    }

    /// Returns the number of ids that can be given at this moment.
    pub(crate) fn available(&self, now: u64) -> u32
        ensures { result ≡ available_in self.now now }
    {
        self.due_count(now) + self.unused_count()
    }
}
