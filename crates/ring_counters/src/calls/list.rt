//! An iterator over the counters in use, which takes no memory.
ghost use Rattle.std.specs.Prelude.{◌≡◌, length};
ghost use Rattle.std.specs.Iterator.{YieldsFirst, item_count};
ghost use Rattle.ring_counters.specs.{Counter.zero_padded, Registry.live_of, Manager.registry_of};

use crate::manager::CountersManager;
use crate::records::metadata::MetadataRecord;
use crate::records::{Records, ValueRecord};
use ring_layout::counter_descriptor::{MAX_KEY_LENGTH, MAX_LABEL_LENGTH};
use std::iter::FusedIterator;
use std::marker::Model;

/// A counter in use, with its records.
#[derive(Drop)]
pub struct LiveCounter<'a> {
    pub(crate) id: u32,
    pub(crate) metadata: &'a MetadataRecord,
    pub(crate) values: &'a ValueRecord,
}

impl<'a> Model for LiveCounter<'a> {
    ghost use Rattle.std.specs.Prelude.{ℕ};
    ghost use Rattle.ring_counters.specs.Counter.{Counter};

    ghost Value = { ℕ × Counter };

    ghost view = { λ c. (c.id, record { metadata = c.metadata.now; values = c.values.now }) };
}

impl<'a> LiveCounter<'a> {
    /// Returns the counter's id.
    pub fn id(&self) -> u32
        ensures { result ≡ self.now.0 }
    {
        self.id
    }

    /// Returns the type that the counter was allocated with.
    pub fn type_id(&self) -> i32
        ensures { result ≡ self.now.1.metadata.type_id }
    {
        self.metadata.type_id()
    }

    /// Returns the counter's value.
    pub fn value(&self) -> i64
        ensures { result ≡ self.now.1.values.value }
    {
        self.values.value()
    }

    /// Returns the registration id that the counter was allocated with.
    pub fn registration(&self) -> u64
        ensures { result ≡ self.now.1.values.registration }
    {
        self.values.registration()
    }

    /// Returns the counter's owner, or 0 if the counter has no owner.
    pub fn owner(&self) -> u64
        ensures { result ≡ self.now.1.values.owner }
    {
        self.values.owner()
    }

    /// Copies the counter's key of 112 bytes. A short key is followed by zeros.
    pub fn key_into(&self, key: &mut [u8; MAX_KEY_LENGTH])
        ensures { key.new ≡ self.now.1.metadata.key }
    {
        self.metadata.key_into(key);
    }

    /// Copies the counter's label, with zeros after it, and returns the label's length in bytes.
    pub fn label_into(&self, label: &mut [u8; MAX_LABEL_LENGTH]) -> usize
        ensures len { result ≡ length self.now.1.metadata.label }
        ensures label { label.new ≡ zero_padded 380 self.now.1.metadata.label }
    {
        self.metadata.label_into(label)
    }
}

/// An iterator over the counters in use, by rising id. Contracts see it as the list of the counters that are left. The
/// iterator takes no memory.
#[derive(Drop)]
pub struct LiveCounters<'a> {
    records: &'a Records,
    /// The lowest id that the iterator has not looked at.
    next: u32,
}

impl<'a> Model for LiveCounters<'a> {
    ghost use Rattle.std.specs.Prelude.{ℕ, List};
    ghost use Rattle.ring_counters.specs.{Counter.Counter, Registry.live_from};

    ghost Value = { List (ℕ × Counter) };

    ghost view = { λ it. live_from it.records.now it.next };
}

impl<'a> Iterator for LiveCounters<'a> {
    type Item = LiveCounter<'a>;

    ghost next_gives = { YieldsFirst (λ rest. rest) };

    ghost remaining = { item_count (λ rest. rest) };

    fn next(&mut self) -> Option<LiveCounter<'a>> {
        while self.next < self.records.used() {
            let id = self.next;
            self.next += 1;
            if self.records.is_live(id) {
                return Some(LiveCounter {
                    id,
                    metadata: self.records.metadata(id),
                    values: self.records.values(id),
                });
            }
        }
        None
    }
}

impl<'a> FusedIterator for LiveCounters<'a> {}

impl CountersManager {
    /// Iterates over the counters in use, by rising id. These are the counters that `live` lists. The call takes no
    /// memory. The iterator looks at every id that was ever used. Keys and labels are copied into the caller's buffers,
    /// and only if the caller asks for them.
    pub fn iter(&self) -> LiveCounters<'_>
        ensures { result ≡ live_of (registry_of self.now) }
    {
        LiveCounters {
            records: &self.records,
            next: 0,
        }
    }
}
