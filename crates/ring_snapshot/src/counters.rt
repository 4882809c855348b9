//! The counters in two lists of records.
ghost use Rattle.std.specs.Prelude.{◌≡◌, ◌≤◌};
ghost use Rattle.ring_snapshot.specs.CounterWords.{HaveIds};

pub(crate) mod search;

use crate::body::Body;
use crate::counter::{Counter, CounterState};
use crate::counters_finding::CountersFinding;
use ring_layout::counter_descriptor::{
    COUNTER_WORDS, FREE_FOR_REUSE_DEADLINE_WORD, KEY_OFFSET, LABEL_LENGTH_BYTES, LABEL_OFFSET,
    LABEL_WORD, MAX_KEY_LENGTH, MAX_LABEL_LENGTH, METADATA_WORDS, OWNER_ID_WORD, RECORD_ALLOCATED,
    RECORD_RECLAIMED, RECORD_UNUSED, REGISTRATION_ID_WORD, STATE_WORD, VALUE_WORD,
};
use ring_layout::unpack_header;

/// The largest number of ids, whose value records have 2^31 bytes.
const MAX_IDS: usize = 1 << 24;

/// The words of counters, which are those of their metadata records and those of their value records.
#[derive(Clone, Copy, Debug)]
pub struct CountersSnapshot<'a> {
    ids: u32,
    metadata: &'a [u64],
    values: &'a [u64],
    ghost whole: { HaveIds metadata.now values.now ids },
}

/// An iterator over the counters from an id on, by rising id. The iterator passes over ids that were never used, and
/// goes on after a finding.
#[derive(Debug, Drop)]
pub struct Counters<'a> {
    counters: CountersSnapshot<'a>,
    next: u32,
}

impl<'a> CountersSnapshot<'a> {
    ghost use Rattle.std.specs.Prelude.{◌≡◌, ◌≢◌, ℕ, ◌+◌, ◌*◌, ◌<◌, ◌≤◌, List, length, drop, slice_index, IfOk, IfErr};
    ghost use Rattle.ring_counters.specs.Registry.{Registry};
    ghost use Rattle.ring_snapshot.specs.declared.counters_finding.CountersFinding.TheVariants.{BadSize};
    ghost use Rattle.ring_snapshot.specs.{CounterWords.HaveIds, RingRecords.length_in};
    ghost use Rattle.ring_snapshot.specs.CounterRecords.{Show, state_from, with_label, entry_of, counters_left, counters_in, entries_from};

    /// Takes the words of counters. Returns `BadSize` if no counters have this many words.
    pub fn new(metadata: &'a [u64], values: &'a [u64]) -> Result<Self, CountersFinding>
        ensures counters { IfOk result (λ c. (c.metadata.now ≡ metadata.now) × (c.values.now ≡ values.now)
            × HaveIds metadata.now values.now c.ids) }
        ensures refused { IfErr result (λ f. (f ≡ BadSize (length metadata.now) (length values.now))
            × ((n : ℕ) → HaveIds metadata.now values.now n → ⊥)) }
    {
        let count = values.len() / COUNTER_WORDS;
        if count == 0
            || count > MAX_IDS
            || values.len() % COUNTER_WORDS != 0
            || metadata.len() != METADATA_WORDS * count
        {
            return Err(CountersFinding::BadSize {
                metadata: metadata.len(),
                values: values.len(),
            });
        }
        Ok(CountersSnapshot {
            ids: count as u32,
            metadata,
            values,
        })
    }

    /// Returns the number of ids.
    pub fn count(&self) -> u32
        ensures { HaveIds self.now.metadata.now self.now.values.now result }
    {
        self.ids
    }

    /// Iterates over the counters in use and the counters that were freed, by rising id.
    ///
    /// For the words of a counters manager it returns exactly the manager's counters. For any words it returns one
    /// entry for each id that is not unused. The entry is the counter, or the finding about it.
    pub fn counters(&self) -> Counters<'a>
        ensures listed { counters_left result ≡ counters_in self.now 0 }
        ensures exact { (r : Registry) → Show self.now.metadata.now self.now.values.now r
            → counters_left result ≡ entries_from r 0 }
    {
        self.counters_from(0)
    }

    /// Iterates over the counters from an id on.
    pub fn counters_from(&self, first: u32) -> Counters<'a>
        ensures listed { counters_left result ≡ counters_in self.now first }
        ensures exact { (r : Registry) → Show self.now.metadata.now self.now.values.now r
            → counters_left result ≡ entries_from r first }
    {
        Counters {
            counters: *self,
            next: first,
        }
    }

    /// Returns the state of a record of an id that was used. Returns `None` if no record has this state.
    fn state_of(state: i32) -> Option<CounterState>
        ensures { result ≡ state_from state }
    {
        if state == RECORD_ALLOCATED {
            Some(CounterState::Allocated)
        } else if state == RECORD_RECLAIMED {
            Some(CounterState::Reclaimed)
        } else {
            None
        }
    }

    /// Returns what is in the two records of an id. Returns `None` if the id was never used.
    fn entry(&self, id: u32) -> Option<Result<Counter<'a>, CountersFinding>>
        requires { id < self.now.ids }
        ensures { result ≡ entry_of id (drop (64 * id) self.now.metadata.now) (drop (16 * id) self.now.values.now) }
    {
        let metadata = &self.metadata[METADATA_WORDS * id as usize..];
        let values = &self.values[COUNTER_WORDS * id as usize..];
        Self::entry_in(id, metadata, values)
    }

    /// Returns what the two records of an id say, if they begin with these words.
    fn entry_in(
        id: u32,
        metadata: &'a [u64],
        values: &'a [u64],
    ) -> Option<Result<Counter<'a>, CountersFinding>>
        requires metadata { 64 ≤ length metadata.now }
        requires values { 16 ≤ length values.now }
        ensures { result ≡ entry_of id metadata.now values.now }
    {
        let (state, _) = unpack_header(metadata[STATE_WORD]);
        if state == RECORD_UNUSED {
            return None;
        }
        Some(match Self::state_of(state) {
            Some(told) => Self::counter_in(id, metadata, values, told),
            None => Err(CountersFinding::BadState { id, state }),
        })
    }

    /// Returns the counter of an id, if its records begin with these words and have this state.
    fn counter_in(
        id: u32,
        metadata: &'a [u64],
        values: &'a [u64],
        state: CounterState,
    ) -> Result<Counter<'a>, CountersFinding>
        requires metadata { 64 ≤ length metadata.now }
        requires values { 16 ≤ length values.now }
        ensures { result ≡ with_label id metadata.now values.now (length_in (slice_index metadata.now 16)) state }
    {
        let (length, _) = unpack_header(metadata[LABEL_WORD]);
        if length < 0 || length > MAX_LABEL_LENGTH as i32 {
            return Err(CountersFinding::BadLabelLength { id, length });
        }
        let (_, type_id) = unpack_header(metadata[STATE_WORD]);
        Ok(Counter {
            id,
            state,
            type_id,
            deadline: metadata[FREE_FOR_REUSE_DEADLINE_WORD],
            key: Body::new(metadata, KEY_OFFSET, MAX_KEY_LENGTH),
            label: Body::new(
                metadata,
                LABEL_OFFSET + LABEL_LENGTH_BYTES,
                length.unsigned_abs() as usize,
            ),
            value: values[VALUE_WORD].cast_signed(),
            registration: values[REGISTRATION_ID_WORD],
            owner: values[OWNER_ID_WORD],
        })
    }
}

impl<'a> Iterator for Counters<'a> {
    ghost use Rattle.std.specs.Iterator.{YieldsFirst, item_count};
    ghost use Rattle.ring_snapshot.specs.CounterRecords.{counters_left};

    type Item = Result<Counter<'a>, CountersFinding>;

    ghost next_gives = { YieldsFirst counters_left };

    ghost remaining = { item_count counters_left };

    fn next(&mut self) -> Option<Result<Counter<'a>, CountersFinding>> {
        while self.next < self.counters.ids {
            let id = self.next;
            self.next += 1;
            if let Some(entry) = self.counters.entry(id) {
                return Some(entry);
            }
        }
        None
    }
}
