//! What is listed of counters.
ghost use Rattle.std.specs.Prelude.{◌<◌};
ghost use Rattle.ring_counters.specs.Manager.{IsManagerOf};

use crate::listing::random::Numbers;
use crate::words::{copy, has_bytes};
use ring_counters::{CounterValues, CountersManager};
use ring_snapshot::{
    Counter, CounterMetadata, CounterState, CounterValueWords, CountersFinding, CountersSnapshot,
};
use std::process::Abort;

/// A manager with its values.
#[derive(Drop)]
struct Desk {
    values: CounterValues,
    counters: CountersManager,
    ghost own: { IsManagerOf values counters },
}

impl Desk {
    /// One call that looks random.
    fn step(&mut self, numbers: &mut Numbers, now: u32) {
        let id = (numbers.next() % 8) as u32;
        let text = b"a label that has some forty bytes or less";
        let len = (numbers.next() % 41) as usize;
        let number = numbers.next();
        if number % 4 == 0 {
            let _ = self.counters.free(u64::from(now), id);
        } else if number % 4 == 1 {
            let _ = self
                .counters
                .set(&self.values, id, number.cast_signed() >> 8);
        } else {
            let (key, label) = (&text[..len / 2], &text[..len]);
            let type_id = ((number >> 40) as u32).cast_signed();
            let now = u64::from(now);
            let _ = self.counters.allocate_owned(
                &self.values,
                now,
                type_id,
                key,
                label,
                number,
                number >> 60,
            );
        }
    }
}

/// Tests whether the numbers of a counter in use are those that the manager says.
fn has_numbers(manager: &CountersManager, counter: &Counter<'_>) -> bool {
    let id = counter.id;
    manager.type_id(id) == Ok(counter.type_id)
        && manager.value(id) == Ok(counter.value)
        && manager.owner(id) == Ok(counter.owner)
        && manager.registration(id) == Ok(counter.registration)
}

/// Tests whether label and key of a counter in use are those that the manager says.
fn has_texts(manager: &CountersManager, counter: Counter<'_>) -> bool {
    let (mut label, mut key) = ([0u8; 380], [0u8; 112]);
    let Ok(len) = manager.label_into(counter.id, &mut label) else {
        return false;
    };
    let has_key = manager.key_into(counter.id, &mut key).is_ok();
    let label = label.get(..len).unwrap_or(label.as_slice());
    let is_label = has_bytes(counter.label, label);
    let is_key = has_bytes(counter.key, &key);
    has_key && is_label && is_key
}

/// Tests whether an entry of a listing is the counter that the manager has at an id.
fn is_its(
    manager: &CountersManager,
    id: u32,
    entry: Option<Result<Counter<'_>, CountersFinding>>,
) -> bool {
    let Some(Ok(counter)) = entry else {
        return false;
    };
    if counter.id != id || manager.deadline(id) != Ok(counter.deadline) {
        return false;
    }
    let is_in_use = manager.state(id) == Ok(1);
    match counter.state {
        CounterState::Allocated => {
            is_in_use && has_numbers(manager, &counter) && has_texts(manager, counter)
        }
        CounterState::Reclaimed => !is_in_use,
    }
}

/// How many counters words list, which have to be those that the manager has.
fn count_of(rt: &impl Abort, manager: &CountersManager, snapshot: &CountersSnapshot<'_>) -> u32 {
    let mut listed = snapshot.counters();
    let mut count = 0u32;
    for id in 0..manager.count() {
        if manager.state(id) != Ok(0) {
            assert!(rt; is_its(manager, id, listed.next()), "counter {id}");
            count = count.wrapping_add(1);
        }
    }
    assert!(rt; listed.next().is_none());
    count
}

/// How many counters are listed, which have to be those that the manager has.
fn listed_of(rt: &impl Abort, manager: &CountersManager) -> u32 {
    let (mut metadata, mut values) = ([0; 8 * 64], [0; 8 * 16]);
    copy(rt, &CounterMetadata(manager), &mut metadata);
    copy(rt, &CounterValueWords(manager), &mut values);
    let snapshot = CountersSnapshot::new(&metadata, &values);
    count_of(rt, manager, &snapshot.expect(rt, "counters"))
}

#[test]
fn lists_what_the_manager_answers(rt: HostRuntime) {
    let (values, counters) = CountersManager::new(rt.alloc(), 8, 3).expect(&rt, "counters");
    let mut desk = Desk { values, counters };
    let mut numbers = Numbers(0x1234_5678_9abc_def1);
    let mut listed = 0u32;
    for now in 0..1000 {
        desk.step(&mut numbers, now);
        if now % 5 == 0 {
            listed = listed.wrapping_add(listed_of(&rt, &desk.counters));
        }
    }
    assert!(rt; listed > 500);
}

/// What came of words.
#[derive(Clone, Copy)]
struct Sum {
    listed: u64,
    found: u64,
    bytes: u64,
}

impl Sum {
    /// Reads all that is in some words.
    fn add(&mut self, metadata: &[u64], values: &[u64]) {
        let Ok(snapshot) = CountersSnapshot::new(metadata, values) else {
            return;
        };
        for entry in snapshot.counters() {
            match entry {
                Ok(counter) => {
                    self.listed = self.listed.wrapping_add(1);
                    self.bytes = self.bytes.wrapping_add(counter.label.len() as u64);
                }
                Err(_finding) => self.found = self.found.wrapping_add(1),
            }
        }
    }
}

/// Stores words into the records of an id, 0 or 1, that are near to valid ones, and now and then any.
fn change(metadata: &mut [u64; 128], values: &mut [u64; 32], id: usize, numbers: &mut Numbers)
    requires { id < 2 }
{
    let number = numbers.next();
    metadata[64 * id] = if number % 8 == 0 {
        number
    } else {
        number << 32 | number >> 62
    };
    metadata[64 * id + 16] = numbers.next() & 0x1ff;
    metadata[64 * id + (number % 64) as usize] = numbers.next();
    values[16 * id] = number;
}

#[test]
fn ends_on_any_bytes(rt: HostRuntime) {
    let mut numbers = Numbers(0x9e37_79b9_7f4a_7c15);
    let (mut metadata, mut values) = ([0u64; 128], [0u64; 32]);
    let mut sum = Sum {
        listed: 0,
        found: 0,
        bytes: 0,
    };
    for _ in 0..100_000 {
        for id in 0..2 {
            change(&mut metadata, &mut values, id, &mut numbers);
        }
        sum.add(&metadata, &values);
    }
    assert!(rt; sum.listed > 0 && sum.found > 0 && sum.bytes > 0);
}
