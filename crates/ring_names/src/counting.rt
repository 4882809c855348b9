//! `ring_counters`: labelled counters.

use std::alloc::Global;

/// What came of them.
#[derive(Debug, Drop)]
pub struct Came {
    id: u32,
    value: Result<i64, ring_counters::IdFault>,
    state: Result<i32, ring_counters::IdFault>,
    deadline: Result<u64, ring_counters::IdFault>,
    label: Result<usize, ring_counters::IdFault>,
    key: Result<(), ring_counters::IdFault>,
    bytes: (u8, u8),
    words: (u64, u64),
    live: [u64; 2],
    refused: Option<ring_counters::AllocateRefused>,
    count: Option<ring_counters::MakeFault>,
}

/// A counter is allocated, set, listed and freed.
pub fn run(alloc: Global) -> anyhow::Result<Came> {
    let count = ring_counters::CountersManager::new(alloc, 0, 50).err();
    let (values, mut counters) = ring_counters::CountersManager::new(alloc, 4, 50)?;
    let id = counters.allocate(&values, 0, 5, b"key", b"requests", 9)?;
    counters.set(&values, id, 7)?;
    let value = counters.value(id);
    let listed: Result<Vec<ring_counters::CounterInfo>, ring_counters::OutOfMemory> = counters.live(
        alloc,
    );
    let live = listed?;
    let first: Option<&ring_counters::CounterInfo> = live.first();
    let first = match first {
        Some(info) => [u64::from(info.id), info.registration],
        None => [99, 0],
    };
    let mut label = [0; 380];
    let mut key = [0; 112];
    let label_len = counters.label_into(id, &mut label);
    let key_is = counters.key_into(id, &mut key);
    let words = if counters.count() > 0 {
        (counters.metadata_word(0, 0), counters.value_word(0, 0))
    } else {
        (0, 0)
    };
    counters.free(100, id)?;
    Ok(Came {
        id,
        value,
        state: counters.state(id),
        deadline: counters.deadline(id),
        label: label_len,
        key: key_is,
        bytes: (label[0], key[0]),
        words,
        live: first,
        refused: counters.allocate(&values, 100, 5, &[0; 113], b"", 0).err(),
        count,
    })
}
