//! Reports of stored snapshots of which words may be changed.
use crate::stored::{BLOCKED, METADATA, VALUES};
use crate::words::change;
use ring_report::{Bodies, Report, View};
use std::alloc::Global;
use std::process::Abort;

/// No messages are shown, and a buffer in at most 64 pieces.
pub static VIEW: View = View {
    from: None,
    bodies: Bodies::None,
    limit: None,
    width: 64,
};

/// The report of a ring that an open claim blocks at 40.
pub fn ring_report(rt: &impl Abort, alloc: Global, changes: &[(usize, u64)]) -> Report {
    let mut words = [0; 128];
    change(&mut words, BLOCKED.words);
    change(&mut words, changes);
    Report::of_ring(alloc, &words, VIEW).expect(rt, "memory")
}

/// The report of a broadcast buffer with these words.
pub fn board_report(rt: &impl Abort, alloc: Global, words_of: &[(usize, u64)]) -> Report {
    let mut words = [0; 48];
    change(&mut words, words_of);
    Report::of_board(alloc, &words, VIEW).expect(rt, "memory")
}

/// The report of counters, of which values may be changed.
pub fn counters_report(rt: &impl Abort, alloc: Global, changes: &[(usize, u64)]) -> Report {
    let (mut metadata, mut values) = ([0; 256], [0; 64]);
    change(&mut metadata, METADATA.words);
    change(&mut values, VALUES.words);
    change(&mut values, changes);
    Report::of_counters(alloc, &metadata, Some(values.as_slice()), VIEW).expect(rt, "memory")
}
