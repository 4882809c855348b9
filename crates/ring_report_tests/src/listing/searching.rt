//! What is found among words that look random.
use crate::compare::same;
use crate::listing::random::Numbers;
use crate::stored::{LAPPED, METADATA};
use crate::words::change;
use ring_snapshot::{next_board, next_counter, next_ring};

/// Fills words with numbers that look random, but from the index 100 on with `len` words of 0 except these.
fn surround(words: &mut [u64], len: usize, changes: &[(usize, u64)]) {
    let mut numbers = Numbers(0x2545_f491_4f6c_dd1d);
    for word in words.iter_mut() {
        *word = numbers.next();
    }
    let Some((_, rest)) = words.split_at_mut_checked(100) else {
        return;
    };
    if let Some((own, _)) = rest.split_at_mut_checked(len) {
        own.fill(0);
        change(own, changes);
    }
}

/// The words of a ring of 128 bytes with the record `hello` of type 7.
static HELLO: [(usize, u64); 3] = [
    (0, 0x0000_0007_0000_000d),
    (1, 0x0000_006f_6c6c_6568),
    (16 + 16, 16),
];

/// An index, a capacity, and the index of the first ring of this capacity from that index on.
static RINGS: [(usize, u32, Option<usize>); 5] = [
    (0, 128, Some(100)),
    (100, 128, Some(100)),
    (101, 128, None),
    (0, 256, None),
    (0, 100, None),
];

#[test]
fn finds_a_ring(rt: HostRuntime) {
    let mut words = [0; 100 + 112 + 100];
    surround(&mut words, 112, &HELLO);
    for (from, capacity, wanted) in &RINGS {
        same(&rt, next_ring(&words, *from, *capacity), *wanted);
    }
}

/// The same of a broadcast buffer.
static BOARDS: [(usize, u32, Option<usize>); 3] = [
    (0, 256, Some(100)),
    (101, 256, None),
    (0, 512, None),
];

#[test]
fn finds_a_board_that_lapped(rt: HostRuntime) {
    let mut words = [0; 100 + 48 + 100];
    surround(&mut words, 48, LAPPED.words);
    for (from, capacity, wanted) in &BOARDS {
        same(&rt, next_board(&words, *from, *capacity), *wanted);
    }
}

/// An index, and that of the first counter in use from there on. Two of four counters are in use, and one was freed.
static COUNTERS: [(usize, Option<usize>); 3] = [(0, Some(100)), (101, Some(164)), (165, None)];

#[test]
fn finds_counters_in_use(rt: HostRuntime) {
    let mut words = [0; 100 + 256 + 100];
    surround(&mut words, 256, METADATA.words);
    for (from, wanted) in &COUNTERS {
        same(&rt, next_counter(&words, *from), *wanted);
    }
}
