//! The search for trailers of rings and of broadcast buffers among words of memory, and the buffers that end with them.
use crate::found::{Found, Kind};
use ring_snapshot::{next_board, next_ring};

/// The number of words of a ring's trailer.
const RING_WORDS: usize = 96;

/// The number of words of a broadcast buffer's trailer.
const BOARD_WORDS: usize = 16;

/// The largest number of bytes between the head and the tail.
const MOST: u64 = 1 << 24;

/// The greatest position of a ring.
const LAST: u64 = 1 << 62;

/// A place in memory with words like those of a trailer.
#[derive(Clone, Copy)]
pub struct Trailer {
    pub kind: Kind,
    /// The address in the program.
    pub address: u64,
    /// The place in the file.
    pub at: u64,
    /// Two of the positions in it, as they were read.
    pub positions: (u64, u64),
}

/// The sum of the capacities of the buffers that may end with a trailer. Each capacity is a power of two, so the sum
/// determines them.
#[derive(Clone, Copy)]
pub struct Fits {
    pub largest: u32,
    pub all: u32,
}

fn are_zero(words: &[u64]) -> bool {
    words.iter().all(|word| *word == 0)
}

/// Tests whether the words between the five fields of a ring's trailer are 0.
pub fn has_clear_ring(words: &[u64]) -> bool {
    words.len() >= RING_WORDS
        && are_zero(&words[..16])
        && are_zero(&words[17..32])
        && are_zero(&words[33..48])
        && are_zero(&words[49..64])
        && are_zero(&words[65..80])
        && are_zero(&words[81..96])
}

/// Tests whether the words after the three fields of a broadcast buffer's trailer are 0.
pub fn has_clear_board(words: &[u64]) -> bool {
    words.len() >= BOARD_WORDS && are_zero(&words[3..16])
}

/// Tests whether the words begin with the trailer of a ring in which something was claimed.
fn is_ring(words: &[u64]) -> bool {
    if words.len() < RING_WORDS || words[16] == 0 || words[0] != 0 {
        return false;
    }
    let (tail, head) = (words[16], words[48]);
    tail % 8 == 0
        && head % 8 == 0
        && tail <= LAST
        && head <= tail
        && tail - head <= MOST
        && has_clear_ring(words)
}

/// Tests whether the words begin with the trailer of a broadcast buffer in which something was transmitted.
fn is_board(words: &[u64]) -> bool {
    if words.len() < BOARD_WORDS || words[1] == 0 || words[3] != 0 {
        return false;
    }
    let (intent, tail, latest) = (words[0], words[1], words[2]);
    intent % 8 == 0
        && tail % 8 == 0
        && latest % 8 == 0
        && latest < tail
        && tail <= intent
        && intent - latest <= MOST
        && has_clear_board(words)
}

/// Returns the kind of the trailer with which the words begin, if they begin with a trailer.
pub fn kind_of(words: &[u64]) -> Option<Kind> {
    if is_ring(words) {
        Some(Kind::Ring)
    } else if is_board(words) {
        Some(Kind::Board)
    } else {
        None
    }
}

/// Returns two positions of the trailer with which the words begin.
pub fn positions(kind: Kind, words: &[u64]) -> (u64, u64) {
    let (first, second) = if kind == Kind::Ring { (16, 48) } else { (0, 1) };
    (
        words.get(first).copied().unwrap_or(0),
        words.get(second).copied().unwrap_or(0),
    )
}

/// Tests whether a buffer of this capacity ends with the trailer at an index.
fn is_one(kind: Kind, words: &[u64], index: usize, capacity: u32) -> bool {
    let Some(start) = index.checked_sub(capacity as usize / 8) else {
        return false;
    };
    let end = index.saturating_add(if kind == Kind::Ring {
        RING_WORDS
    } else {
        BOARD_WORDS
    });
    match words.get(start..end) {
        Some(words) if kind == Kind::Ring => next_ring(words, 0, capacity).is_some(),
        Some(words) => next_board(words, 0, capacity).is_some(),
        None => false,
    }
}

/// Returns the capacities of the buffers that may end with the trailer at an index. A plain ring is none of them.
pub fn fits_at(kind: Kind, words: &[u64], index: usize) -> Fits {
    let mut fits = Fits { largest: 0, all: 0 };
    // (capacities are powers of two, up to 2^24)
    for exponent in 7..25u32 {
        let capacity = 1 << exponent;
        if is_one(kind, words, index, capacity) {
            fits = Fits {
                largest: capacity,
                all: fits.all | capacity,
            };
        }
    }
    fits
}

impl Trailer {
    /// Returns the buffer that ends here, if one of these capacities fits.
    pub fn found(self, fits: Fits) -> Option<Found> {
        let capacity = u64::from(fits.largest);
        if capacity == 0 {
            return None;
        }
        Some(Found {
            kind: self.kind,
            address: self.address.saturating_sub(capacity),
            at: self.at.saturating_sub(capacity),
            capacity,
            others: fits.all & !fits.largest,
            bodies_at: None,
            values: None,
            is_known: false,
        })
    }
}
