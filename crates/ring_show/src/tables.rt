//! The tables in which a program itself keeps the places of its rings, broadcast buffers and counters.
use crate::memory::Region;

/// The number of words of a ring's trailer.
const RING_TRAILER: u64 = 96;

/// The number of words of a broadcast buffer's trailer.
const BOARD_TRAILER: u64 = 16;

/// The number of words of the largest buffer, which has 2^24 bytes.
const MOST: u64 = 1 << 21;

/// The number of bytes of a counter's metadata.
pub const METADATA: u64 = 512;

/// The number of bytes of a counter's value record in a running program.
const VALUES: u64 = 24;

/// The largest number of counters.
const MOST_COUNTERS: u64 = 4096;

/// The table of a ring whose bodies are stored separately, or of a broadcast buffer.
#[derive(Clone, Copy)]
pub struct Table {
    /// The address of the words.
    pub words: u64,
    /// The address of the bodies, if it is a ring.
    pub bodies: u64,
    /// The number of bytes of the buffer.
    pub capacity: u64,
}

/// The registry of counters of a program. It has two lists, each with its address, its length and its capacity, and
/// then a third list of the same length.
#[derive(Clone, Copy)]
pub struct Registry {
    /// The address of the metadata.
    pub metadata: u64,
    /// The address of the value records.
    pub values: u64,
    /// The number of ids.
    pub ids: u64,
}

/// Tests whether a word may be an address of words.
fn is_address(word: u64) -> bool {
    word != 0 && word % 8 == 0
}

/// Tests whether a buffer may have this many words.
fn is_size(words: u64) -> bool {
    words.is_power_of_two() && words <= MOST
}

/// Returns the table of a ring that begins with these words, if there is one. The table has the addresses of the ring's
/// words and of its bodies, and the numbers of words of both.
pub fn ring_table(words: &[u64]) -> Option<Table> {
    let [words, bodies, all, count, ..] = words else {
        return None;
    };
    if *count == 0 || all.checked_sub(*count) != Some(RING_TRAILER) || !is_size(*count) {
        return None;
    }
    if *count < 16 || !is_address(*words) || !is_address(*bodies) {
        return None;
    }
    Some(Table {
        words: *words,
        bodies: *bodies,
        capacity: count.saturating_mul(8),
    })
}

/// Returns the table of a broadcast buffer that begins with these words, if there is one. It is like that of a ring,
/// but without words for bodies.
pub fn board_table(words: &[u64]) -> Option<Table> {
    let [words, _, all, 0, ..] = words else {
        return None;
    };
    let count = all.checked_sub(BOARD_TRAILER)?;
    if count < 32 || !is_size(count) || !is_address(*words) {
        return None;
    }
    Some(Table {
        words: *words,
        bodies: 0,
        capacity: count.saturating_mul(8),
    })
}

/// Returns the registry of counters that begins with these words, if there is one.
pub fn registry_in(words: &[u64]) -> Option<Registry> {
    let [metadata, ids, room, values, second, other, flags, third, ..] = words else {
        return None;
    };
    let is_list = *ids > 0 && *ids <= MOST_COUNTERS && ids == second && ids == third;
    if !is_list || *room < *ids || *other < *ids || *flags == 0 {
        return None;
    }
    if !is_address(*metadata) || !is_address(*values) {
        return None;
    }
    Some(Registry {
        metadata: *metadata,
        values: *values,
        ids: *ids,
    })
}

impl Registry {
    /// Returns the number of bytes of the metadata.
    pub fn metadata_length(self) -> u64 {
        self.ids.saturating_mul(METADATA)
    }

    /// Returns the number of bytes of the value records.
    pub fn values_length(self) -> u64 {
        self.ids.saturating_mul(VALUES)
    }

    /// Tests whether the metadata of one of these counters are at an address.
    pub fn has(self, address: u64) -> bool {
        match address.checked_sub(self.metadata) {
            Some(offset) => offset < self.metadata_length() && offset % METADATA == 0,
            None => false,
        }
    }
}

/// Returns the place in the file of these bytes of a program, if one piece of memory has all of them. The pieces are in
/// the order of their addresses.
pub fn place_of(regions: &[Region], address: u64, length: u64) -> Option<u64> {
    let after = regions.partition_point(|region| region.address <= address);
    let region = regions.get(after.checked_sub(1)?)?;
    let offset = address.checked_sub(region.address)?;
    if offset.saturating_add(length) <= region.length {
        Some(region.at.saturating_add(offset))
    } else {
        None
    }
}
