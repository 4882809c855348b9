//! The part of a search that uses the tables of the program itself, and that reads changing buffers again.
use crate::fault::ShowFault;
use crate::found::{Found, Kind, Part};
use crate::memory::Region;
use crate::search::{Search, WINDOW};
use crate::tables::{Registry, Table, place_of};
use crate::trailer::{Fits, Trailer, fits_at, has_clear_board, has_clear_ring, positions};
use ring_report::{Section, words_of};
use std::alloc::{AllocError, Global};
use std::io::Input;
use std::rt::{Clock, Files};
use std::thread::sleep;
use std::time::Duration;

/// The largest number of bytes between two positions.
const MOST: u64 = 1 << 24;

/// The number of times that a changing buffer is read again.
const ROUNDS: u32 = 5;

/// The largest number of changing buffers that are read again.
const BUSY: usize = 16;

/// The file of some memory, and the pieces of the memory in the order of their addresses.
#[derive(Clone, Copy)]
pub struct Pieces<'a> {
    pub file: &'a str,
    pub regions: &'a [Region],
}

impl<'a> Pieces<'a> {
    /// Returns the words at an address, if they can be read.
    fn words<R: AllocGlobal + Files + Input>(
        self,
        rt: &R,
        address: u64,
        length: u64,
    ) -> Option<Vec<u64>> {
        let at = place_of(self.regions, address, length)?;
        let section = Section {
            file: self.file,
            at,
            length: Some(length),
        };
        words_of(rt, section, WINDOW).ok()
    }
}

/// Tests whether these words are the trailer of a ring or a broadcast buffer of this capacity. The positions may have
/// changed between the reads of these words.
fn is_trailer(kind: Kind, capacity: u64, words: &[u64]) -> bool {
    let (first, second) = positions(kind, words);
    let is_clear = if kind == Kind::Ring {
        has_clear_ring(words)
    } else {
        has_clear_board(words) && second > 0
    };
    is_clear && first % 8 == 0 && second % 8 == 0 && first.abs_diff(second) <= capacity.min(MOST)
}

/// Tests whether the trailer of a ring or a broadcast buffer comes after the words that a table names. If the program
/// runs, the positions may change a lot between the reads of two of them. So the trailer is read several times.
fn has_trailer<R: AllocGlobal + Files + Input>(
    rt: &R,
    pieces: Pieces<'_>,
    kind: Kind,
    table: Table,
) -> bool {
    let address = table.words.saturating_add(table.capacity);
    for _ in 0..ROUNDS {
        let Some(words) = pieces.words(rt, address, kind.trailer()) else {
            return false;
        };
        if is_trailer(kind, table.capacity, words.as_slice()) {
            return true;
        }
    }
    false
}

/// Returns the ring or the broadcast buffer that a table names, if it is in memory.
fn known_at<R: AllocGlobal + Files + Input>(
    rt: &R,
    pieces: Pieces<'_>,
    kind: Kind,
    table: Table,
) -> Option<Found> {
    let capacity = table.capacity;
    let at = place_of(
        pieces.regions,
        table.words,
        capacity.saturating_add(kind.trailer()),
    )?;
    let bodies_at = if kind == Kind::Ring {
        Some(place_of(pieces.regions, table.bodies, capacity)?)
    } else {
        None
    };
    if !has_trailer(rt, pieces, kind, table) {
        return None;
    }
    Some(Found {
        kind,
        address: table.words,
        at,
        capacity,
        others: 0,
        bodies_at,
        values: None,
        is_known: true,
    })
}

/// Adds the rings or the broadcast buffers that tables name, in the order of their addresses. If several tables name
/// the same memory, only the first one is used.
fn add_known<R: AllocGlobal + Files + Input>(
    rt: &R,
    pieces: Pieces<'_>,
    known: &mut Vec<Found>,
    kind: Kind,
    tables: &[Table],
) -> Result<(), AllocError> {
    let mut end = 0;
    for table in tables {
        if table.words < end {
            continue;
        }
        if let Some(found) = known_at(rt, pieces, kind, *table) {
            end = found.address.saturating_add(found.length());
            known.push(found)?;
        }
    }
    Ok(())
}

/// Returns the addresses after the buffers, in order.
fn ends(alloc: Global, found: &[Found]) -> Result<Vec<u64>, AllocError> {
    let mut ends = Vec::new(alloc);
    for it in found {
        ends.push(it.end())?;
    }
    ends.sort_unstable();
    Ok(ends)
}

/// Tests whether an address is in a sorted list.
fn has(ends: &[u64], address: u64) -> bool {
    let after = ends.partition_point(|end| *end < address);
    ends.get(after).copied() == Some(address)
}

/// Returns the counters that a program keeps, if these counters are among them.
fn counters_of(pieces: Pieces<'_>, registries: &[Registry], address: u64) -> Option<Found> {
    let after = registries.partition_point(|it| it.metadata <= address);
    let registry = registries.get(after.checked_sub(1)?)?;
    if !registry.has(address) {
        return None;
    }
    let (metadata, length) = (registry.metadata, registry.values_length());
    let at = place_of(pieces.regions, metadata, registry.metadata_length())?;
    let values_at = place_of(pieces.regions, registry.values, length)?;
    Some(Found {
        kind: Kind::Counters,
        address: metadata,
        at,
        capacity: registry.metadata_length(),
        others: 0,
        bodies_at: None,
        values: Some(Part {
            at: values_at,
            length,
        }),
        is_known: true,
    })
}

/// Adds counters. If a registry has them, adds all counters that the program keeps. Otherwise adds the counters that
/// were found.
fn add_counters(
    known: &mut Vec<Found>,
    pieces: Pieces<'_>,
    registries: &[Registry],
    counters: &[Found],
) -> Result<(), AllocError> {
    let mut end = 0;
    for it in counters {
        if it.address < end {
            continue;
        }
        let found = counters_of(pieces, registries, it.address).unwrap_or(*it);
        end = found.end();
        known.push(found)?;
    }
    Ok(())
}

/// Returns the buffers that may end with a trailer, from the memory as it is now.
fn fits_now<R: AllocGlobal + Files + Input>(
    rt: &R,
    pieces: Pieces<'_>,
    trailer: Trailer,
) -> Option<Fits> {
    let length = trailer.kind.trailer();
    for exponent in 0..18u32 {
        // (this begins with the largest capacity, and takes the first one for which memory has room)
        let before = MOST >> exponent;
        let Some(address) = trailer.address.checked_sub(before) else {
            continue;
        };
        if let Some(words) = pieces.words(rt, address, before.saturating_add(length)) {
            let index = (before / 8) as usize;
            return Some(fits_at(trailer.kind, words.as_slice(), index));
        }
    }
    None
}

/// Tests whether the positions of a trailer have changed.
fn has_changed<R: AllocGlobal + Files + Input>(
    rt: &R,
    pieces: Pieces<'_>,
    trailer: Trailer,
) -> bool {
    match pieces.words(rt, trailer.address, trailer.kind.trailer()) {
        Some(words) => positions(trailer.kind, words.as_slice()) != trailer.positions,
        None => false,
    }
}

/// Searches again and again for the buffer that ends with a trailer, and returns it.
fn look_again<R: AllocGlobal + Clock + Files + Input>(
    rt: &R,
    pieces: Pieces<'_>,
    trailer: Trailer,
) -> Option<Found> {
    for _ in 0..ROUNDS {
        let fits = fits_now(rt, pieces, trailer)?;
        if let Some(found) = trailer.found(fits) {
            return Some(found);
        }
        sleep(rt, Duration::from_millis(2));
    }
    None
}

impl Search {
    /// Adds what the tables of the program name. Then adds what was found and is not named by a table.
    fn add_whole<R: AllocGlobal + Files + Input>(
        &mut self,
        rt: &R,
        pieces: Pieces<'_>,
        known: &mut Vec<Found>,
    ) -> Result<(), AllocError> {
        self.rings.sort_unstable_by_key(|table| table.words);
        self.boards.sort_unstable_by_key(|table| table.words);
        self.registries.sort_unstable_by_key(|it| it.metadata);
        add_known(rt, pieces, known, Kind::Ring, self.rings.as_slice())?;
        add_known(rt, pieces, known, Kind::Board, self.boards.as_slice())?;
        let ends = ends(rt.alloc(), known.as_slice())?;
        for it in self.found.iter() {
            if !has(ends.as_slice(), it.end()) {
                known.push(*it)?;
            }
        }
        let (registries, counters) = (self.registries.as_slice(), self.counters.as_slice());
        add_counters(known, pieces, registries, counters)
    }

    /// Adds the buffers of a running program that changed while they were read. Returns the trailers of the buffers
    /// that change all the time. The capacity of these buffers is not known.
    fn add_changed<R: AllocGlobal + Clock + Files + Input>(
        &self,
        rt: &R,
        pieces: Pieces<'_>,
        known: &mut Vec<Found>,
    ) -> Result<Vec<Trailer>, AllocError> {
        let ends = ends(rt.alloc(), known.as_slice())?;
        let mut busy = Vec::new(rt.alloc());
        for trailer in self.trailers.iter() {
            if busy.len() < BUSY
                && !has(ends.as_slice(), trailer.address)
                && has_changed(rt, pieces, *trailer)
            {
                match look_again(rt, pieces, *trailer) {
                    Some(found) => known.push(found)?,
                    None => busy.push(*trailer)?,
                }
            }
        }
        Ok(busy)
    }

    /// Adds all that was found, in the order of addresses. Returns the trailers of buffers that change all the time. If
    /// the memory is that of a running program, buffers that changed while they were read are read again.
    pub fn settle<R: AllocGlobal + Clock + Files + Input>(
        &mut self,
        rt: &R,
        pieces: Pieces<'_>,
        known: &mut Vec<Found>,
        is_live: bool,
    ) -> Result<Vec<Trailer>, ShowFault<'static>> {
        self.add_whole(rt, pieces, known)?;
        let busy = if is_live {
            self.add_changed(rt, pieces, known)?
        } else {
            Vec::new(rt.alloc())
        };
        known.sort_unstable_by_key(|it| it.address);
        Ok(busy)
    }
}
