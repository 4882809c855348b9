//! The search for rings, broadcast buffers and counters in pieces of memory.
use crate::fault::ShowFault;
use crate::found::{Found, Kind};
use crate::memory::Region;
use crate::tables::{METADATA, Registry, Table, board_table, registry_in, ring_table};
use crate::trailer::{Trailer, fits_at, kind_of, positions};
use ring_report::{Cause, Section, words_of};
use ring_snapshot::next_counter;
use std::alloc::{AllocError, Global};
use std::io::Input;
use std::rt::Files;

/// The number of bytes that are searched in one window, which is that of the largest buffer.
const STEP: u64 = 1 << 24;

/// The number of bytes of a window after these, which is that of the largest trailer.
const AFTER: u64 = 768;

/// The largest number of bytes of a window.
pub const WINDOW: u64 = 2 * STEP + AFTER;

/// Words of memory, and the place of the first of them.
#[derive(Clone, Copy)]
struct Window<'a> {
    words: &'a [u64],
    /// The address in the program.
    address: u64,
    /// The place in the file.
    at: u64,
}

impl<'a> Window<'a> {
    /// Returns the number of bytes before a word.
    fn offset(self, index: usize) -> u64 {
        (index as u64).saturating_mul(8)
    }
}

/// Memory that was not read.
#[derive(Clone, Copy)]
pub struct Unread {
    pub address: u64,
    pub length: u64,
    pub cause: Cause,
}

/// The results of a search.
#[derive(Drop)]
pub struct Search {
    /// Rings and broadcast buffers.
    pub found: Vec<Found>,
    /// Counters, by the metadata of those in use.
    pub counters: Vec<Found>,
    /// Places with words like those of a trailer, before which no buffer was found.
    pub trailers: Vec<Trailer>,
    pub rings: Vec<Table>,
    pub boards: Vec<Table>,
    pub registries: Vec<Registry>,
    pub unread: Vec<Unread>,
}

impl Search {
    /// Returns a search that has not begun.
    pub fn new(alloc: Global) -> Search {
        Search {
            found: Vec::new(alloc),
            counters: Vec::new(alloc),
            trailers: Vec::new(alloc),
            rings: Vec::new(alloc),
            boards: Vec::new(alloc),
            registries: Vec::new(alloc),
            unread: Vec::new(alloc),
        }
    }

    /// Adds the buffer that ends with a trailer. If there is no such buffer, adds the trailer.
    fn add_trailer(
        &mut self,
        window: Window<'_>,
        index: usize,
        kind: Kind,
        words: &[u64],
    ) -> Result<(), AllocError> {
        let trailer = Trailer {
            kind,
            address: window.address.saturating_add(window.offset(index)),
            at: window.at.saturating_add(window.offset(index)),
            positions: positions(kind, words),
        };
        match trailer.found(fits_at(kind, window.words, index)) {
            Some(found) => Ok(self.found.push(found)?),
            None => Ok(self.trailers.push(trailer)?),
        }
    }

    /// Adds the table that begins with these words, if there is one.
    fn add_table(&mut self, words: &[u64]) -> Result<(), AllocError> {
        if let Some(table) = ring_table(words) {
            self.rings.push(table)?;
        } else if let Some(table) = board_table(words) {
            self.boards.push(table)?;
        } else if let Some(registry) = registry_in(words) {
            self.registries.push(registry)?;
        }
        Ok(())
    }

    /// Adds the objects that begin at a word, or whose trailer begins there.
    fn add_at(&mut self, window: Window<'_>, index: usize) -> Result<(), AllocError> {
        let Some(words) = window.words.get(index..) else {
            return Ok(());
        };
        if let Some(kind) = kind_of(words) {
            self.add_trailer(window, index, kind, words)?;
        }
        self.add_table(words)
    }

    /// Adds the metadata of a counter. If the counters before it go on there, adds it to them.
    fn add_counter(&mut self, new: Found) -> Result<(), AllocError> {
        if let Some(last) = self.counters.as_mut_slice().last_mut() {
            if last.goes_on_at(new.address) {
                last.capacity = new.end().saturating_sub(last.address);
                return Ok(());
            }
        }
        Ok(self.counters.push(new)?)
    }

    /// Adds the counters whose metadata begin at these words.
    fn add_counters(
        &mut self,
        window: Window<'_>,
        from: usize,
        to: usize,
    ) -> Result<(), AllocError> {
        let mut next = from;
        for _ in from..to {
            let Some(index) = next_counter(window.words, next) else {
                break;
            };
            if index >= to {
                break;
            }
            self.add_counter(Found {
                kind: Kind::Counters,
                address: window.address.saturating_add(window.offset(index)),
                at: window.at.saturating_add(window.offset(index)),
                capacity: METADATA,
                others: 0,
                bodies_at: None,
                values: None,
                is_known: false,
            })?;
            next = index.saturating_add(1);
        }
        Ok(())
    }

    /// Adds all objects that begin at these words, or whose trailer begins there.
    fn add_all(&mut self, window: Window<'_>, from: usize, to: usize) -> Result<(), AllocError> {
        for index in from..to {
            self.add_at(window, index)?;
        }
        self.add_counters(window, from, to)
    }

    /// Searches one step of the words of a piece of memory, from an offset on. The window also has the words before the
    /// step, since a buffer that ends in the step may begin there. And it has the words of a trailer after the step.
    fn look_into<R: AllocGlobal + Files + Input>(
        &mut self,
        rt: &R,
        file: &str,
        region: Region,
        offset: u64,
    ) -> Result<(), ShowFault<'static>> {
        let start = offset.saturating_sub(STEP);
        let end = offset.saturating_add(STEP + AFTER).min(region.length);
        let at = region.at.saturating_add(start);
        let length = end.saturating_sub(start).min(WINDOW) / 8 * 8;
        let section = Section {
            file,
            at,
            length: Some(length),
        };
        let words = match words_of(rt, section, WINDOW) {
            Ok(words) => words,
            Err(cause) => return self.note_unread(region, offset, cause),
        };
        let window = Window {
            words: words.as_slice(),
            address: region.address.saturating_add(start),
            at,
        };
        let from = (offset.saturating_sub(start) / 8) as usize;
        let to = from.saturating_add((STEP / 8) as usize).min(words.len());
        Ok(self.add_all(window, from, to)?)
    }

    /// Notes that a step of a piece of memory was not read.
    fn note_unread(
        &mut self,
        region: Region,
        offset: u64,
        cause: Cause,
    ) -> Result<(), ShowFault<'static>> {
        if cause == Cause::OutOfMemory {
            return Err(ShowFault::OutOfMemory);
        }
        self.unread.push(Unread {
            address: region.address.saturating_add(offset),
            length: region.length.saturating_sub(offset).min(STEP),
            cause,
        })?;
        Ok(())
    }

    /// Searches all words of a piece of memory.
    fn look_through<R: AllocGlobal + Files + Input>(
        &mut self,
        rt: &R,
        file: &str,
        region: Region,
    ) -> Result<(), ShowFault<'static>> {
        let mut offset = 0;
        for _ in 0..region.length.div_ceil(STEP) {
            self.look_into(rt, file, region, offset)?;
            offset = offset.saturating_add(STEP);
        }
        Ok(())
    }

    /// Searches all words of these pieces of memory, which are in the order of their addresses. Notes the memory that
    /// cannot be read.
    pub fn look<R: AllocGlobal + Files + Input>(
        &mut self,
        rt: &R,
        file: &str,
        regions: &[Region],
    ) -> Result<(), ShowFault<'static>> {
        for region in regions {
            self.look_through(rt, file, *region)?;
        }
        Ok(())
    }
}
