//! Readers of counters' values.
// Written by c/bindings from felter.h and exports.txt. To change this file, change them and run c/bindings.
ghost use Rattle.ring_c.specs.Told.{GivesInto, Yields};
ghost use Rattle.ring_handles.specs.Kinds.{a_reader, some_counters};
ghost use Rattle.ring_handles.specs.Lending.{Lends, SaysValue, WhyNotLent};

use crate::work_on::{make_into, work_on};
use ring_handles::Handle;
use std::alloc::Global;

/// Makes a reader of the counters' values, for another thread. The counters have 65,536 shares, and the reader gets one
/// of them. This share is lost if the reader is freed without felter_counters_join. Codes: FELTER_NO_SHARES,
/// FELTER_OUT_OF_MEMORY, FELTER_HANDLE_IN_USE.
#[unsafe(no_mangle)]
pub extern "C" fn felter_counters_reader(
    alloc: Global,
    counters: &mut Handle,
    reader: &mut Handle,
) -> i32
    ensures { GivesInto some_counters a_reader Lends WhyNotLent counters.old.held reader.old.held counters.new.held
        reader.new.held result }
{
    make_into!(counters, alloc, Counters(side) => side.reader(), reader, Reader)
}

/// Loads a value. The value of an id that was never used is 0. The value of a freed id is its last value. If a reader
/// loads the value of an id twice, the second value was not written before the first one. Codes: FELTER_BAD_ID.
#[unsafe(no_mangle)]
pub extern "C" fn felter_reader_value(
    alloc: Global,
    reader: &mut Handle,
    id: u32,
    value: &mut i64,
) -> i32
    ensures { Yields a_reader (SaysValue id) value.old value.new reader.old.held reader.new.held result }
{
    work_on!(reader, alloc, Reader(side) => side.load(id, value))
}
