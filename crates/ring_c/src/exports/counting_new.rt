//! Counters that are made for a handle.
// Written by c/bindings from felter.h and exports.txt. To change this file, change them and run c/bindings.
ghost use Rattle.ring_c.specs.Told.{OpensCounters};

use crate::work_on::fill;
use ring_handles::{Handle, Identity, open_counters};
use std::alloc::Global;

/// Makes counters with the ids below `count`, which must be from 1 to 4,096. A freed id is not allocated again for
/// `reuse_ms` milliseconds. Codes: FELTER_BAD_COUNT, FELTER_OUT_OF_MEMORY, FELTER_HANDLE_IN_USE.
#[unsafe(no_mangle)]
pub extern "C" fn felter_counters_new_numbered(
    alloc: Global,
    number: u64,
    count: u32,
    reuse_ms: u32,
    counters: &mut Handle,
) -> i32
    ensures { OpensCounters number count reuse_ms counters.old.held counters.new.held result }
{
    fill!(
        counters,
        alloc,
        open_counters(alloc, Identity { number }, count, reuse_ms)
    )
}
