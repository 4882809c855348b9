//! Conductors that end.
// Written by c/bindings from felter.h and exports.txt. To change this file, change them and run c/bindings.
ghost use Rattle.ring_c.specs.Told.{counts, Ends};

use crate::work_on::end_with;
use ring_handles::Handle;
use std::alloc::Global;

/// Ends a conductor whose clients, receivers and readers were all taken back or freed, and empties its handle. Writes
/// how many commands the conductor received in all, and how many commands were still in the ring. Commands that were
/// still in the ring get no reply.
///
/// If a client, a receiver or a reader is still in a handle, the call refuses, and can be made again later. Codes, in
/// this order:
/// - FELTER_PRODUCERS_OUT if a client is still in a handle;
/// - FELTER_RECEIVERS_OUT if a receiver is still in a handle;
/// - FELTER_IN_USE otherwise.
#[unsafe(no_mangle)]
pub extern "C" fn felter_conductor_finish(
    alloc: Global,
    conductor: &mut Handle,
    received: &mut u64,
    left: &mut u64,
) -> i32
    ensures { Ends (counts received.old left.old) (counts received.new left.new) conductor.old.held conductor.new.held
        result }
{
    end_with!(conductor, alloc, Conductor(side) => side.finish(), ended => {
        *received = ended.received;
        *left = ended.left;
    })
}
