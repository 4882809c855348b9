//! What handles of conductors do.
// Written by c/bindings from felter.h and exports.txt. To change this file, change them and run c/bindings.
ghost use Rattle.ring_c.specs.Told.{GivesInto, OpensConductor, Uses, Yields};
ghost use Rattle.ring_handles.specs.Conducting.{report_out, ConductorBeat, Worked};
ghost use Rattle.ring_handles.specs.{Kinds.a_client, Kinds.a_conductor, Seating.Hires, Seating.IsUnhired};

use crate::work_on::{fill, make_into, work_on};
use ring_handles::{Handle, Identity, Sizes, open_conductor};
use std::alloc::Global;

/// Makes a conductor. The ring for commands has `capacity` bytes, which must be a power of two from 128 to 2^24. The
/// board for replies has `replies` bytes, which must be a power of two from 256 to 2^24. The ids of the counters are
/// below `counters`, which must be from 1 to 4,096. A freed id is not allocated again for `reuse_ms` milliseconds.
/// Codes, in this order: FELTER_HANDLE_IN_USE, FELTER_BAD_CAPACITY for the ring, FELTER_BAD_CAPACITY for the board,
/// FELTER_BAD_COUNT, FELTER_OUT_OF_MEMORY.
#[unsafe(no_mangle)]
pub extern "C" fn felter_conductor_new_numbered(
    alloc: Global,
    number: u64,
    capacity: u32,
    replies: u32,
    counters: u32,
    reuse_ms: u32,
    conductor: &mut Handle,
) -> i32
    ensures { OpensConductor number capacity replies counters reuse_ms conductor.old.held conductor.new.held result }
{
    let sizes = Sizes {
        capacity,
        replies,
        counters,
        reuse_ms,
    };
    fill!(
        conductor,
        alloc,
        open_conductor(alloc, Identity { number }, sizes)
    )
}

/// Makes a client, which starts with the reply that was transmitted last. The ring and the board have 65,536 shares
/// each, and the client gets one share of each. Both shares are lost if the client is freed without
/// felter_conductor_join. The conductor can finish without such a client. If the call refuses, no share is lost. Codes:
/// FELTER_HANDLE_IN_USE, FELTER_NO_SHARES for the ring or the board, FELTER_OUT_OF_MEMORY.
#[unsafe(no_mangle)]
pub extern "C" fn felter_conductor_client(
    alloc: Global,
    conductor: &mut Handle,
    client: &mut Handle,
) -> i32
    ensures { GivesInto a_conductor a_client Hires IsUnhired conductor.old.held client.old.held conductor.new.held
        client.new.held result }
{
    make_into!(conductor, alloc, Conductor(side) => side.client(alloc), client, Client)
}

/// Takes up to `limit` commands. Each command is applied at the moment `now`, and the reply to it is transmitted.
/// Writes how many commands were taken (possibly 0), and why the call stopped (enum felter_stop). Codes:
/// FELTER_BAD_MOMENT. The call then takes no command.
#[unsafe(no_mangle)]
pub extern "C" fn felter_conductor_work(
    alloc: Global,
    conductor: &mut Handle,
    now: u64,
    limit: u32,
    messages: &mut u64,
    stopped: &mut i32,
) -> i32
    ensures { Yields a_conductor (Worked now limit) (report_out messages.old stopped.old)
        (report_out messages.new stopped.new) conductor.old.held conductor.new.held result }
{
    work_on!(conductor, alloc, Conductor(side) => side.work(now, limit, messages, stopped))
}

/// Stores a heartbeat, which may be any number.
#[unsafe(no_mangle)]
pub extern "C" fn felter_conductor_set_heartbeat(
    alloc: Global,
    conductor: &mut Handle,
    value: u64,
) -> i32
    ensures { Uses a_conductor (ConductorBeat value) conductor.old.held conductor.new.held result }
{
    work_on!(conductor, alloc, Conductor(side) => side.set_heartbeat(value))
}
