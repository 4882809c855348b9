//! What conductors lend and take back.
// Written by c/bindings from felter.h and exports.txt. To change this file, change them and run c/bindings.
ghost use Rattle.ring_c.specs.Told.{GivesInto, JoinsInto, WhereBoth};
ghost use Rattle.ring_handles.specs.Boards.{lender_of};
ghost use Rattle.ring_handles.specs.Kinds.{a_client, a_conductor, a_reader, a_receiver};
ghost use Rattle.ring_handles.specs.Seating.{IsUnheard, IsForeign, IsOfThisConductor, LendsReader, LendsReceiver};
ghost use Rattle.ring_handles.specs.Seating.{TakesClient, TakesReader, TakesReceiver, WhyNotSeated};
ghost use Rattle.std.specs.Prelude.{Some};

use crate::work_on::{join_into, make_into};
use ring_handles::Handle;
use std::alloc::Global;

/// Makes a receiver of the replies, for felter_receive and felter_lapped_count. Otherwise the call is the same as
/// felter_subscribe.
#[unsafe(no_mangle)]
pub extern "C" fn felter_conductor_subscribe(
    alloc: Global,
    conductor: &mut Handle,
    receiver: &mut Handle,
) -> i32
    ensures { GivesInto a_conductor a_receiver LendsReceiver IsUnheard conductor.old.held receiver.old.held
        conductor.new.held receiver.new.held result }
{
    make_into!(conductor, alloc, Conductor(side) => side.subscribe(alloc), receiver, Receiver)
}

/// Makes a reader of the counters' values, for felter_reader_value. Otherwise the call is the same as
/// felter_counters_reader.
#[unsafe(no_mangle)]
pub extern "C" fn felter_conductor_reader(
    alloc: Global,
    conductor: &mut Handle,
    reader: &mut Handle,
) -> i32
    ensures { GivesInto a_conductor a_reader LendsReader WhyNotSeated conductor.old.held reader.old.held
        conductor.new.held reader.new.held result }
{
    make_into!(conductor, alloc, Conductor(side) => side.reader(), reader, Reader)
}

/// Takes back a client of this conductor with its shares, and empties the client's handle. The client receives no
/// further replies. Codes: FELTER_OTHER_RING if the client is of another conductor.
#[unsafe(no_mangle)]
pub extern "C" fn felter_conductor_join(
    alloc: Global,
    conductor: &mut Handle,
    client: &mut Handle,
) -> i32
    requires { WhereBoth a_conductor a_client (λ c k. IsOfThisConductor c k.identity (Some k.end.shared))
        conductor.old.held client.old.held }
    ensures { JoinsInto a_conductor a_client TakesClient (λ c k. IsForeign c k.identity (Some k.end.shared))
        conductor.old.held client.old.held conductor.new.held client.new.held result }
{
    join_into!(conductor, client, alloc, Conductor(side), Client(joining) => side.join(joining))
}

/// Takes back a receiver of this conductor with its share, and empties the receiver's handle. Codes: FELTER_OTHER_RING
/// if the receiver is of another conductor, or if felter_subscribe made it.
#[unsafe(no_mangle)]
pub extern "C" fn felter_conductor_join_receiver(
    alloc: Global,
    conductor: &mut Handle,
    receiver: &mut Handle,
) -> i32
    requires { WhereBoth a_conductor a_receiver (λ c r. IsOfThisConductor c r.identity (lender_of r)) conductor.old.held
        receiver.old.held }
    ensures { JoinsInto a_conductor a_receiver TakesReceiver (λ c r. IsForeign c r.identity (lender_of r))
        conductor.old.held receiver.old.held conductor.new.held receiver.new.held result }
{
    join_into!(conductor, receiver, alloc, Conductor(side), Receiver(joining) => side.join_receiver(joining))
}

/// Takes back a reader of this conductor with its share, and empties the reader's handle. Codes: FELTER_OTHER_RING if
/// the reader is of another conductor, or if felter_counters_reader made it.
#[unsafe(no_mangle)]
pub extern "C" fn felter_conductor_join_reader(
    alloc: Global,
    conductor: &mut Handle,
    reader: &mut Handle,
) -> i32
    requires { WhereBoth a_conductor a_reader (λ c r. IsOfThisConductor c r.identity r.end.lender) conductor.old.held
        reader.old.held }
    ensures { JoinsInto a_conductor a_reader TakesReader (λ c r. IsForeign c r.identity r.end.lender) conductor.old.held
        reader.old.held conductor.new.held reader.new.held result }
{
    join_into!(conductor, reader, alloc, Conductor(side), Reader(joining) => side.join_reader(joining))
}
