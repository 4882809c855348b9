//! Producers that are split off, and handles that are freed.
// Written by c/bindings from felter.h and exports.txt. To change this file, change them and run c/bindings.
ghost use Rattle.ring_c.specs.Told.{GivesInto};
ghost use Rattle.ring_handles.specs.{Kinds.a_producer, Producing.WhyNotSplit, Producing.Splits};
ghost use Rattle.std.specs.Prelude.{◌≡◌};
ghost use Rattle.std.specs.declared.option.Option.TheVariants.{None};

use crate::work_on::{make_into, settled};
use ring_handles::Handle;
use std::alloc::Global;

/// Makes `other` another producer of a many-to-one ring. `other` gets one share of `producer`. Open claims stay with
/// `producer`. Codes: FELTER_NO_SHARES, FELTER_OUT_OF_MEMORY, FELTER_HANDLE_IN_USE, and FELTER_WRONG_HANDLE for a
/// one-to-one ring.
#[unsafe(no_mangle)]
pub extern "C" fn felter_split(alloc: Global, producer: &mut Handle, other: &mut Handle) -> i32
    ensures { GivesInto a_producer a_producer Splits WhyNotSplit producer.old.held other.old.held producer.new.held
        other.new.held result }
{
    make_into!(producer, alloc, Producer(side) => side.split(alloc), other, Producer)
}

/// Frees what a handle owns, and empties the handle: felter_free(&producer.handle). An empty handle stays empty. The
/// open claims of a producer are aborted, so that the consumer skips them. A ring, a board or a conductor can still be
/// ended after some of its handles were freed. But the shares of a producer (see felter_many_to_one_new) are lost if
/// the producer is freed without felter_join. After 65,535 producers were split off and freed in this way, felter_split
/// returns FELTER_NO_SHARES. After the consumer of a ring was freed, writes succeed until the ring is full. Messages
/// that were not read are lost.
#[unsafe(no_mangle)]
pub extern "C" fn felter_free(alloc: Global, handle: &mut Handle)
    ensures { handle.new.held ≡ None }
{
    if let Some(held) = handle.take(alloc) {
        handle.fill(settled(held), None);
    }
}
