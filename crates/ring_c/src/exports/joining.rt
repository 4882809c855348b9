//! Producers that are put together.
// Written by c/bindings from felter.h and exports.txt. To change this file, change them and run c/bindings.
ghost use Rattle.ring_c.specs.Told.{JoinsInto, WhereBoth};
ghost use Rattle.ring_handles.specs.{Kinds.a_producer, Producing.IsApart, Producing.TakesIn, Side.AreOfOneRing};

use crate::work_on::join_into;
use ring_handles::Handle;
use std::alloc::Global;

/// Joins `other` to `producer`, which is a producer of the same many-to-one ring. The shares and the open claims of
/// `other` go to `producer`, and the claims keep their numbers. The handle `other` is empty afterwards. Codes, in this
/// order: FELTER_WRONG_HANDLE for a one-to-one ring, FELTER_OTHER_RING, and FELTER_OUT_OF_MEMORY if there is no memory
/// to keep the open claims.
#[unsafe(no_mangle)]
pub extern "C" fn felter_join(alloc: Global, producer: &mut Handle, other: &mut Handle) -> i32
    requires { WhereBoth a_producer a_producer AreOfOneRing producer.old.held other.old.held }
    ensures { JoinsInto a_producer a_producer TakesIn IsApart producer.old.held other.old.held producer.new.held
        other.new.held result }
{
    join_into!(producer, other, alloc, Producer(side), Producer(joining) => side.join(joining))
}
