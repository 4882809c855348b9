//! Shared counters, and their adders.
// Written by c/bindings from felter.h and exports.txt. To change this file, change them and run c/bindings.
ghost use Rattle.ring_c.specs.Told.{GivesInto, JoinsInto, OpensAdder, WhereBoth, Yields};
ghost use Rattle.ring_handles.specs.Adding.{WhyNotSplit, IsOfAnother, IsOfThisCounter, SaysShares, SaysSum};
ghost use Rattle.ring_handles.specs.{Adding.SplitsAdder, Adding.Summed, Adding.TakesAdder, Kinds.an_adder};

use crate::work_on::{fill, join_into, make_into, work_on};
use ring_handles::{Handle, Identity, open_adder};
use std::alloc::Global;

/// Makes a shared counter with the value 0, and its first adder. This adder holds all 65,536 shares of the shared
/// counter. Codes: FELTER_HANDLE_IN_USE, FELTER_OUT_OF_MEMORY.
#[unsafe(no_mangle)]
pub extern "C" fn felter_adder_new_numbered(alloc: Global, number: u64, adder: &mut Handle) -> i32
    ensures { OpensAdder number adder.old.held adder.new.held result }
{
    fill!(adder, alloc, open_adder(alloc, Identity { number }))
}

/// Makes `other` another adder of the same shared counter, for another thread. `other` gets one share of `adder`. If
/// `other` is freed without felter_adder_join, its additions stay in the value, and its shares are lost. Codes:
/// FELTER_NO_SHARES if `adder` has one share, FELTER_OUT_OF_MEMORY, FELTER_HANDLE_IN_USE.
#[unsafe(no_mangle)]
pub extern "C" fn felter_adder_split(alloc: Global, adder: &mut Handle, other: &mut Handle) -> i32
    ensures { GivesInto an_adder an_adder SplitsAdder WhyNotSplit adder.old.held other.old.held adder.new.held
        other.new.held result }
{
    make_into!(adder, alloc, Adder(side) => side.split(), other, Adder)
}

/// Joins `other` to `adder`, which is an adder of the same shared counter. The shares of `other` go to `adder`, and the
/// handle `other` is empty afterwards. Codes: FELTER_OTHER_RING.
#[unsafe(no_mangle)]
pub extern "C" fn felter_adder_join(alloc: Global, adder: &mut Handle, other: &mut Handle) -> i32
    requires { WhereBoth an_adder an_adder IsOfThisCounter adder.old.held other.old.held }
    ensures { JoinsInto an_adder an_adder TakesAdder IsOfAnother adder.old.held other.old.held adder.new.held
        other.new.held result }
{
    join_into!(adder, other, alloc, Adder(side), Adder(joining) => side.join(joining))
}

/// Adds `delta` to the value of the shared counter, and writes the value before the addition.
#[unsafe(no_mangle)]
pub extern "C" fn felter_adder_add(
    alloc: Global,
    adder: &mut Handle,
    delta: i64,
    before: &mut i64,
) -> i32
    ensures { Yields an_adder (λ _ told. Summed delta told) before.old before.new adder.old.held adder.new.held result }
{
    work_on!(adder, alloc, Adder(side) => side.add(delta, before))
}

/// Loads the value. If the adder holds all 65,536 shares, no other adder exists. The value is then exactly the sum of
/// the amounts that were added with this adder and with the adders that were joined to it.
#[unsafe(no_mangle)]
pub extern "C" fn felter_adder_value(alloc: Global, adder: &mut Handle, value: &mut i64) -> i32
    ensures { Yields an_adder (λ _ told. SaysSum told) value.old value.new adder.old.held adder.new.held result }
{
    work_on!(adder, alloc, Adder(side) => side.value(value))
}

/// Writes how many of the 65,536 shares the adder holds.
#[unsafe(no_mangle)]
pub extern "C" fn felter_adder_shares(alloc: Global, adder: &mut Handle, shares: &mut u32) -> i32
    ensures { Yields an_adder (λ _ told. SaysShares told) shares.old shares.new adder.old.held adder.new.held result }
{
    work_on!(adder, alloc, Adder(side) => side.shares(shares))
}
