//! Rings that are made for handles.
// Written by c/bindings from felter.h and exports.txt. To change this file, change them and run c/bindings.
ghost use Rattle.ring_c.specs.Told.{Opens};
ghost use Rattle.std.specs.Prelude.{true, false};

use crate::work_on::fill_both;
use ring_handles::{Handle, Identity, open_many_to_one, open_one_to_one};
use std::alloc::Global;

/// Makes a ring whose positions begin at `start`. Otherwise the call is the same as felter_many_to_one_new. Codes: also
/// FELTER_BAD_START.
#[unsafe(no_mangle)]
pub extern "C" fn felter_many_to_one_new_at_numbered(
    alloc: Global,
    number: u64,
    capacity: u32,
    start: u64,
    producer: &mut Handle,
    consumer: &mut Handle,
) -> i32
    ensures { Opens true number capacity start producer.old.held consumer.old.held producer.new.held consumer.new.held
        result }
{
    fill_both!(
        producer,
        consumer,
        alloc,
        open_many_to_one(alloc, Identity { number }, capacity, start)
    )
}

/// Makes a ring of `capacity` bytes, with its first producer and its consumer. The capacity must be a power of two from
/// 128 to 2^24. A ring has 65,536 shares, and each producer holds at least one of them. The first producer holds all
/// shares. Positions begin at 0. Codes: FELTER_HANDLE_IN_USE if a handle is not empty, FELTER_BAD_CAPACITY,
/// FELTER_OUT_OF_MEMORY.
#[unsafe(no_mangle)]
pub extern "C" fn felter_many_to_one_new_numbered(
    alloc: Global,
    number: u64,
    capacity: u32,
    producer: &mut Handle,
    consumer: &mut Handle,
) -> i32
    ensures { Opens true number capacity 0 producer.old.held consumer.old.held producer.new.held consumer.new.held
        result }
{
    fill_both!(
        producer,
        consumer,
        alloc,
        open_many_to_one(alloc, Identity { number }, capacity, 0)
    )
}

/// Makes a one-to-one ring whose positions begin at `start`. Otherwise the call is the same as felter_one_to_one_new.
/// Codes: also FELTER_BAD_START.
#[unsafe(no_mangle)]
pub extern "C" fn felter_one_to_one_new_at_numbered(
    alloc: Global,
    number: u64,
    capacity: u32,
    start: u64,
    producer: &mut Handle,
    consumer: &mut Handle,
) -> i32
    ensures { Opens false number capacity start producer.old.held consumer.old.held producer.new.held consumer.new.held
        result }
{
    fill_both!(
        producer,
        consumer,
        alloc,
        open_one_to_one(alloc, Identity { number }, capacity, start)
    )
}

/// Makes a one-to-one ring, whose only producer cannot be split. Otherwise the call is the same as
/// felter_many_to_one_new.
#[unsafe(no_mangle)]
pub extern "C" fn felter_one_to_one_new_numbered(
    alloc: Global,
    number: u64,
    capacity: u32,
    producer: &mut Handle,
    consumer: &mut Handle,
) -> i32
    ensures { Opens false number capacity 0 producer.old.held consumer.old.held producer.new.held consumer.new.held
        result }
{
    fill_both!(
        producer,
        consumer,
        alloc,
        open_one_to_one(alloc, Identity { number }, capacity, 0)
    )
}
