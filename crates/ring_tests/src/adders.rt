//! Adders of one thread, and of several.
ghost use Rattle.std.specs.Thread.{IsSync};
ghost use Rattle.ring_adders.specs.Adders.{IsAdderOf};

use crate::compare::same;
use ring_adders::{Adder, SharedCounter};
use std::process::Abort;
use std::test::*;
use std::thread::{Threads, join};

/// Adds an amount `times` times.
fn adds(counter: &SharedCounter, mut adder: Adder, amount: i64, times: u32) -> Adder
    requires { IsAdderOf counter.now adder }
    ensures { IsAdderOf counter.now result }
{
    for _time in 0..times {
        let _before = counter.add(&mut adder, amount);
    }
    adder
}

/// Two threads add, and their adders come back.
fn adds_on_threads<R: Abort + Threads + Sync>(
    rt: &R,
    counter: &SharedCounter,
    mut adder: Adder,
    times: u32,
) -> Adder
    requires { IsAdderOf counter.now adder }
    ensures { IsAdderOf counter.now result }
{
    let one = counter.split(&mut adder).expect(rt, "an adder");
    let two = counter.split(&mut adder).expect(rt, "an adder");
    let (one, two) = join(
        rt,
        move || -> Adder
            requires { IsAdderOf counter.now one }
            ensures { IsAdderOf counter.entry.now result }
        { adds(counter, one, 3, times) },
        move || -> Adder
            requires { IsAdderOf counter.now two }
            ensures { IsAdderOf counter.entry.now result }
        { adds(counter, two, -1, times) },
    );
    counter.join(&mut adder, one);
    counter.join(&mut adder, two);
    adder
}

#[test]
fn totals_of_threads_are_exact(rt: HostRuntime) {
    for _round in 0..50u32 {
        let (counter, adder) = SharedCounter::new(rt.alloc()).expect(&rt, "a counter");
        let mut adder = adds_on_threads(&rt, &counter, adder, 2000);
        same(&rt, counter.value(&mut adder), 4000);
        same(&rt, adder.shares(), 65536);
    }
}

/// Amounts, each with the value before it is added.
static WRAPS: [(i64, i64); 4] = [
    (i64::MAX, 0),
    (1, i64::MAX),
    (-1, i64::MIN),
    (i64::MIN, i64::MAX),
];

/// Adds amounts, and tests the value before each.
fn wraps(rt: &impl Abort, counter: &SharedCounter, adder: &mut Adder)
    requires { IsAdderOf counter.now adder.old }
    ensures { IsAdderOf counter.now adder.new }
{
    for (amount, before) in &WRAPS {
        same(rt, counter.add(adder, *amount), *before);
    }
}

#[test]
fn sums_wrap_and_the_value_before_is_returned(rt: HostRuntime) {
    let (counter, mut adder) = SharedCounter::new(rt.alloc()).expect(&rt, "a counter");
    let mut other = counter.split(&mut adder).expect(&rt, "an adder");
    wraps(&rt, &counter, &mut other);
    same(&rt, counter.value(&mut adder), -1);
    same(&rt, counter.split(&mut other).is_err(), true);
    same(&rt, (adder.shares(), other.shares()), (65535, 1));
}
