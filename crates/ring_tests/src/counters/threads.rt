//! Readers on other threads.
ghost use Rattle.std.specs.Thread.{IsSync};
ghost use Rattle.ring_counters.specs.{Seats.IsReaderOf, Manager.IsManagerOf};

use crate::compare::same;
use crate::counters::desk::Desk;
use ring_counters::{CounterValues, CountersManager, ValueReader};
use std::process::Abort;
use std::test::*;
use std::thread::{Threads, join};

/// Sets the counter 0 to 1, 2, .. up to the last.
fn count_up(values: &CounterValues, mut counters: CountersManager, last: i64) -> CountersManager
    requires { IsManagerOf values.now counters }
    ensures { IsManagerOf values.now result }
{
    for value in 1..=last {
        let _ = counters.set(values, 0, value);
    }
    counters
}

/// Whether the last value was seen, and no smaller one after a greater one.
fn watch(values: &CounterValues, mut reader: ValueReader, last: i64) -> (ValueReader, bool)
    requires { IsReaderOf values.now reader }
    ensures { IsReaderOf values.now result.0 }
{
    let mut most = 0;
    for _turn in 0..50_000_000u32 {
        match values.load(&mut reader, 0) {
            Ok(value) if value >= most => most = value,
            _ => return (reader, false),
        }
        if most == last {
            return (reader, true);
        }
        std::hint::spin_loop();
    }
    (reader, false)
}

/// One thread counts up while two others watch.
fn counts_and_watches<R: Abort + Threads + Sync>(
    rt: &R,
    values: &CounterValues,
    mut counters: CountersManager,
    last: i64,
) -> bool
    requires { IsManagerOf values.now counters }
{
    let one = counters.reader(values).expect(rt, "a reader");
    let two = counters.reader(values).expect(rt, "a reader");
    let (mut counters, (one, two)) = join(
        rt,
        move || -> CountersManager
            requires { IsManagerOf values.now counters }
            ensures { IsManagerOf values.entry.now result }
        { count_up(values, counters, last) },
        move || -> ((ValueReader, bool), (ValueReader, bool))
            requires { IsSync R.row × IsReaderOf values.now one × IsReaderOf values.now two }
            ensures { IsReaderOf values.entry.now result.0.0 × IsReaderOf values.entry.now result.1.0 }
        {
            join(
                rt,
                move || -> (ValueReader, bool)
                    requires { IsReaderOf values.now one }
                    ensures { IsReaderOf values.entry.now result.0 }
                { watch(values, one, last) },
                move || -> (ValueReader, bool)
                    requires { IsReaderOf values.now two }
                    ensures { IsReaderOf values.entry.now result.0 }
                { watch(values, two, last) },
            )
        },
    );
    let (one, first) = one;
    let (two, second) = two;
    counters.join_reader(values, one);
    counters.join_reader(values, two);
    first && second
}

#[test]
fn readers_never_see_values_fall(rt: HostRuntime) {
    for _round in 0..100u32 {
        let mut desk = Desk::new(rt.alloc(), 1, 0).expect(&rt, "a manager");
        same(&rt, desk.allocate(0), Ok(0));
        let Desk { values, counters } = desk;
        assert!(rt; counts_and_watches(&rt, &values, counters, 1000));
    }
}
