//! One run of the whole, as a user sees what comes out.
use crate::compare::same;
use ring_rings::InSlots;
use ring_service::{Polled, Reply, WholeRun, Work, WorkStop, whole_run, whole_run_over};
use std::process::Abort;

/// A run that took both commands, and left a counter with 7.
fn check(rt: &impl Abort, run: WholeRun) {
    let WholeRun {
        finished,
        first,
        second,
        polled,
        ..
    } = run;
    let one = Work {
        messages: 1,
        stopped: WorkStop::Unpublished,
    };
    let reply = Reply::Allocated {
        correlation: 0,
        id: 0,
    };
    same(rt, (first, second), (one, one));
    same(rt, polled, Polled::Answered(reply));
    let mut rest = finished.rest;
    let commands = (finished.received, rest.drain());
    let places = (finished.board.latest(), finished.board.tail());
    let value = finished.counters.value(0);
    same(rt, (commands, places, value), ((2, 0), (24, 40), Ok(7)));
}

#[test]
fn one_run_takes_all_and_leaves_its_counter(rt: HostRuntime) {
    let run = whole_run(rt.alloc(), 100, 200).expect(&rt, "a run");
    check(&rt, run);
}

/// Its commands lie in plain memory.
#[test]
fn one_run_over_slots_does_the_same(rt: HostRuntime) {
    let run = whole_run_over::<InSlots>(rt.alloc(), 100, 200).expect(&rt, "a run");
    check(&rt, run);
}
