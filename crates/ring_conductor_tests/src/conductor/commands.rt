//! What the conductor does with commands, on rings of both kinds.
use crate::compare::same;
use crate::conductor::bench::Answer::{Done, State, Worked};
use crate::conductor::bench::Call::{Receive, Send, Work, Write};
use crate::conductor::bench::{Answer, Bench, Call, plays};
use crate::conductor::sending::work;
use ring_rings::{Kind, ManyToOne, OneToOne};
use ring_service::{Command, Cycle, FinishFault, Reply, WorkStop};
use std::alloc::Global;
use std::process::Abort;

/// The moments and limits of three cycles.
const CYCLES: [Cycle; 3] = [
    Cycle { now: 100, limit: 2 },
    Cycle { now: 149, limit: 1 },
    Cycle { now: 150, limit: 1 },
];

/// One id, allocated, freed, refused before its deadline and given again at it.
static COMMANDS: [Command<'static>; 4] = [
    Command::Allocate {
        correlation: 0,
        type_id: 5,
        key: &[],
        label: &[],
    },
    Command::Free {
        correlation: 1,
        id: 0,
    },
    Command::Allocate {
        correlation: 2,
        type_id: 5,
        key: &[],
        label: &[],
    },
    Command::Allocate {
        correlation: 3,
        type_id: 5,
        key: &[],
        label: &[],
    },
];

static REPLIES: [(u64, Reply); 4] = [
    (
        0,
        Reply::Allocated {
            correlation: 0,
            id: 0,
        },
    ),
    (24, Reply::Done { correlation: 1 }),
    (
        40,
        Reply::Refused {
            correlation: 2,
            code: 19,
        },
    ),
    (
        64,
        Reply::Allocated {
            correlation: 3,
            id: 0,
        },
    ),
];

fn works<K: Kind>(rt: &impl Abort, bench: &mut Bench<K>) {
    assert!(rt; bench.send(&COMMANDS));
    same(rt, bench.run(&[]), work(0, WorkStop::Limit));
    same(rt, bench.run(&CYCLES), work(4, WorkStop::Limit));
    assert!(rt; bench.receives(&REPLIES));
}

/// Finishes once the listener is back.
fn finishes<K: Kind>(rt: &impl Abort, bench: Bench<K>) {
    let (reason, bench) = bench.finish().err().expect(rt, "a refusal");
    same(rt, reason, FinishFault::ReceiversOut { receivers: 1 });
    let finished = bench.finish_alone().expect(rt, "an end");
    same(rt, (finished.received, finished.board.latest()), (4, 64));
}

fn gives_a_freed_id_again<K: Kind>(rt: &impl Abort, alloc: Global) {
    let mut bench = Bench::<K>::new(rt, alloc, 1);
    works(rt, &mut bench);
    finishes(rt, bench);
}

#[test]
fn gives_a_freed_id_again_once_it_is_due(rt: HostRuntime) {
    gives_a_freed_id_again::<OneToOne>(&rt, rt.alloc());
    gives_a_freed_id_again::<ManyToOne>(&rt, rt.alloc());
}

static UNREAD: [(Call<'static>, Answer); 9] = [
    // A key that passes the end.
    (
        Write(1, &[5, 0, 0, 0, 0, 0, 0, 0, 1, 0, 0, 0, 255, 255, 255, 255]),
        Done,
    ),
    // A byte more, or one less.
    (
        Write(
            1,
            &[
                6, 0, 0, 0, 0, 0, 0, 0, 1, 0, 0, 0, 0, 0, 0, 0, 0, 0, 0, 0, 0,
            ],
        ),
        Done,
    ),
    (
        Write(
            1,
            &[6, 0, 0, 0, 0, 0, 0, 0, 1, 0, 0, 0, 0, 0, 0, 0, 0, 0, 0],
        ),
        Done,
    ),
    (Write(2, &[]), Done),
    (
        Write(
            3,
            &[7, 0, 0, 0, 0, 0, 0, 0, 0, 0, 0, 0, 0, 0, 0, 0, 0, 0, 0],
        ),
        Done,
    ),
    (
        Write(
            6,
            &[7, 0, 0, 0, 0, 0, 0, 0, 0, 0, 0, 0, 0, 0, 0, 0, 0, 0, 0],
        ),
        Done,
    ),
    (Work(9), Worked(6, WorkStop::Unpublished)),
    (
        Receive(&[
            (
                0,
                Reply::Refused {
                    correlation: 5,
                    code: 22,
                },
            ),
            (
                24,
                Reply::Refused {
                    correlation: 6,
                    code: 22,
                },
            ),
            (
                48,
                Reply::Refused {
                    correlation: 6,
                    code: 22,
                },
            ),
            (
                72,
                Reply::Refused {
                    correlation: u64::MAX,
                    code: 22,
                },
            ),
            (
                96,
                Reply::Refused {
                    correlation: 7,
                    code: 22,
                },
            ),
            (
                120,
                Reply::Refused {
                    correlation: 7,
                    code: 23,
                },
            ),
        ]),
        Done,
    ),
    (Call::State(0), State(Ok(0))),
];

#[test]
fn refuses_what_it_cannot_read_and_changes_nothing(rt: HostRuntime) {
    plays::<ManyToOne>(&rt, rt.alloc(), &UNREAD);
}

static REFUSED: [(Call<'static>, Answer); 4] = [
    (
        Send(&[
            Command::Free {
                correlation: 1,
                id: 0,
            },
            Command::Set {
                correlation: 2,
                id: 4,
                value: 1,
            },
            Command::Close {
                correlation: 3,
                owner: 0,
            },
        ]),
        Done,
    ),
    (Work(9), Worked(3, WorkStop::Unpublished)),
    (
        Receive(&[
            (
                0,
                Reply::Refused {
                    correlation: 1,
                    code: 21,
                },
            ),
            (
                24,
                Reply::Refused {
                    correlation: 2,
                    code: 20,
                },
            ),
            (
                48,
                Reply::Refused {
                    correlation: 3,
                    code: 28,
                },
            ),
        ]),
        Done,
    ),
    (Call::State(0), State(Ok(0))),
];

#[test]
fn refuses_what_the_counters_refuse(rt: HostRuntime) {
    plays::<OneToOne>(&rt, rt.alloc(), &REFUSED);
}
