//! When a storm's clients ask their gate, and when they report an answer to it; and threads that do not start.
use crate::compare::same;
use crate::conductor::storms::{Form, Numbers, all_answered, run_in};
use ring_storm::{Gate, OpenGate, StormFault, StormPlan};
use std::sync::atomic::Ordering::SeqCst;
use std::sync::atomic::{AtomicBool, AtomicU32};
use std::thread::sleep;
use std::time::Duration;

/// Notes whether each client asks and reports in order: it asks for its next command after the last one was answered,
/// and reports an answer after it was allowed to send that command.
#[derive(Drop)]
struct Strict {
    let_send: [AtomicU32; 2],
    answered: [AtomicU32; 2],
    broken: AtomicBool,
}

impl Gate for Strict {
    fn may_send(&self, client: u32, number: u32) -> bool {
        let mine = client as usize % 2;
        if self.answered[mine].load(SeqCst).checked_add(1) != Some(number) {
            self.broken.store(true, SeqCst);
        }
        self.let_send[mine].store(number, SeqCst);
        true
    }

    fn answered(&self, client: u32, number: u32) {
        let mine = client as usize % 2;
        let last = self.answered[mine].swap(number, SeqCst);
        if last.checked_add(1) != Some(number) || self.let_send[mine].load(SeqCst) != number {
            self.broken.store(true, SeqCst);
        }
    }
}

#[test]
fn each_answer_is_told_before_the_next_command(rt: HostRuntime) {
    let gate = Strict {
        let_send: [AtomicU32::new(0), AtomicU32::new(0)],
        answered: [AtomicU32::new(0), AtomicU32::new(0)],
        broken: AtomicBool::new(false),
    };
    let plan = StormPlan {
        clients: 2,
        commands: 300,
        ring: 256,
        turns: 50_000_000,
    };
    let report = run_in(&rt, rt.alloc(), Form::InWords, &plan, &gate);
    same(&rt, report, Ok(all_answered(2, 600)));
    let answered = (gate.answered[0].load(SeqCst), gate.answered[1].load(SeqCst));
    same(
        &rt,
        (gate.broken.load(SeqCst), answered),
        (false, (300, 300)),
    );
}

/// Lets no thread start with this number.
#[derive(Drop)]
struct Without {
    thread: u32,
}

impl Gate for Without {
    fn may_send(&self, _client: u32, _number: u32) -> bool {
        true
    }

    fn answered(&self, _client: u32, _number: u32) {}

    fn may_start(&self, thread: u32) -> bool {
        thread != self.thread
    }
}

#[test]
fn a_thread_that_cannot_be_started_is_told_as_memory(rt: HostRuntime) {
    let plan = StormPlan {
        clients: 4,
        commands: 100,
        ring: 1024,
        turns: 50_000_000,
    };
    for thread in 0..5 {
        let report = run_in(&rt, rt.alloc(), Form::InWords, &plan, &Without { thread });
        same(&rt, report, Err(StormFault::OutOfMemory));
    }
}

/// Lets no conductor start after 64 clients. It keeps each client for a while, lets it send then, and notes whether
/// it was asked and whether an answer was reported.
#[derive(Drop)]
struct NoConductor {
    asked: AtomicBool,
    told: AtomicBool,
}

impl Gate for NoConductor {
    fn may_send(&self, client: u32, number: u32) -> bool {
        self.asked.store(true, SeqCst);
        for _ in 0..20_000 {
            if self.told.load(SeqCst) {
                break;
            }
        }
        OpenGate.may_send(client, number)
    }

    fn answered(&self, _client: u32, _number: u32) {
        self.told.store(true, SeqCst);
    }

    fn may_start(&self, thread: u32) -> bool {
        thread < 64
    }
}

#[test]
fn no_answer_is_told_where_no_conductor_works(rt: HostRuntime) {
    let gate = NoConductor {
        asked: AtomicBool::new(false),
        told: AtomicBool::new(false),
    };
    let plan = StormPlan {
        clients: 64,
        commands: 2,
        ring: 4096,
        turns: 50_000_000,
    };
    let report = run_in(&rt, rt.alloc(), Form::InWords, &plan, &gate);
    same(&rt, report, Err(StormFault::OutOfMemory));
    let noted = (gate.asked.load(SeqCst), gate.told.load(SeqCst));
    same(&rt, noted, (true, false));
}

/// Keeps the conductor back until both clients were let send and had time to do so, and notes how many answers were
/// reported by then.
#[derive(Drop)]
struct LateConductor<'a> {
    rt: &'a HostRuntime,
    let_send: AtomicU32,
    told: AtomicU32,
    told_before: AtomicU32,
}

impl LateConductor<'_> {
    /// Waits until both clients were let send. False where that takes more than ten seconds.
    fn let_both_send(&self) -> bool {
        for _ in 0..10_000 {
            if self.let_send.load(SeqCst) == 2 {
                return true;
            }
            sleep(self.rt, Duration::from_millis(1));
        }
        false
    }
}

impl Gate for LateConductor<'_> {
    fn may_send(&self, _client: u32, _number: u32) -> bool {
        self.let_send.fetch_add(1, SeqCst);
        true
    }

    fn answered(&self, _client: u32, _number: u32) {
        self.told.fetch_add(1, SeqCst);
    }

    fn may_start(&self, thread: u32) -> bool {
        if thread == 2 && self.let_both_send() {
            sleep(self.rt, Duration::from_millis(50));
            self.told_before.store(self.told.load(SeqCst), SeqCst);
        }
        true
    }
}

#[test]
fn no_answer_is_told_before_the_conductor_works(rt: HostRuntime) {
    let gate = LateConductor {
        rt: &rt,
        let_send: AtomicU32::new(0),
        told: AtomicU32::new(0),
        // It stays so where the clients were not waited for.
        told_before: AtomicU32::new(u32::MAX),
    };
    let plan = StormPlan {
        clients: 2,
        commands: 1,
        ring: 256,
        turns: 50_000_000,
    };
    let report = run_in(&rt, rt.alloc(), Form::InWords, &plan, &gate);
    let told = (gate.told_before.load(SeqCst), gate.told.load(SeqCst));
    // A client that sends one command allocates a counter, and does not set it.
    let numbers = Numbers {
        sum: 0,
        ..all_answered(2, 2)
    };
    same(&rt, (report, told), (Ok(numbers), (0, 2)));
}

/// The turns of each wait of the storms below.
const TURNS: u32 = 2_000;

/// Lets no client send. Client 0 spends its turns at once and gives up; client 1 sleeps in each of its own, so that they
/// would last for 60 seconds. The conductor, which would give up too, is kept back until client 1 asks no more.
#[derive(Drop)]
struct GivesUp<'a> {
    rt: &'a HostRuntime,
    asked_first: AtomicU32,
    asked_second: AtomicU32,
    stopped: AtomicBool,
}

impl GivesUp<'_> {
    /// Whether client 0 has given up, and client 1 did not ask for 400 milliseconds.
    fn has_stopped(&self) -> bool {
        let before = self.asked_second.load(SeqCst);
        sleep(self.rt, Duration::from_millis(400));
        self.asked_first.load(SeqCst) == TURNS && self.asked_second.load(SeqCst) == before
    }
}

impl Gate for GivesUp<'_> {
    fn may_send(&self, client: u32, _number: u32) -> bool {
        if client == 0 {
            self.asked_first.fetch_add(1, SeqCst);
        } else {
            sleep(self.rt, Duration::from_millis(30));
            self.asked_second.fetch_add(1, SeqCst);
        }
        false
    }

    fn answered(&self, _client: u32, _number: u32) {}

    fn may_start(&self, thread: u32) -> bool {
        if thread < 2 {
            return true;
        }
        for _ in 0..120 {
            if self.has_stopped() {
                self.stopped.store(true, SeqCst);
                break;
            }
        }
        true
    }
}

#[test]
fn a_client_that_gives_up_stops_the_others(rt: HostRuntime) {
    let gate = GivesUp {
        rt: &rt,
        asked_first: AtomicU32::new(0),
        asked_second: AtomicU32::new(0),
        stopped: AtomicBool::new(false),
    };
    let plan = StormPlan {
        clients: 2,
        commands: 1,
        ring: 256,
        turns: u64::from(TURNS),
    };
    let report = run_in(&rt, rt.alloc(), Form::InWords, &plan, &gate);
    same(&rt, report, Err(StormFault::TurnsSpent));
    same(&rt, gate.stopped.load(SeqCst), true);
    same(&rt, gate.asked_second.load(SeqCst) < TURNS, true);
}

/// Lets no client send, and lets each sleep in its turns, so that they would last for 40 seconds: the conductor spends
/// its own first.
#[derive(Drop)]
struct Slow<'a> {
    rt: &'a HostRuntime,
    asked: AtomicU32,
}

impl Gate for Slow<'_> {
    fn may_send(&self, _client: u32, _number: u32) -> bool {
        sleep(self.rt, Duration::from_millis(20));
        self.asked.fetch_add(1, SeqCst);
        false
    }

    fn answered(&self, _client: u32, _number: u32) {}
}

#[test]
fn a_conductor_that_gives_up_stops_the_clients(rt: HostRuntime) {
    let gate = Slow {
        rt: &rt,
        asked: AtomicU32::new(0),
    };
    let plan = StormPlan {
        clients: 1,
        commands: 1,
        ring: 256,
        turns: u64::from(TURNS),
    };
    let report = run_in(&rt, rt.alloc(), Form::InWords, &plan, &gate);
    same(&rt, report, Err(StormFault::TurnsSpent));
    same(&rt, gate.asked.load(SeqCst) < TURNS, true);
}
