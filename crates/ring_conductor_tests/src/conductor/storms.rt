//! Storms over rings of either form, whose reports are known.
use crate::compare::same;
use ring_rings::{Bodies, InSlots, InWords};
use ring_storm::{Gate, OpenGate, StormFault, StormPlan, storm_over};
use std::alloc::Global;
use std::sync::Wait;
use std::sync::atomic::AtomicBool;
use std::sync::atomic::Ordering::SeqCst;
use std::thread::Threads;

/// The turns of a storm that is to end well.
const TURNS: u64 = 50_000_000;

/// The tries of a gate that waits inside itself.
const TRIES: u32 = 100_000_000;

/// The numbers of a storm's report.
#[derive(Clone, Copy, Debug, PartialEq, Eq)]
pub struct Numbers {
    pub received: u64,
    pub left: u64,
    pub seen: u64,
    pub live: u32,
    pub sum: i64,
}

/// Runs a storm over a ring of one form. It has no contract, so that the tests do not depend on a storm's.
fn run<B: Bodies + Sync, R: Threads + Wait, G: Gate + Sync>(
    rt: &R,
    alloc: Global,
    plan: &StormPlan,
    gate: &G,
) -> Result<Numbers, StormFault> {
    let report = storm_over::<B, R, G>(rt, alloc, plan, gate)?;
    Ok(Numbers {
        received: report.received,
        left: report.left,
        seen: report.seen,
        live: report.live,
        sum: report.sum,
    })
}

/// Where the bodies of a storm's ring lie.
#[derive(Clone, Copy)]
pub enum Form {
    InWords,
    InSlots,
}

static BOTH: [Form; 2] = [Form::InWords, Form::InSlots];

/// Runs a storm over a ring of this form.
pub fn run_in<R: Threads + Wait, G: Gate + Sync>(
    rt: &R,
    alloc: Global,
    bodies: Form,
    plan: &StormPlan,
    gate: &G,
) -> Result<Numbers, StormFault> {
    match bodies {
        Form::InWords => run::<InWords, R, G>(rt, alloc, plan, gate),
        Form::InSlots => run::<InSlots, R, G>(rt, alloc, plan, gate),
    }
}

fn plan(clients: u32, commands: u32) -> StormPlan {
    StormPlan {
        clients,
        commands,
        ring: 1024,
        turns: TURNS,
    }
}

/// Two clients of two commands.
fn two_clients(turns: u64) -> StormPlan {
    StormPlan {
        clients: 2,
        commands: 2,
        ring: 256,
        turns,
    }
}

/// The report of a storm in which all of these commands were answered, of which each client sent more than one.
pub fn all_answered(clients: u32, commands: u32) -> Numbers {
    Numbers {
        received: u64::from(commands),
        left: 0,
        seen: u64::from(commands),
        live: clients,
        sum: i64::from(commands),
    }
}

#[test]
fn clients_send_a_hundred_commands_each(rt: HostRuntime) {
    for bodies in BOTH {
        for (clients, all) in [(4, 400), (64, 6_400)] {
            let report = run_in(&rt, rt.alloc(), bodies, &plan(clients, 100), &OpenGate);
            same(&rt, report, Ok(all_answered(clients, all)));
        }
    }
}

/// A plan within its limits.
const LAWFUL: StormPlan = StormPlan {
    clients: 1,
    commands: 1,
    ring: 1024,
    turns: TURNS,
};

static BAD_PLANS: [StormPlan; 9] = [
    StormPlan {
        clients: 0,
        ..LAWFUL
    },
    StormPlan {
        clients: 65,
        ..LAWFUL
    },
    StormPlan {
        commands: 0,
        ..LAWFUL
    },
    StormPlan {
        commands: 10_001,
        ..LAWFUL
    },
    StormPlan { ring: 0, ..LAWFUL },
    StormPlan {
        ring: 128,
        ..LAWFUL
    },
    StormPlan {
        ring: 300,
        ..LAWFUL
    },
    StormPlan {
        ring: 33_554_432,
        ..LAWFUL
    },
    StormPlan { turns: 0, ..LAWFUL },
];

#[test]
fn plans_out_of_their_limits_are_refused(rt: HostRuntime) {
    for bodies in BOTH {
        for plan in BAD_PLANS.iter() {
            let refused = run_in(&rt, rt.alloc(), bodies, plan, &OpenGate);
            same(&rt, refused, Err(StormFault::BadPlan));
        }
    }
}

/// Client 0 sends its first command after client 1's first was answered, and client 1 its second after client 0's
/// first.
#[derive(Drop)]
struct InTurn {
    answered: [AtomicBool; 2],
}

impl Gate for InTurn {
    fn may_send(&self, client: u32, number: u32) -> bool {
        match (client, number) {
            (0, 1) => self.answered[1].load(SeqCst),
            (1, 2) => self.answered[0].load(SeqCst),
            _ => true,
        }
    }

    fn answered(&self, client: u32, number: u32) {
        if number == 1 {
            if let Some(flag) = self.answered.get(client as usize) {
                flag.store(true, SeqCst);
            }
        }
    }
}

#[test]
fn clients_send_as_the_gate_lets_them(rt: HostRuntime) {
    for bodies in BOTH {
        let gate = InTurn {
            answered: [AtomicBool::new(false), AtomicBool::new(false)],
        };
        let report = run_in(&rt, rt.alloc(), bodies, &two_clients(10_000_000), &gate);
        same(&rt, report, Ok(all_answered(2, 4)));
    }
}

/// Lets no client send.
#[derive(Drop)]
struct Shut;

impl Gate for Shut {
    fn may_send(&self, _client: u32, _number: u32) -> bool {
        false
    }

    fn answered(&self, _client: u32, _number: u32) {}
}

#[test]
fn turns_are_spent_at_a_gate_that_never_opens(rt: HostRuntime) {
    let plan = two_clients(1_000);
    for bodies in BOTH {
        let report = run_in(&rt, rt.alloc(), bodies, &plan, &Shut);
        same(&rt, report, Err(StormFault::TurnsSpent));
    }
}

/// Notes whether both clients are inside the gate at one time.
#[derive(Drop)]
struct Meeting {
    inside: [AtomicBool; 2],
    met: AtomicBool,
}

impl Meeting {
    fn meets(&self, other: usize) -> bool {
        self.met.load(SeqCst) || self.inside.get(other).is_some_and(|flag| flag.load(SeqCst))
    }
}

impl Gate for Meeting {
    fn may_send(&self, client: u32, number: u32) -> bool {
        if number != 1 || client > 1 {
            return true;
        }
        let mine = client as usize;
        self.inside[mine].store(true, SeqCst);
        for _ in 0..TRIES {
            if self.meets(1 - mine) {
                self.met.store(true, SeqCst);
                break;
            }
        }
        self.inside[mine].store(false, SeqCst);
        true
    }

    fn answered(&self, _client: u32, _number: u32) {}
}

#[test]
fn clients_meet_inside_the_gate(rt: HostRuntime) {
    for bodies in BOTH {
        let gate = Meeting {
            inside: [AtomicBool::new(false), AtomicBool::new(false)],
            met: AtomicBool::new(false),
        };
        let report = run_in(&rt, rt.alloc(), bodies, &two_clients(1_000_000_000), &gate);
        same(&rt, report, Ok(all_answered(2, 4)));
        same(&rt, gate.met.load(SeqCst), true);
    }
}

/// Keeps one client inside until the other's first command was answered.
#[derive(Drop)]
struct Waiting {
    client: u32,
    answered: AtomicBool,
    noted: AtomicBool,
}

impl Gate for Waiting {
    fn may_send(&self, client: u32, number: u32) -> bool {
        if client != self.client || number != 1 {
            return true;
        }
        for _ in 0..TRIES {
            if self.answered.load(SeqCst) {
                self.noted.store(true, SeqCst);
                break;
            }
        }
        true
    }

    fn answered(&self, client: u32, number: u32) {
        if client != self.client && number == 1 {
            self.answered.store(true, SeqCst);
        }
    }
}

#[test]
fn one_client_is_answered_while_the_other_waits(rt: HostRuntime) {
    for bodies in BOTH {
        for client in 0..2 {
            let gate = Waiting {
                client,
                answered: AtomicBool::new(false),
                noted: AtomicBool::new(false),
            };
            let report = run_in(&rt, rt.alloc(), bodies, &two_clients(1_000_000_000), &gate);
            same(&rt, report, Ok(all_answered(2, 4)));
            same(&rt, gate.noted.load(SeqCst), true);
        }
    }
}
