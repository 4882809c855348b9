//! `ring_conductor`: a storm, and its gate.

use ring_conductor::{Gate, OpenGate, StormFault, StormPlan, StormReport};
use std::alloc::Global;
use std::sync::Wait;
use std::thread::Threads;

/// What came of a storm, and of one whose plan is not allowed.
#[derive(Debug, Drop)]
pub struct Came {
    received: u64,
    left: u64,
    seen: u64,
    live: u32,
    sum: i64,
    may_send: bool,
    refused: Option<StormFault>,
}

/// Two clients send three commands each.
pub fn storm<R: Threads + Wait>(rt: &R, alloc: Global) -> anyhow::Result<Came> {
    let plan = StormPlan {
        clients: 2,
        commands: 3,
        ring: 256,
        turns: 50_000_000,
    };
    let report: StormReport = ring_conductor::storm(rt, alloc, &plan, &OpenGate)?;
    OpenGate.answered(0, 1);
    let none = StormPlan { clients: 0, ..plan };
    Ok(Came {
        received: report.received,
        left: report.left,
        seen: report.seen,
        live: report.live,
        sum: report.sum,
        may_send: OpenGate.may_send(0, 1),
        refused: ring_conductor::storm(rt, alloc, &none, &OpenGate).err(),
    })
}
