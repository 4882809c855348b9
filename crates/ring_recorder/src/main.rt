//! Records a storm of claims on a ring, for the program `ring-check`:
//! `ring_recorder FORM CAPACITY PRODUCERS CLAIMS SEED`. FORM is `words` or `slots`. With one producer the ring has the
//! kind of one producer.
#![tactic(auto)]

mod consumer;
mod fault;
mod log;
mod plan;
mod producer;
mod random;
mod storm;

use fault::RecordFault;
use plan::{Form, Plan};
use ring_rings::{InSlots, InWords};
use std::env::{self, Env};
use std::process::ExitCode;
use std::sync::Wait;
use std::thread::Threads;

/// The status if nothing was recorded.
const FAULT: u8 = 2;

fn main(rt: HostRuntime) -> ExitCode {
    match run(&rt) {
        Ok(()) => ExitCode::SUCCESS,
        Err(fault) => {
            let _ = eprintln!(rt; "ring_recorder: {fault}");
            ExitCode::from(FAULT)
        }
    }
}

/// Records the storm that the command line asks for, and prints its text.
fn run<R: AllocGlobal + Env + Print + Threads + Sync + Wait>(rt: &R) -> Result<(), RecordFault> {
    let Ok(arguments) = env::args(rt) else {
        return Err(RecordFault::BadWords);
    };
    let words: Vec<String> = arguments.collect(rt.alloc())?;
    let Some(plan) = Plan::of(words.as_slice()) else {
        return Err(RecordFault::BadWords);
    };
    let text = match plan.form {
        Form::Words => storm::record::<InWords, R>(rt, rt.alloc(), &plan)?,
        Form::Slots => storm::record::<InSlots, R>(rt, rt.alloc(), &plan)?,
    };
    if rt.print(text.as_str()).is_err() {
        return Err(RecordFault::OutputUnwritten);
    }
    Ok(())
}
