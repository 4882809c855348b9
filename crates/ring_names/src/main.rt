//! Uses public names of the libraries by their paths, and makes calls that take memory. The program prints what came of
//! them. With the word `memory` it makes only the calls that take memory.
#![tactic(auto)]

mod boards;
mod clients;
mod commands;
mod counting;
mod ends;
mod memory;
mod numbering;
mod places;
mod receivers;
mod serving;
mod sharing;
mod solo;

use anyhow::anyhow;
use std::env::{Env, FillError};
use std::fmt;
use std::sync::Wait;
use std::thread::Threads;

/// Prints what came of the names of a library, or returns the error.
fn say(
    rt: &impl Print,
    library: &str,
    came: anyhow::Result<impl fmt::Debug + Drop>,
) -> anyhow::Result<()> {
    let came = came?;
    println!(rt; "{library}: {came:?}")?;
    Ok(())
}

/// Uses the names of each library, and prints what came of it.
fn say_all<R: AllocGlobal + Print + Threads + Wait>(rt: &R) -> anyhow::Result<()> {
    say(rt, "ring_layout", Ok(places::words()))?;
    say(rt, "ring_layout", Ok(places::descriptors()))?;
    say(rt, "ring_words", solo::run(rt.alloc()))?;
    say(rt, "ring_rings", sharing::one_to_one(rt.alloc()))?;
    say(rt, "ring_rings", sharing::many_to_one(rt, rt.alloc()))?;
    say(rt, "ring_rings", sharing::refused(rt.alloc()))?;
    say(rt, "ring_board", boards::copied(rt.alloc()))?;
    say(rt, "ring_board", boards::raw(rt.alloc()))?;
    say(rt, "ring_ends", ends::one_to_one(rt.alloc()))?;
    say(rt, "ring_ends", ends::many_to_one(rt, rt.alloc()))?;
    say(rt, "ring_ends", ends::refused(rt.alloc()))?;
    say(rt, "ring_ends", ends::put_together(rt.alloc()))?;
    say(rt, "ring_ends", ends::counters(rt.alloc()))?;
    say(rt, "ring_ends", receivers::receive(rt.alloc()))?;
    say(rt, "ring_ends", serving::serve(rt.alloc()))?;
    say(rt, "ring_ends", numbering::settle(rt.alloc()))?;
    say(rt, "ring_ends", numbering::board(rt.alloc()))?;
    say(rt, "ring_ends", numbering::kept(rt.alloc()))?;
    say(rt, "ring_counters", counting::run(rt.alloc()))?;
    say(rt, "ring_conductor", Ok(commands::codec()))?;
    say(rt, "ring_conductor", commands::conductor(rt.alloc()))?;
    say(rt, "ring_conductor", clients::storm(rt, rt.alloc()))
}

/// The parts that the command line asks for.
enum Parts {
    All,
    Memory,
}

/// Returns the parts that the first word of the command line asks for. This word is `memory`, or there is no word.
/// Returns `None` if there is another word. The word is read into an array, so that only the calls of the part `memory`
/// request memory.
fn asked(rt: &impl Env) -> Option<Parts> {
    let mut word = [0; 8];
    match rt.arg(1, &mut word) {
        Err(FillError::NotPresent) => Some(Parts::All),
        Ok(len) if word.get(..len) == Some(b"memory".as_slice()) => Some(Parts::Memory),
        Ok(_) | Err(FillError::TooLong) => None,
    }
}

fn main(rt: HostRuntime) -> anyhow::Result<()> {
    match asked(&rt) {
        Some(Parts::All) => say_all(&rt)?,
        Some(Parts::Memory) => {}
        None => return Err(anyhow!("usage: ring_names [memory]")),
    }
    memory::print_refusals(&rt)?;
    Ok(())
}
