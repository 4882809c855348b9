//! Makes each of nine calls that take memory twice, and prints how many of these tries were refused and which results
//! were wrong.
//!
//! If no request for memory is refused, this prints `refused 0`. If one request is refused, this prints `refused 1`:
//! one try returned `OutOfMemory` and left everything unchanged, and the other tries went well.

mod calls;
mod failure;

use calls::{
    conductor_subscribe, counters, live, many_to_one, new_board, one_to_one, solo, storm_of_two,
    subscribe,
};
use failure::Failure;
use std::io;
use std::sync::Wait;
use std::thread::Threads;

/// Makes the calls, and prints the results.
pub fn print_refusals<R: AllocGlobal + Print + Threads + Wait>(rt: &R) -> io::Result<()> {
    let alloc = rt.alloc();
    let mut refused = 0u32;
    for turn in 0..2u32 {
        let answers = [
            ("ring of many producers", many_to_one(alloc)),
            ("ring of one producer", one_to_one(alloc)),
            ("ring of one owner", solo(alloc)),
            ("board", new_board(alloc)),
            ("receiver", subscribe(alloc)),
            ("counters", counters(alloc)),
            ("list of counters", live(alloc)),
            ("receiver of replies", conductor_subscribe(alloc)),
            ("storm", storm_of_two(rt, alloc)),
        ];
        for (name, answer) in answers {
            match answer {
                Ok(()) => {}
                Err(Failure::Refused) => refused = refused.saturating_add(1),
                Err(Failure::Wrong) => println!(rt; "wrong: {name}, turn {turn}")?,
            }
        }
    }
    println!(rt; "refused {refused}")
}
