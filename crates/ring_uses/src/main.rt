//! Six small uses of rings. The contracts of five of them say what became of the data.
#![tactic(auto)]

mod claims;
mod closing;
mod driver;
mod laps;
mod numbers;
mod producers;
mod reply;
mod sum;

use claims::abort_first;
use driver::{drive, print_driven};
use laps::overtake;
use numbers::Summed;
use producers::gather;
use reply::ask;
use std::io;
use sum::add_up;

/// Prints a sum, and the bytes that are left in the ring.
fn print_sum<Ends>(rt: &impl Print, what: &str, summed: &Summed<Ends>) -> io::Result<()> {
    let left = summed.closed.rest.positions().used();
    println!(rt; "{what}: sum {} left {left}", summed.sum)
}

fn main(rt: HostRuntime) -> anyhow::Result<()> {
    print_sum(&rt, "two threads", &add_up(&rt, rt.alloc(), 1_000)?)?;
    print_sum(&rt, "four producers", &gather(&rt, rt.alloc(), 250)?)?;
    print_sum(&rt, "one claim of two", &abort_first(rt.alloc(), 5, 7)?)?;
    let overtaken = overtake(rt.alloc(), 1_000)?;
    println!(rt;
        "a lapped receiver: sum {} laps {}",
        overtaken.sum, overtaken.laps
    )?;
    println!(rt; "a request: {:?}", ask(rt.alloc())?.reply)?;
    print_driven(&rt, &drive(&rt, rt.alloc())?)
}
