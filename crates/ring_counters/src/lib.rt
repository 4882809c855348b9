//! Counters with labels, in records of words. A conductor keeps the counters, and monitors read them while it works.
//!
//! - `manager`: the counters of one owner, with their values. `calls` has the calls of the manager, by kind.
//! - `records`: the words of the counters, which are values and `metadata`. `wanted` has what a counter is allocated
//!   with. `ids` gives and frees ids, and `available` counts the ids that can be given.
//! - `values`: the values that threads share. `view` has what each seat knows, `rule` has the rule between any two
//!   steps, and `plays` has what each step says. `seats` has the writer and the readers. `calls` has the calls that set
//!   and load values, and `changes` has those that return the value before.
//! - `fault`, `info`: the reasons why calls refuse, and the record of a counter in a listing.
#![tactic(auto)]

mod calls;
mod fault;
mod info;
mod manager;
mod records;
mod values;

pub use calls::list::{LiveCounter, LiveCounters};
pub use fault::{AllocateRefused, BadId, BadOwner, IdFault, MakeFault, OutOfMemory};
pub use info::CounterInfo;
pub use manager::CountersManager;
pub use ring_layout::NoShares;
pub use values::seats::{CounterValues, ValueReader};
pub use values::view::{ValueLoad, ValueWrite, ValuesView};
