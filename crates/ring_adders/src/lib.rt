//! A counter to which any number of threads add. Its value is the sum of what they added.
//!
//! - `view`: what each adder knows. `rule`: the rule between any two steps. `plays`: what each step says.
//! - `seats`: the shared counter and its adders. `calls`: the calls of the counter and of the adders.
#![tactic(auto)]

mod calls;
mod plays;
mod rule;
mod seats;
mod view;

pub use ring_counters::OutOfMemory;
pub use ring_layout::NoShares;
pub use seats::{Adder, SharedCounter};
pub use view::AdderView;
