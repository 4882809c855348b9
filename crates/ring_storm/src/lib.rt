//! Storms. Clients on several threads send commands to one conductor.
//!
//! - `storm`: runs the clients of a `StormPlan`, and reports the results. `storm_over` takes a ring of either form.
//! - `StormReport`, `StormFault`: the results of a storm, and the reason why there is no report.
//! - `Gate`: decides when a client may send, and which threads start. `OpenGate` never makes clients wait.
#![tactic(auto)]

mod client;
mod conductor;
mod endpoints;
mod gate;
mod levels;
mod plan;
mod promises;
mod report;
mod seats;
mod shared;
mod storms;

pub use gate::{Gate, OpenGate};
pub use plan::{StormFault, StormPlan, StormReport};
pub use storms::{storm, storm_over};
