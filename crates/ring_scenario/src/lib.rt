//! Runs a scenario on a ring of messages, a broadcast buffer and a conductor of counters.
//!
//! - `scenario`: reads a whole text, and executes it line by line. `options` has the options of the command line.
//! - `runner`: the parts of a run, and the text that each call prints. `printer` prints messages, and `refusal` prints
//!   faults.
//! - `lines`: splits a text into lines, and a line into words, which ask for a call.
//! - `ring`: the ring of a run. `service`: the conductor's side of a run.
//! - `fault`: the reasons why a line or a run ends early.
#![tactic(auto)]

mod fault;
mod lines;
mod options;
mod printer;
mod refusal;
mod ring;
mod runner;
mod scenario;
mod service;

pub use fault::RunFault;
pub use lines::{LineError, MAX_INPUT};
pub use options::Options;
pub use scenario::{MAX_READS, run_scenario};
