//! Recovers the messages of a ring from the memory that is left after all its threads died, each at any step.
//!
//! - `memory`: tests the memory, and returns what is recovered from it. `mark`: finds the headers of marks, and those of
//!   the runs that marks cover. `header`: tests one header.
//! - `recovered`, `message`, `body`: what is recovered.
#![tactic(auto)]

mod body;
mod header;
mod mark;
mod memory;
mod message;
mod recovered;

pub use body::Body;
pub use memory::recover;
pub use message::RecoveredMessage;
pub use recovered::Recovered;
pub use ring_snapshot::RingFinding;
