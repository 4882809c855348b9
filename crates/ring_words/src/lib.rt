//! A ring of messages with one owner: the plain ring that every shared ring is compared with.
//!
//! - `ring`: the ring, and how it is made. `claim`, `fault`, `positions`: what its calls hand out and why they refuse.
//! - `write`: claims and writes. `append` stores a record after the tail, `settle` changes one that is there.
//! - `read`: `head` looks at the record at the head, `reads` goes on from there, `drain` takes all that is left.
//!   `action`, `end`, `handler`: what a handler is, what it returns, and how a read ends.
//! - `words`: bodies in a slice of words.
#![tactic(auto)]

mod claim;
mod fault;
mod positions;
mod read;
mod ring;
mod words;
mod write;

pub use claim::SoloClaim;
pub use fault::{ClaimFault, PutRange};
pub use positions::{Positions, Standing};
pub use read::action::Action;
pub use read::end::{ReadEnd, Stop};
pub use read::handler::Handler;
pub use ring::SoloRing;
pub use ring_layout::MakeFault;
