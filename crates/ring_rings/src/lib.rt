//! The rings that threads share. A ring has one consumer, and one producer or any number of producers.
//!
//! - `ring`: a ring, its producers and its consumer. `open` makes a ring, and `close` takes it apart.
//! - `kind`: how a producer of each kind moves the tail.
//! - `producer`: the calls of producers. `try_once` has one try for both kinds of rings. `one_to_one` and `many_to_one`
//!   have the calls of one kind. `wait` has the calls that try again. `batch` writes several messages to a plain ring.
//!   `settle` settles claims. `service` has the calls for ids, heartbeats and positions.
//! - `consumer`: the calls of the consumer. `read` has the calls, `turn` has one turn of a read, and `pass` has the end
//!   of a read. `heartbeat` stores the heartbeat.
//! - `source`: the traits that a conductor needs of a ring.
//! - `bodies`: the steps that depend on whether bodies are in words (`words`) or in slots (`slots`).
//! - `claim`, `fault`: an open claim, and the reasons why calls refuse.
#![tactic(auto)]

mod bodies;
mod claim;
mod close;
mod consumer;
mod fault;
mod kind;
mod open;
mod producer;
mod rescue;
mod ring;
mod slots;
mod source;
mod words;

pub use bodies::Bodies;
pub use claim::{Claim, KeptClaim};
pub use fault::{CloseFault, TryFault};
pub use kind::Kind;
pub use rescue::Rescued;
pub use ring::{
    CloseRefused, Consumer, ManyToOne, ManyToOneRing, OneToOne, OneToOneRing, PlainManyToOneRing,
    PlainOneToOneRing, PlainRing, Producer, Ring,
};
pub use ring_layout::{MakeFault, NoShares};
pub use ring_table::{InSlots, InWords, Outgoing, Unsettled};
pub use ring_words::{Action, ClaimFault, Handler, Positions, PutRange, ReadEnd, Standing, Stop};
pub use source::{CommandSource, Heartbeat, Rescue};
