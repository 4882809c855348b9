//! The conductor. It takes commands from a ring, applies them to counters, and transmits one reply to each command.
//!
//! - `Request`, `Command`, `Reply`, `RefusalCode`: the protocol and its encoding.
//! - `Client`: sends commands and receives replies.
//! - `Conductor`: is made of a ring's consumer, a broadcast buffer's transmitter and counters, and does the work.
//! - `finish`: closes the ring and the broadcast buffer, and returns all that is left. Its contract is the headline.
//! - `Conductor::finish_without`: does the same without the producers, even if some of them were lost.
//! - `whole_run`: one run of all these calls, which is the part to read first.
//! - the laws: properties of the protocol and of the fold of commands.
#![tactic(auto)]

mod client;
mod conductor;
mod finishing;
mod laws;
mod whole;

pub use client::{Client, Polled, SendFault};
pub use conductor::{Conductor, Cycle, Work, WorkStop};
pub use finishing::fault::{FinishFault, FinishRefused};
pub use finishing::without::FinishedWithout;
pub use finishing::{Finished, finish};
pub use laws::{fold_ignores_receivers, fold_lengthens, fold_of_fold};
pub use ring_protocol::{
    Bad, Command, LONGEST_COMMAND, LONGEST_REPLY, RefusalCode, Reply, Request, UnknownCode,
    command_round_trip, command_type_ids, decode_command, decode_reply, encode_command,
    encode_reply, encode_request, longest_command, one_command, one_reply, reply_round_trip,
    reply_type_ids,
};
pub use whole::{Parties, WholeFault, WholeRun, whole_run, whole_run_over};
