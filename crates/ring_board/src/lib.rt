//! A broadcast buffer. It has one transmitter, which never waits, and receivers, which learn when they missed
//! something.
//!
//! - `board`: a broadcast buffer, its transmitter and its receivers. `open` makes and closes it.
//! - `transmitter`: the calls and steps of the transmitter. `receiver`: the calls of receivers. `next_record` finds and
//!   copies the next record (`found`), for the calls of `copying` and `raw` receivers. `seat` makes receivers and takes
//!   them back.
//! - `shared`: the words that threads share. `view` has what each seat knows, `rule` has the rule between any two
//!   steps, and `plays` has what each kind of step says. `steps` has a function for each step that is not the
//!   transmitter's.
//! - `fault`: the reasons why calls refuse. `laws`: laws of what stays true while others go on.
#![tactic(auto)]

mod board;
mod fault;
mod laws;
mod open;
mod receiver;
mod shared;
mod transmitter;

pub use board::{
    BeginRefused, Begun, Board, BoardCloseRefused, ClosedBoard, Copied, CopyReceiver, Filled,
    RawRecord, Receiver, Transmitter,
};
pub use fault::{Lapped, ReceiversOut, SubscribeFault, TransmitFault};
pub use laws::{loaded_stays_loaded, runs_stay_runs};
pub use ring_layout::{MakeFault, NoShares};
