//! Ends, which own what they belong to: a producer or a consumer together with its ring, a transmitter or a receiver
//! together with its broadcast buffer, counters or a reader together with their values, and a conductor or a client
//! together with its ring and its broadcast buffer.
//!
//! - `producer`: the calls of producers. `many_to_one` has the calls of one of many producers, and `batch` those that
//!   write batches.
//! - `consumer`: the calls of the consumer. `copying` copies the next message into a buffer, and `taking` takes it without
//!   a copy. `opening` makes the ends of a ring or of a broadcast buffer, and `last` takes a ring apart.
//! - `claiming`: a producer whose calls name its claims by number. `open_claims` keeps these claims.
//! - `transmitter`, `receiver`, `raw`: the calls of ends of broadcast buffers.
//! - `numbered`: things that are kept by number. `board`: a broadcast buffer with its receivers.
//! - `receiving`, `received`: a numbered receiver that asks for a message, and the result.
//! - `counters`, `reader`: counters, and the readers of their values.
//! - `conductor`: a conductor, which `hiring` gives clients, receivers and readers, and `finishing` takes apart. `client`:
//!   the calls of its clients. `lending`: what a conductor shares with the ends that it gives.
#![tactic(auto)]

mod batch;
mod board;
mod claiming;
mod client;
mod conductor;
mod consumer;
mod copying;
mod counters;
mod finishing;
mod hiring;
mod last;
mod lending;
mod many_to_one;
mod numbered;
mod open_claims;
mod opening;
mod producer;
mod raw;
mod reader;
mod received;
mod receiver;
mod receiving;
mod taking;
mod transmitter;

pub use board::StandaloneBoard;
pub use claiming::{ClaimRefused, Claimed, NumberFault, NumberedEnd};
pub use client::ClientEnd;
pub use conductor::{ConductorEnd, ConductorFault, Sizes};
pub use consumer::ConsumerEnd;
pub use copying::NextMessage;
pub use counters::CountersEnd;
pub use finishing::{NotFinished, StopFault};
pub use last::{CloseRefused, LastEnd};
pub use lending::{Lender, Shared};
pub use many_to_one::SplitFault;
pub use numbered::Numbered;
pub use open_claims::OpenClaims;
pub use opening::{open, open_board};
pub use producer::ProducerEnd;
pub use raw::RawReceiverEnd;
pub use reader::ReaderEnd;
pub use received::Received;
pub use receiver::{Heard, ReceiverEnd};
pub use receiving::receive_at;
pub use transmitter::TransmitterEnd;
