//! Rings, broadcast buffers, counters, shared counters and conductors by *handle*: one pointer that owns an endpoint
//! together with what it belongs to, so that a program in another language can keep it.
//!
//! - `handle`, `held`, `loose`: what such a program keeps, and what it can be. `identity`: what distinguishes two
//!   rings. `code`: what calls return. `opening`: what is made for handles.
//! - `producer`, `claims`, `writing_batch`, `consumer`, `batch`, `closing`, `ring`: handles of a ring. `copying` copies
//!   bytes into a buffer.
//! - `boards`, `raw`, `board_ending`: handles of a broadcast buffer. `counters`, `counting`, `reading`: of counters and
//!   their readers. `asking`: what is asked of counters. `adders`, `adding`: of shared counters.
//! - `conductor`, `client`, `finishing`: a conductor, its clients, and what it lends.
//! - `recovering`: the messages of a ring whose process died. They need no handle.
//!
//! One thread at a time calls with a handle, which may move between threads.
#![tactic(auto)]

mod adders;
mod adding;
pub mod asking;
mod batch;
mod board_ending;
mod boards;
mod claims;
mod client;
mod closing;
pub mod code;
mod conductor;
mod consumer;
mod copying;
mod counters;
mod counting;
mod finishing;
mod handle;
mod held;
mod identity;
mod loose;
mod opening;
mod producer;
mod raw;
mod reading;
mod recovering;
mod ring;
mod writing_batch;

pub use adders::AdderSide;
pub use boards::{ReceiverSide, TransmitterSide};
pub use client::ClientSide;
pub use conductor::ConductorSide;
pub use consumer::ConsumerSide;
pub use counters::{CountersSide, ReaderSide};
pub use counting::Wanted;
pub use finishing::Ended;
pub use handle::{Handle, handle_crosses};
pub use held::Held;
pub use identity::Identity;
pub use opening::{
    Pair, open_adder, open_board, open_conductor, open_counters, open_many_to_one, open_one_to_one,
    room,
};
pub use producer::ProducerSide;
pub use raw::RawReceiverSide;
pub use recovering::recover_into;
pub use ring_ends::Sizes;
