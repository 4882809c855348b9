//! Tests of the conductor, its protocol and its storms.

mod bench;
mod boards;
mod clients;
mod codec;
mod commands;
mod faults;
mod finishing;
mod gates;
mod headline;
mod heartbeats;
mod protocol;
mod sending;
mod storms;
mod talk;
mod whole;
