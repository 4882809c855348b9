//! Tests of `ring_snapshot`: what is listed and found.

mod boards;
mod counters;
mod joined;
mod plain;
mod random;
mod rings;
mod searching;
mod writing;

pub use joined::join;
