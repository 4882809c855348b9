//! Tests of the counters.

mod counters;
mod desk;
mod faults;
mod listing;
mod threads;
mod updating;
