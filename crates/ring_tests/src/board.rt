//! Tests of the broadcast buffer.

mod bench;
mod faults;
mod positions;
mod raw;
mod receiving;
mod threads;
mod transmitting;
