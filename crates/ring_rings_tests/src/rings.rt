//! Tests of the rings that threads share.

mod across;
mod batches;
mod claims;
mod closing;
mod dice;
mod faults;
mod forms;
mod four;
mod joining;
mod losing;
mod random;
mod reading;
mod services;
mod threads;
mod waiting;
mod writing;
