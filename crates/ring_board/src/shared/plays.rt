//! The types of what each kind of step says. These types are for the proofs alone, and no value of them is made.
pub(crate) mod receiver;
pub(crate) mod seats;
pub(crate) mod transmitter;
