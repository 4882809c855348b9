//! The words that threads share.
//! - `view`: what each seat knows
//! - `rule`: the rule between any two steps
//! - `plays`: what each kind of step says
//! - `steps`: a function for each step of receivers and seats
//!
//! The steps of the transmitter are beside its calls.
pub(crate) mod plays;
pub(crate) mod rule;
pub(crate) mod steps;
pub(crate) mod view;
