//! The values that threads share.
//! - `view`: what each seat knows
//! - `rule`: the rule between any two steps
//! - `plays`: what each kind of step says
//! - `seats`: the writer and the readers
//! - `calls`: the calls, with their steps
//! - `changes`: the calls that change a value and return the value before
pub(crate) mod calls;
pub(crate) mod changes;
pub(crate) mod plays;
pub(crate) mod rule;
pub(crate) mod seats;
pub(crate) mod view;
