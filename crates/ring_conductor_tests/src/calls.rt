//! Tables of calls, with what each call returns.
use crate::compare::same_at;
use std::fmt::Debug;
use std::process::Abort;

/// Something on which calls are made, as a ring with its seats. `C` is a call, and `S` says what a call returns.
pub trait Plays<C: Copy, S: Copy + PartialEq + Debug> {
    /// Makes a call.
    fn call(&mut self, call: C) -> S;

    /// Makes the calls in order, and tests what each returns.
    fn plays(&mut self, rt: &impl Abort, calls: &[(C, S)]) {
        for (at, (call, said)) in calls.iter().enumerate() {
            same_at(rt, at, self.call(*call), *said);
        }
    }
}
