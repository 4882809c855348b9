//! Timing one thread that does the same thing over and over.
use crate::fault::Fault;
use crate::sample::nanos_since;
use std::rt::Clock;
use std::time::Instant;

/// What is done over and over.
pub trait Task {
    /// All that it uses belongs together.
    ghost is_ready: { Self → Type 0 } = { λ _. Unit {0} };

    /// Does it once. Steps are numbered from 0.
    fn step(&mut self, number: u64) -> Result<(), Fault>
        requires { is_ready self.old }
        ensures { is_ready self.new };
}

/// Does a task this many times, and returns the nanoseconds that this took.
pub fn time<R: Clock, T: Task>(rt: &R, task: &mut T, times: u64) -> Result<u64, Fault>
    requires { T.is_ready task.old }
    ensures { T.is_ready task.new }
{
    let start = Instant::now(rt)?;
    for number in 0..times {
        task.step(number)?;
    }
    nanos_since(rt, start)
}
