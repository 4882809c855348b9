//! The lines of a run in the order in which they are judged.

ghost use Rattle.std.specs.Prelude.{IfOk};
ghost use Rattle.ring_judge.specs.{Threads.KeepsThreads, Histories.EndsLate, Histories.IsBest};

use crate::ring::RingLine;
use crate::ring::merged::merged;
use crate::ring::threads::{thread_lists, threads_of};
use std::alloc::{AllocError, Global};

/// A line with its index in the run.
#[derive(Clone, Copy, Debug, PartialEq, Eq)]
pub struct NumberedLine {
    pub at: usize,
    pub line: RingLine,
}

/// The lines of a run in the order in which `judge_threads` judges them. In the run the lines of different threads may
/// be in any order. In the result the claim with the least place among the next claims of all producers comes first,
/// and the refusals of its producer come directly before this claim. The refusals after the last claims come after all
/// claims, and the lines of the consumer come last. The lines of each thread keep their order.
///
/// # Errors
/// Out of memory.
pub fn arranged(alloc: Global, run: &[RingLine]) -> Result<Vec<NumberedLine>, AllocError>
    ensures threads { IfOk result (λ lines. KeepsThreads run.now lines.items) }
    ensures ends { IfOk result (λ lines. EndsLate lines.items) }
    ensures best { IfOk result (λ lines. IsBest lines.items) }
{
    let count = threads_of(run);
    let lists = thread_lists(alloc, run, count)?;
    merged(alloc, lists.as_slice())
}
