//! The judge of a queue.

ghost use Rattle.std.specs.Prelude.{◌≡◌, IfOk};
ghost use Rattle.ring_judge.specs.Queue.{Judges};

use crate::queue::QueueLine;
use crate::queue::sent::producers_of;
use crate::queue::waiting::Waiting;
use crate::verdict::Verdict;
use std::alloc::{AllocError, Global};

/// Whether some history of messages explains the run of a queue with any number of producers and one consumer: each
/// producer's accepted messages are its part of the history, in the order of its calls, and the consumer was shown a
/// front of the history, which is all of it if a line says that the consumer found nothing more.
///
/// # Errors
/// Out of memory.
pub fn judge_queue(alloc: Global, run: &[QueueLine]) -> Result<Verdict, AllocError>
    ensures { IfOk result (λ verdict. Judges run.now verdict) }
{
    let count = producers_of(run);
    let mut waiting = Waiting::new(alloc, run, count)?;
    for (at, line) in run.iter().enumerate() {
        if !waiting.answer(line) {
            return Ok(Verdict::No(at));
        }
    }
    Ok(Verdict::Yes)
}
