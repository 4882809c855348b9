//! The judge of a broadcast buffer.

ghost use Rattle.std.specs.Prelude.{IfOk};
ghost use Rattle.ring_judge.specs.Broadcast.{JudgesBroadcast};

use crate::broadcast::BroadcastLine;
use crate::broadcast::places::{answer_line, places_of, receivers_of};
use crate::broadcast::sent::bodies_of;
use crate::verdict::Verdict;
use std::alloc::{AllocError, Global};

/// Whether the run of a broadcast buffer is explained: each receiver began before some message, and was given each
/// message after it, in order and once. Only if its lapped count rose, it missed messages, at least as many as the
/// count rose by. If a line says that a receiver found nothing more, no message was left for it.
///
/// # Errors
/// Out of memory.
pub fn judge_broadcast(alloc: Global, run: &[BroadcastLine]) -> Result<Verdict, AllocError>
    ensures { IfOk result (λ verdict. JudgesBroadcast run.now verdict) }
{
    let bodies = bodies_of(alloc, run)?;
    let count = receivers_of(run);
    let mut places = places_of(alloc, count)?;
    for (at, line) in run.iter().enumerate() {
        if !answer_line(&mut places, bodies.as_slice(), line) {
            return Ok(Verdict::No(at));
        }
    }
    Ok(Verdict::Yes)
}
