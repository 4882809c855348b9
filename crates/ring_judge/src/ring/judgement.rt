//! The judge of a ring whose threads noted their calls.

ghost use Rattle.std.specs.Prelude.{◌≡◌, ◌≤◌, ◌^◌, IfOk, IsTrue};
ghost use Rattle.std.specs.Int.{is_power_of_two};
ghost use Rattle.ring_layout.specs.Places.{max_position};
ghost use Rattle.ring_judge.specs.Histories.{JudgesThreads, calls};

use crate::ring::RingLine;
use crate::ring::judge::judge_ring;
use crate::ring::order::{NumberedLine, arranged};
use crate::verdict::Verdict;
use std::alloc::{AllocError, Global};

/// The verdict on the run of a ring.
#[derive(Drop)]
pub struct Judgement {
    /// The lines of the run in the order of `arranged`.
    pub lines: Vec<NumberedLine>,
    /// The verdict. A `No` has an index of `lines`.
    pub verdict: Verdict,
}

/// Whether the threads can have made the calls of a run one after another, in some order, on a ring of this capacity,
/// in bytes, whose positions begin at `start`. In the run the lines of different threads may be in any order. A `No`
/// names the first line in the order of `arranged` such that no order explains this line and the lines before it.
///
/// # Errors
/// Out of memory.
pub fn judge_threads(
    alloc: Global,
    capacity: u32,
    start: u64,
    run: &[RingLine],
) -> Result<Judgement, AllocError>
    requires power { IsTrue (is_power_of_two capacity) }
    requires most { capacity ≤ 2 ^ 30 }
    requires start { start ≤ max_position }
    ensures { IfOk result (JudgesThreads capacity start run.now) }
{
    let lines = arranged(alloc, run)?;
    let calls = calls_of(alloc, lines.as_slice())?;
    let verdict = judge_ring(alloc, capacity, start, calls.as_slice())?;
    Ok(Judgement { lines, verdict })
}

/// Returns the lines without their indices.
fn calls_of(alloc: Global, lines: &[NumberedLine]) -> Result<Vec<RingLine>, AllocError>
    ensures { IfOk result (λ it. it.items ≡ calls lines.now) }
{
    lines.iter().map(|it| it.line).collect(alloc)
}
