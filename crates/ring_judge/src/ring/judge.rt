//! The judge of a ring.

ghost use Rattle.std.specs.Prelude.{◌≤◌, ◌^◌, IfOk, IsTrue};
ghost use Rattle.std.specs.Int.{is_power_of_two};
ghost use Rattle.ring_layout.specs.Places.{max_position};
ghost use Rattle.ring_judge.specs.{Ring.JudgesRing, Judged.IsJudged};

use crate::ring::RingLine;
use crate::ring::judged::Judged;
use crate::verdict::Verdict;
use std::alloc::{AllocError, Global};

/// Whether a ring of this capacity, in bytes, whose positions begin at `start`, can record these lines, one after
/// another.
///
/// # Errors
/// Out of memory.
pub fn judge_ring(
    alloc: Global,
    capacity: u32,
    start: u64,
    run: &[RingLine],
) -> Result<Verdict, AllocError>
    requires power { IsTrue (is_power_of_two capacity) }
    requires most { capacity ≤ 2 ^ 30 }
    requires start { start ≤ max_position }
    ensures { IfOk result (λ verdict. JudgesRing capacity start run.now verdict) }
{
    let mut ring = Judged::new(alloc, capacity, start);
    for (at, line) in run.iter().enumerate() {
        if !ring.answer(line)? {
            return Ok(Verdict::No(at));
        }
    }
    Ok(Verdict::Yes)
}

/// The ring after the lines before this index, of which each can be recorded.
///
/// # Errors
/// Out of memory.
pub fn ring_before(
    alloc: Global,
    capacity: u32,
    start: u64,
    run: &[RingLine],
    end: usize,
) -> Result<Judged, AllocError>
    requires power { IsTrue (is_power_of_two capacity) }
    requires most { capacity ≤ 2 ^ 30 }
    requires start { start ≤ max_position }
    ensures { IfOk result IsJudged }
{
    let mut ring = Judged::new(alloc, capacity, start);
    for (at, line) in run.iter().enumerate() {
        if at == end {
            break;
        }
        if !ring.answer(line)? {
            return Ok(Judged::new(alloc, capacity, start));
        }
    }
    Ok(ring)
}
