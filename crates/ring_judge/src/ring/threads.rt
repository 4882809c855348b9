//! The lines of each thread.

ghost use Rattle.std.specs.Prelude.{◌≡◌, ◌+◌, ◌<◌, ◌≤◌, ℕ, [], ◌∷◌, ◌++◌, All, IfOk, OnOk, slice_index_or, slice_set, vec_len};
ghost use Rattle.ring_judge.specs.{Lists.lists_of, Threads.lines_of, Threads.numbered, Threads.thread_of};

use crate::ring::order::NumberedLine;
use crate::ring::{RingClaim, RingLine};
use std::alloc::{AllocError, Global};

/// Returns the number of the thread that noted a line. The consumer has the number 0.
pub fn thread_of(line: &RingLine) -> usize
    ensures number { result ≡ thread_of line.now }
    ensures few { result ≤ 65536 }
{
    match line {
        RingLine::Claimed(RingClaim { producer, .. }) => *producer as usize + 1,
        RingLine::Full(producer, _) => *producer as usize + 1,
        RingLine::Got(_)
        | RingLine::Head(_)
        | RingLine::Positions(_, _)
        | RingLine::Word(_, _)
        | RingLine::Rest
        | RingLine::Empty
        | RingLine::Blank => 0,
    }
}

/// Returns a number that is above that of each thread, and thus at least 1.
pub fn threads_of(run: &[RingLine]) -> usize
    ensures above { All (λ line. thread_of line < result) run.now }
    ensures some { 1 ≤ result }
{
    let mut count: usize = 1;
    for line in run {
        count = count.max(thread_of(line) + 1);
    }
    count
}

/// Returns the lines of each thread, with their indices in the run.
pub fn thread_lists(
    alloc: Global,
    run: &[RingLine],
    count: usize,
) -> Result<Vec<Vec<NumberedLine>>, AllocError>
    requires { All (λ line. thread_of line < count) run.now }
    ensures len { IfOk result (λ lists. vec_len lists ≡ count) }
    ensures lists { IfOk result (λ lists. (t : ℕ)
        → slice_index_or (lists_of lists.items) t [] ≡ lines_of t (numbered 0 run.now)) }
{
    let mut lists = empty_lists(alloc, count)?;
    for (at, line) in run.iter().enumerate() {
        append(
            &mut lists,
            thread_of(line),
            NumberedLine { at, line: *line },
        )?;
    }
    Ok(lists)
}

/// Returns this many empty lists.
fn empty_lists(alloc: Global, count: usize) -> Result<Vec<Vec<NumberedLine>>, AllocError>
    ensures length { IfOk result (λ lists. vec_len lists ≡ count) }
    ensures lists { IfOk result (λ lists. (t : ℕ) → slice_index_or (lists_of lists.items) t [] ≡ []) }
{
    let mut lists = Vec::new(alloc);
    for made in 0..count {
        lists.push(Vec::new(alloc))?;
    }
    Ok(lists)
}

/// Appends a line to one of the lists.
fn append(
    lists: &mut Vec<Vec<NumberedLine>>,
    at: usize,
    line: NumberedLine,
) -> Result<(), AllocError>
    requires { at < vec_len lists.old }
    ensures length { OnOk result (vec_len lists.new ≡ vec_len lists.old) }
    ensures lists { OnOk result (lists_of lists.new.items
        ≡ slice_set (lists_of lists.old.items) at (slice_index_or (lists_of lists.old.items) at [] ++ line ∷ [])) }
{
    lists[at].push(line)?;
    Ok(())
}
