//! What was recorded.

ghost use Rattle.std.specs.Prelude.{IfOk, IfSome};
ghost use Rattle.ring_judge.specs.Kinds.{IsJudgeable, IsJudgeableShape};

use crate::format::fault::{BadLine, LineFault};
use crate::format::words::Words;
use ring_layout::is_position;

/// What a run is of.
#[derive(Clone, Copy, Debug, PartialEq, Eq)]
pub enum Kind {
    /// A queue, of which only messages were recorded: `parse_queue` reads the text.
    Queue,
    /// A broadcast buffer: `parse_broadcast` reads the text.
    Broadcast,
    /// A ring: `parse_ring` reads the text.
    Ring(RingShape),
}

/// The capacity of a ring and the position at which it began, both in bytes.
#[derive(Clone, Copy, Debug, PartialEq, Eq)]
pub struct RingShape {
    pub capacity: u32,
    pub start: u64,
}

/// The least capacity of a ring.
const MIN_CAPACITY: u32 = 128;

/// The greatest capacity of a ring.
const MAX_CAPACITY: u32 = 1 << 30;

/// What the first line of a text that is neither empty nor a comment says was recorded.
///
/// # Errors
/// That line, or the last line if there is none, with `LineFault::NoKind`, `LineFault::TooManyWords`, or a fault of the
/// capacity or the start of a ring.
pub fn kind_of(text: &[u8]) -> Result<Kind, BadLine>
    ensures { IfOk result IsJudgeable }
{
    let mut number: usize = 0;
    for line in text.split(|letter| *letter == b'\n') {
        number = number.saturating_add(1);
        match kind_in(line) {
            Ok(None) => {}
            Ok(Some(kind)) => return Ok(kind),
            Err(fault) => return Err(BadLine {
                line: number,
                fault,
            }),
        }
    }
    Err(BadLine {
        line: number,
        fault: LineFault::NoKind,
    })
}

/// What a line says was recorded. Returns `None` if the line is empty or a comment.
pub fn kind_in(line: &[u8]) -> Result<Option<Kind>, LineFault>
    ensures { IfOk result (λ kind. IfSome kind IsJudgeable) }
{
    let mut words = Words::of(line);
    match words.next_word() {
        None | Some([b'#', ..]) => Ok(None),
        Some(b"queue") => words.end().map(|_| Some(Kind::Queue)),
        Some(b"broadcast") => words.end().map(|_| Some(Kind::Broadcast)),
        Some(b"ring") => Ok(Some(Kind::Ring(shape_of(words)?))),
        Some(_) => Err(LineFault::NoKind),
    }
}

/// The capacity and the start that the other words of a line name.
fn shape_of(words: Words<'_>) -> Result<RingShape, LineFault>
    ensures { IfOk result IsJudgeableShape }
{
    let mut words = words;
    let capacity = words.number()?;
    let start = words.number_or_zero()?;
    words.end()?;
    let Ok(capacity) = u32::try_from(capacity) else {
        return Err(LineFault::BadCapacity);
    };
    if !capacity.is_power_of_two() || capacity < MIN_CAPACITY || capacity > MAX_CAPACITY {
        return Err(LineFault::BadCapacity);
    }
    if start % 8 != 0 || !is_position(start) {
        return Err(LineFault::BadStart);
    }
    Ok(RingShape { capacity, start })
}
