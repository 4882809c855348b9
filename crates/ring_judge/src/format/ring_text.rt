//! The text of a recorded run of a ring.

use crate::format::fault::{BadLine, LineFault};
use crate::format::kind::{Kind, kind_in};
use crate::format::lines::{ParseLine, parse_lines};
use crate::format::words::Words;
use crate::ring::{Fate, RingClaim, RingCopy, RingLine};
use std::alloc::Global;

/// The lines of the text of a ring's run. The k-th line of the text is the k-th of the result. The first line that is
/// neither empty nor a comment is `ring`, with the capacity.
///
/// # Errors
/// The first line that is not one of a recorded run, or out of memory.
pub fn parse_ring(alloc: Global, text: &[u8]) -> Result<Vec<RingLine>, BadLine> {
    parse_lines(alloc, text, RingText { has_kind: false })
}

/// The state between two lines: whether the line `ring` was read.
#[derive(Drop)]
struct RingText {
    has_kind: bool,
}

impl ParseLine for RingText {
    type Line = RingLine;

    fn parse(&mut self, line: &[u8]) -> Result<RingLine, LineFault> {
        if self.has_kind {
            return line_of(line);
        }
        self.has_kind = is_kind(line)?;
        Ok(RingLine::Blank)
    }

    fn has_kind(&self) -> bool {
        self.has_kind
    }
}

/// Tests whether a line says that a ring was recorded: otherwise it is empty, or a comment.
fn is_kind(line: &[u8]) -> Result<bool, LineFault> {
    match kind_in(line)? {
        None => Ok(false),
        Some(Kind::Ring(_)) => Ok(true),
        Some(Kind::Queue | Kind::Broadcast) => Err(LineFault::NoKind),
    }
}

/// What a line says.
fn line_of(line: &[u8]) -> Result<RingLine, LineFault> {
    let mut words = Words::of(line);
    match words.next_word() {
        None | Some([b'#', ..]) => Ok(RingLine::Blank),
        Some(b"committed") => committed_of(words),
        Some(b"aborted") => claim_of(words, Fate::Aborted),
        Some(b"open") => claim_of(words, Fate::Open),
        Some(b"full") => full_of(words),
        Some(b"got") => got_of(words),
        Some(b"head") => head_of(words),
        Some(b"positions") => positions_of(words),
        Some(b"word") => word_of(words),
        Some(b"rest") => words.end().map(|_| RingLine::Rest),
        Some(b"empty") => words.end().map(|_| RingLine::Empty),
        Some(_) => Err(LineFault::UnknownWord),
    }
}

/// A committed claim.
fn committed_of(words: Words<'_>) -> Result<RingLine, LineFault> {
    let mut words = words;
    let mut claim = start_of_claim(&mut words)?;
    claim.fate = Fate::Committed(words.number_or_zero()?);
    words.end()?;
    Ok(RingLine::Claimed(claim))
}

/// A claim that was not committed.
fn claim_of(words: Words<'_>, fate: Fate) -> Result<RingLine, LineFault> {
    let mut words = words;
    let mut claim = start_of_claim(&mut words)?;
    claim.fate = fate;
    words.end()?;
    Ok(RingLine::Claimed(claim))
}

/// Takes the words that each line of a claim has: the producer, the place, the type id and the length.
fn start_of_claim(words: &mut Words<'_>) -> Result<RingClaim, LineFault> {
    Ok(RingClaim {
        producer: words.client()?,
        place: words.number()?,
        type_id: words.type_id()?,
        length: words.length()?,
        fate: Fate::Open,
    })
}

/// A refusal for lack of room.
fn full_of(words: Words<'_>) -> Result<RingLine, LineFault> {
    let mut words = words;
    let producer = words.client()?;
    let length = words.length()?;
    words.end()?;
    Ok(RingLine::Full(producer, length))
}

/// A message that the consumer was shown.
fn got_of(words: Words<'_>) -> Result<RingLine, LineFault> {
    let mut words = words;
    let copy = RingCopy {
        place: words.number_or_dash()?,
        type_id: words.type_id()?,
        length: words.length()?,
        body: words.number_or_zero()?,
    };
    words.end()?;
    Ok(RingLine::Got(copy))
}

/// The position of the head.
fn head_of(words: Words<'_>) -> Result<RingLine, LineFault> {
    let mut words = words;
    let head = words.number()?;
    words.end()?;
    Ok(RingLine::Head(head))
}

/// The positions of the head and the tail in the end.
fn positions_of(words: Words<'_>) -> Result<RingLine, LineFault> {
    let mut words = words;
    let head = words.number()?;
    let tail = words.number()?;
    words.end()?;
    Ok(RingLine::Positions(head, tail))
}

/// A word of the buffer.
fn word_of(words: Words<'_>) -> Result<RingLine, LineFault> {
    let mut words = words;
    let at = words.number()?;
    let value = words.number()?;
    words.end()?;
    Ok(RingLine::Word(at, value))
}
