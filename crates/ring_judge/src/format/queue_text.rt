//! The text of a recorded run of a queue.

use crate::format::fault::{BadLine, LineFault};
use crate::format::kind::{Kind, kind_in};
use crate::format::lines::{ParseLine, parse_lines};
use crate::format::words::Words;
use crate::message::Message;
use crate::queue::QueueLine;
use std::alloc::Global;

/// The lines of a text: the k-th line of the text is the k-th of the result. The first line that is neither empty nor a
/// comment is `queue`.
///
/// # Errors
/// The first line that is not one of a recorded run, or out of memory.
pub fn parse_queue(alloc: Global, text: &[u8]) -> Result<Vec<QueueLine>, BadLine> {
    parse_lines(alloc, text, QueueText { has_kind: false })
}

/// The state between two lines: whether the line `queue` was read.
#[derive(Drop)]
struct QueueText {
    has_kind: bool,
}

impl ParseLine for QueueText {
    type Line = QueueLine;

    fn parse(&mut self, line: &[u8]) -> Result<QueueLine, LineFault> {
        if self.has_kind {
            return line_of(line);
        }
        self.has_kind = is_kind(line)?;
        Ok(QueueLine::Blank)
    }

    fn has_kind(&self) -> bool {
        self.has_kind
    }
}

/// Tests whether a line says that a queue was recorded: otherwise it is empty, or a comment.
fn is_kind(line: &[u8]) -> Result<bool, LineFault> {
    match kind_in(line)? {
        None => Ok(false),
        Some(Kind::Queue) => Ok(true),
        Some(Kind::Broadcast | Kind::Ring(_)) => Err(LineFault::NoKind),
    }
}

/// What a line says.
fn line_of(line: &[u8]) -> Result<QueueLine, LineFault> {
    let mut words = Words::of(line);
    match words.next_word() {
        None | Some([b'#', ..]) => Ok(QueueLine::Blank),
        Some(b"sent") => Ok(QueueLine::Sent(message_of(words)?)),
        Some(b"refused") => Ok(QueueLine::Refused(message_of(words)?)),
        Some(b"got") => Ok(QueueLine::Got(message_of(words)?)),
        Some(b"empty") => words.end().map(|_| QueueLine::Empty),
        Some(_) => Err(LineFault::UnknownWord),
    }
}

/// The message that the other words of a line name.
fn message_of(words: Words<'_>) -> Result<Message, LineFault> {
    let mut words = words;
    let message = Message {
        producer: words.client()?,
        number: words.number()?,
        body: words.number_or_zero()?,
    };
    words.end()?;
    Ok(message)
}
