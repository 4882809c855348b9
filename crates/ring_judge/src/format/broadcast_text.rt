//! The text of a recorded run of a broadcast buffer.

use crate::broadcast::{BroadcastLine, MessageCopy, ReceiverEvent};
use crate::format::fault::{BadLine, LineFault};
use crate::format::kind::{Kind, kind_in};
use crate::format::lines::{ParseLine, parse_lines};
use crate::format::words::Words;
use std::alloc::Global;

/// The lines of the text of a broadcast buffer's run. The k-th line of the text is the k-th of the result. The first line
/// that is neither empty nor a comment is `broadcast`.
///
/// # Errors
/// The first line that is not one of a recorded run, or out of memory. The n-th line `transmitted`, counted from 0, has
/// the number n.
pub fn parse_broadcast(alloc: Global, text: &[u8]) -> Result<Vec<BroadcastLine>, BadLine> {
    parse_lines(alloc, text, BroadcastText { sent: None })
}

/// The state between two lines. `sent` is the number of messages that were transmitted, or `None` before the line
/// `broadcast`.
#[derive(Drop)]
struct BroadcastText {
    sent: Option<u64>,
}

impl ParseLine for BroadcastText {
    type Line = BroadcastLine;

    fn parse(&mut self, line: &[u8]) -> Result<BroadcastLine, LineFault> {
        let Some(count) = self.sent else {
            self.sent = first_count(line)?;
            return Ok(BroadcastLine::Blank);
        };
        let parsed = line_of(line, count)?;
        if let BroadcastLine::Transmitted(_) = parsed {
            self.sent = Some(count.saturating_add(1));
        }
        Ok(parsed)
    }

    fn has_kind(&self) -> bool {
        self.sent.is_some()
    }
}

/// 0 after the line `broadcast`, or `None` after one that is empty or a comment.
fn first_count(line: &[u8]) -> Result<Option<u64>, LineFault> {
    match kind_in(line)? {
        None => Ok(None),
        Some(Kind::Broadcast) => Ok(Some(0)),
        Some(Kind::Queue | Kind::Ring(_)) => Err(LineFault::NoKind),
    }
}

/// What a line says, after this many messages were transmitted.
fn line_of(line: &[u8], count: u64) -> Result<BroadcastLine, LineFault> {
    let mut words = Words::of(line);
    match words.next_word() {
        None | Some([b'#', ..]) => Ok(BroadcastLine::Blank),
        Some(b"transmitted") => transmitted_of(words, count),
        Some(b"received") => {
            let receiver = words.client()?;
            let copy = copy_of(words)?;
            Ok(BroadcastLine::Receiver(receiver, ReceiverEvent::Copied(copy)))
        }
        Some(b"lapped") => lapped_of(words),
        Some(b"empty") => {
            let receiver = words.client()?;
            words.end()?;
            Ok(BroadcastLine::Receiver(receiver, ReceiverEvent::Empty))
        }
        Some(_) => Err(LineFault::UnknownWord),
    }
}

/// The message that was transmitted after this many others.
fn transmitted_of(words: Words<'_>, count: u64) -> Result<BroadcastLine, LineFault> {
    let MessageCopy { number, body } = copy_of(words)?;
    if number == count {
        Ok(BroadcastLine::Transmitted(body))
    } else {
        Err(LineFault::NotNext)
    }
}

/// How often a receiver was lapped.
fn lapped_of(words: Words<'_>) -> Result<BroadcastLine, LineFault> {
    let mut words = words;
    let receiver = words.client()?;
    let count = words.number()?;
    words.end()?;
    Ok(BroadcastLine::Receiver(receiver, ReceiverEvent::Lapped(count)))
}

/// The message that the other words of a line name.
fn copy_of(words: Words<'_>) -> Result<MessageCopy, LineFault> {
    let mut words = words;
    let copy = MessageCopy {
        number: words.number()?,
        body: words.number_or_zero()?,
    };
    words.end()?;
    Ok(copy)
}
