//! Why a line of a broadcast buffer cannot be, in words.
use ring_judge::{BroadcastLine, MessageCopy, ReceiverEvent};
use std::alloc::{AllocError, Global};

/// What the lines before another one say of its receiver.
#[derive(Clone, Copy)]
struct Known {
    receiver: u16,
    /// Its next message, or the first that can be.
    next: u64,
    /// Whether its next message can also be a later one.
    is_open: bool,
    /// How often it was lapped.
    laps: u64,
}

/// What these lines say of a receiver.
fn known_of(lines: &[BroadcastLine], receiver: u16) -> Known {
    let mut known = Known {
        receiver,
        next: 0,
        is_open: true,
        laps: 0,
    };
    for line in lines {
        match line {
            BroadcastLine::Receiver(its, ReceiverEvent::Copied(MessageCopy { number, .. }))
                if *its == receiver => {
                known.next = number.saturating_add(1);
                known.is_open = false;
            }
            BroadcastLine::Receiver(its, ReceiverEvent::Lapped(count)) if *its == receiver => {
                let missed = count.saturating_sub(known.laps);
                known.next = known.next.saturating_add(missed);
                known.is_open = true;
                known.laps = *count;
            }
            _ => {}
        }
    }
    known
}

/// How many messages were transmitted.
fn total_of(lines: &[BroadcastLine]) -> u64 {
    let mut total: u64 = 0;
    for line in lines {
        if let BroadcastLine::Transmitted(_) = line {
            total = total.saturating_add(1);
        }
    }
    total
}

/// The checksum of the message with this number.
fn body_of(lines: &[BroadcastLine], number: u64) -> Option<u64> {
    let mut left = number;
    for line in lines {
        if let BroadcastLine::Transmitted(body) = line {
            if left == 0 {
                return Some(*body);
            }
            left -= 1;
        }
    }
    None
}

/// Why a receiver cannot have been given this copy.
fn copied(
    alloc: Global,
    lines: &[BroadcastLine],
    known: Known,
    copy: &MessageCopy,
) -> Result<String, AllocError> {
    let Known {
        receiver,
        next,
        is_open,
        ..
    } = known;
    let number = copy.number;
    match body_of(lines, number) {
        None => format!(in alloc; "message {number} was not transmitted"),
        Some(_) if is_open && number < next => {
            format!(in alloc; "the next message of receiver {receiver} is {next} or a later one")
        }
        Some(_) if !is_open && number != next => {
            format!(in alloc; "the next message of receiver {receiver} is {next}")
        }
        Some(body) => format!(in alloc; "message {number} was transmitted with the body {body}"),
    }
}

/// Why the lapped count of a receiver cannot be this.
fn lapped(
    alloc: Global,
    lines: &[BroadcastLine],
    known: Known,
    count: u64,
) -> Result<String, AllocError> {
    let Known {
        receiver,
        next,
        laps,
        ..
    } = known;
    if count <= laps {
        format!(in alloc; "the lapped count of receiver {receiver} was {laps} already")
    } else {
        let left = total_of(lines).saturating_sub(next);
        let rise = count.saturating_sub(laps);
        format!(in alloc;
            "the lapped count of receiver {receiver} rose by {rise}, and the messages left to miss were {left}"
        )
    }
}

/// Why the line at this index cannot be.
pub fn reason(alloc: Global, lines: &[BroadcastLine], at: usize) -> Result<String, AllocError> {
    let before = lines.get(..at).unwrap_or(lines);
    match lines.get(at) {
        Some(BroadcastLine::Receiver(receiver, event)) => {
            let known = known_of(before, *receiver);
            match event {
                ReceiverEvent::Copied(copy) => copied(alloc, lines, known, copy),
                ReceiverEvent::Lapped(count) => lapped(alloc, lines, known, *count),
                ReceiverEvent::Empty => {
                    let next = known.next;
                    format!(in alloc;
                        "message {next} was transmitted, and receiver {receiver} did not receive it"
                    )
                }
            }
        }
        _ => format!(in alloc; "nothing explains this line"),
    }
}
