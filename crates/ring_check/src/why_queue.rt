//! The reasons, in words, why a line of a queue cannot be.
use ring_judge::{Message, QueueLine};
use std::alloc::{AllocError, Global};

/// Returns how many messages of a producer the consumer was shown in these lines.
fn shown_of(lines: &[QueueLine], producer: u16) -> usize {
    let mut count: usize = 0;
    for line in lines {
        if let QueueLine::Got(message) = line
            && message.producer == producer
        {
            count = count.saturating_add(1);
        }
    }
    count
}

/// Returns the message that a producer sent after this many others.
fn sent_after(lines: &[QueueLine], producer: u16, others: usize) -> Option<Message> {
    let mut left = others;
    for line in lines {
        if let QueueLine::Sent(message) = line
            && message.producer == producer
        {
            if left == 0 {
                return Some(*message);
            }
            left -= 1;
        }
    }
    None
}

/// Returns the first message that was accepted and is not among those shown.
fn first_left(lines: &[QueueLine]) -> Option<Message> {
    for line in lines {
        if let QueueLine::Sent(message) = line
            && sent_after(lines, message.producer, shown_of(lines, message.producer))
                == Some(*message)
        {
            return Some(*message);
        }
    }
    None
}

/// Returns the reason why the line at this index cannot be.
pub fn reason(alloc: Global, lines: &[QueueLine], at: usize) -> Result<String, AllocError> {
    let before = lines.get(..at).unwrap_or(lines);
    match lines.get(at) {
        Some(QueueLine::Got(Message { producer, .. })) => {
            match sent_after(lines, *producer, shown_of(before, *producer)) {
                Some(Message { number, body, .. }) => {
                    format!(in alloc;
                        "the next message of producer {producer} is {number}, with the body {body}"
                    )
                }
                None => format!(in alloc; "producer {producer} sent no other message"),
            }
        }
        _ => match first_left(lines) {
            Some(
                Message {
                    producer,
                    number,
                    ..
                },
            ) => {
                format!(in alloc; "message {number} of producer {producer} was sent and not shown")
            }
            None => format!(in alloc; "a message was sent and not shown"),
        },
    }
}
