//! A verdict with the counts of the run, as a table and as JSON.
use crate::{why_broadcast, why_queue};
use ring_judge::{BroadcastLine, QueueLine, ReceiverEvent, RingLine, Verdict};
use serde_json::{Map, Value, put};
use std::alloc::{AllocError, Global};
use std::fmt::Write;

/// The number of lines of each kind in a run.
#[derive(Clone, Copy)]
enum Counts {
    Queue {
        sent: u64,
        refused: u64,
        shown: u64,
    },
    Broadcast {
        transmitted: u64,
        received: u64,
        lapped: u64,
    },
    Ring {
        claimed: u64,
        full: u64,
        shown: u64,
    },
}

/// A line that no history explains.
#[derive(Drop)]
struct Unexplained {
    /// The number of the line, counted from 1.
    line: u64,
    text: String,
    reason: String,
}

/// A verdict with the counts of the run.
#[derive(Drop)]
pub struct Report {
    counts: Counts,
    unexplained: Option<Unexplained>,
}

/// How many messages of a queue were sent, refused and shown.
fn queue_counts(lines: &[QueueLine]) -> Counts {
    let mut sent: u64 = 0;
    let mut refused: u64 = 0;
    let mut shown: u64 = 0;
    for line in lines {
        match line {
            QueueLine::Sent(_) => sent = sent.saturating_add(1),
            QueueLine::Refused(_) => refused = refused.saturating_add(1),
            QueueLine::Got(_) => shown = shown.saturating_add(1),
            QueueLine::Empty | QueueLine::Blank => {}
        }
    }
    Counts::Queue {
        sent,
        refused,
        shown,
    }
}

/// How many messages were transmitted, how many copies receivers were given, and how often they noted a lap.
fn broadcast_counts(lines: &[BroadcastLine]) -> Counts {
    let mut transmitted: u64 = 0;
    let mut received: u64 = 0;
    let mut lapped: u64 = 0;
    for line in lines {
        match line {
            BroadcastLine::Transmitted(_) => transmitted = transmitted.saturating_add(1),
            BroadcastLine::Receiver(_, ReceiverEvent::Copied(_)) => received =
                received.saturating_add(1),
            BroadcastLine::Receiver(_, ReceiverEvent::Lapped(_)) => lapped = lapped.saturating_add(
                1,
            ),
            BroadcastLine::Receiver(_, ReceiverEvent::Empty) | BroadcastLine::Blank => {}
        }
    }
    Counts::Broadcast {
        transmitted,
        received,
        lapped,
    }
}

/// How many claims there were, how many calls were refused, and how many messages were shown.
fn ring_counts(lines: &[RingLine]) -> Counts {
    let mut claimed: u64 = 0;
    let mut full: u64 = 0;
    let mut shown: u64 = 0;
    for line in lines {
        match line {
            RingLine::Claimed(_) => claimed = claimed.saturating_add(1),
            RingLine::Full(_, _) => full = full.saturating_add(1),
            RingLine::Got(_) => shown = shown.saturating_add(1),
            _ => {}
        }
    }
    Counts::Ring {
        claimed,
        full,
        shown,
    }
}

/// Returns the text of the line at this index.
fn text_of(alloc: Global, text: &[u8], at: usize) -> Result<String, AllocError> {
    for (index, line) in text.split(|letter| *letter == b'\n').enumerate() {
        if index == at {
            return String::from_utf8_lossy(alloc, line);
        }
    }
    Ok(String::new(alloc))
}

impl Unexplained {
    /// The line at this index of a text.
    fn at(alloc: Global, text: &[u8], at: usize, reason: String) -> Result<Self, AllocError> {
        Ok(Unexplained {
            line: (at as u64).saturating_add(1),
            text: text_of(alloc, text, at)?,
            reason,
        })
    }
}

impl Report {
    /// Returns the report of a run of a queue, from its text, its lines and the verdict.
    pub fn of_queue(
        alloc: Global,
        text: &[u8],
        lines: &[QueueLine],
        verdict: Verdict,
    ) -> Result<Self, AllocError> {
        let unexplained = match verdict {
            Verdict::Yes => None,
            Verdict::No(at) => {
                let reason = why_queue::reason(alloc, lines, at)?;
                Some(Unexplained::at(alloc, text, at, reason)?)
            }
        };
        Ok(Report {
            counts: queue_counts(lines),
            unexplained,
        })
    }

    /// Returns the report of a run of a broadcast buffer, from its text, its lines and the verdict.
    pub fn of_broadcast(
        alloc: Global,
        text: &[u8],
        lines: &[BroadcastLine],
        verdict: Verdict,
    ) -> Result<Self, AllocError> {
        let unexplained = match verdict {
            Verdict::Yes => None,
            Verdict::No(at) => {
                let reason = why_broadcast::reason(alloc, lines, at)?;
                Some(Unexplained::at(alloc, text, at, reason)?)
            }
        };
        Ok(Report {
            counts: broadcast_counts(lines),
            unexplained,
        })
    }

    /// Returns the report of a run of a ring, from its text, its lines, and the index of the line that cannot be, with
    /// the reason.
    pub fn of_ring(
        alloc: Global,
        text: &[u8],
        lines: &[RingLine],
        unexplained: Option<(usize, String)>,
    ) -> Result<Self, AllocError> {
        let unexplained = match unexplained {
            None => None,
            Some((at, reason)) => Some(Unexplained::at(alloc, text, at, reason)?),
        };
        Ok(Report {
            counts: ring_counts(lines),
            unexplained,
        })
    }

    /// Tests whether the verdict is yes.
    pub fn is_yes(&self) -> bool {
        self.unexplained.is_none()
    }

    /// Returns a table with the verdict, and with the number of lines of each kind.
    pub fn to_table(&self, alloc: Global) -> Result<String, AllocError> {
        let mut text = String::new(alloc);
        match &self.unexplained {
            None => text.push_str("yes: some history explains the run\n")?,
            Some(
                Unexplained {
                    line,
                    text: its_text,
                    reason,
                },
            ) => write!(
                text,
                "no: no history explains line {line}: {its_text}\n{reason}\n"
            )?,
        }
        match self.counts {
            Counts::Queue {
                sent,
                refused,
                shown,
            } => write!(
                text,
                "queue  sent {sent}  refused {refused}  shown {shown}\n"
            )?,
            Counts::Broadcast {
                transmitted,
                received,
                lapped,
            } => write!(
                text,
                "broadcast  transmitted {transmitted}  received {received}  lapped {lapped}\n"
            )?,
            Counts::Ring {
                claimed,
                full,
                shown,
            } => write!(
                text,
                "ring  claimed {claimed}  full {full}  shown {shown}\n"
            )?,
        }
        Ok(text)
    }

    /// Returns the same report as an object of JSON. `line`, `text` and `reason` are `null` after a yes.
    pub fn to_json(&self, alloc: Global, file: &str) -> Result<String, AllocError> {
        let mut object = Map::new(alloc);
        let verdict = if self.is_yes() { "yes" } else { "no" };
        put(
            &mut object,
            alloc,
            "file",
            Value::try_from_str(alloc, file)?,
        )?;
        put(
            &mut object,
            alloc,
            "verdict",
            Value::try_from_str(alloc, verdict)?,
        )?;
        let (line, text, reason) = match &self.unexplained {
            None => (Value::Null, Value::Null, Value::Null),
            Some(it) => (
                Value::from(it.line),
                Value::try_from_str(alloc, it.text.as_str())?,
                Value::try_from_str(alloc, it.reason.as_str())?,
            ),
        };
        put(&mut object, alloc, "line", line)?;
        put(&mut object, alloc, "text", text)?;
        put(&mut object, alloc, "reason", reason)?;
        match self.counts {
            Counts::Queue {
                sent,
                refused,
                shown,
            } => {
                put(&mut object, alloc, "sent", Value::from(sent))?;
                put(&mut object, alloc, "refused", Value::from(refused))?;
                put(&mut object, alloc, "shown", Value::from(shown))?;
            }
            Counts::Broadcast {
                transmitted,
                received,
                lapped,
            } => {
                put(&mut object, alloc, "transmitted", Value::from(transmitted))?;
                put(&mut object, alloc, "received", Value::from(received))?;
                put(&mut object, alloc, "lapped", Value::from(lapped))?;
            }
            Counts::Ring {
                claimed,
                full,
                shown,
            } => {
                put(&mut object, alloc, "claimed", Value::from(claimed))?;
                put(&mut object, alloc, "full", Value::from(full))?;
                put(&mut object, alloc, "shown", Value::from(shown))?;
            }
        }
        let mut text = Value::from(object).to_string_pretty(alloc)?;
        text.push('\n')?;
        Ok(text)
    }
}
