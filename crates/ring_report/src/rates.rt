//! The rates of a ring, a broadcast buffer or counters, from two reports.
use crate::report::{Cell, Report, number};
use std::alloc::{AllocError, Global};
use std::fmt::Write;

/// Returns the change of a number in a second, from its change in some milliseconds. A number that fell counts as 0.
fn per_second(before: Option<u64>, after: Option<u64>, millis: u64) -> u64 {
    let (before, after) = (before.unwrap_or(0), after.unwrap_or(0));
    after.saturating_sub(before).saturating_mul(1000) / millis.max(1)
}

/// Returns the id and the value of a counter.
fn value_of(row: &[Cell]) -> Option<(u64, i64)> {
    match row {
        [Cell::Unsigned(id), _, _, Cell::Signed(value), ..] => Some((*id, *value)),
        _ => None,
    }
}

/// Returns the value that a counter had.
fn value_in(report: &Report, wanted: u64) -> Option<i64> {
    for row in report.rows.iter() {
        if let Some((id, value)) = value_of(row.as_slice()) {
            if id == wanted {
                return Some(value);
            }
        }
    }
    None
}

/// Adds the change of each counter that is listed in both reports and has changed.
fn push_changes(
    text: &mut String,
    before: &Report,
    after: &Report,
    millis: u64,
) -> Result<(), AllocError> {
    for row in after.rows.iter() {
        let Some((id, value)) = value_of(row.as_slice()) else {
            continue;
        };
        let Some(earlier) = value_in(before, id) else {
            continue;
        };
        let change = value.saturating_sub(earlier).saturating_mul(1000);
        if change != 0 {
            let millis = i64::try_from(millis.max(1)).unwrap_or(i64::MAX);
            write!(text, "  id {id} {}", change / millis)?;
        }
    }
    Ok(())
}

/// Adds the rate at which a number of the report grew.
fn push_rate(
    text: &mut String,
    what: &str,
    before: Option<u64>,
    after: Option<u64>,
    millis: u64,
) -> Result<(), AllocError> {
    let rate = per_second(before, after, millis);
    write!(text, "  {what} {rate}")
}

/// Returns how many messages a report counts. For a ring these are the committed and the open records. For a broadcast
/// buffer they are the valid and the lapped ones.
fn messages(report: &Report) -> u64 {
    let counts = report.counts.as_slice();
    let whole = number(counts, "committed").or(number(counts, "valid"));
    let other = number(counts, "open").or(number(counts, "lapped"));
    whole.unwrap_or(0).saturating_add(other.unwrap_or(0))
}

/// Adds about how many messages these bytes a second are. Memory counts no messages, so the messages that are in the
/// buffer give the usual length.
fn push_messages(text: &mut String, report: &Report, bytes: u64) -> Result<(), AllocError> {
    if report.message_bytes == 0 {
        return Ok(());
    }
    let rate = bytes.saturating_mul(messages(report)) / report.message_bytes;
    write!(text, "  messages about {rate}")
}

/// The rates of a ring, with the numbers that grow.
static RING_RATES: [(&str, &str); 3] = [
    ("bytes written", "tail"),
    ("bytes read", "head"),
    ("correlation ids", "correlation"),
];

/// Adds the rates at which a ring was written and read.
fn push_ring(
    text: &mut String,
    before: &Report,
    after: &Report,
    millis: u64,
) -> Result<(), AllocError> {
    for (what, name) in RING_RATES {
        push_rate(text, what, before.number(name), after.number(name), millis)?;
    }
    let bytes = per_second(before.number("tail"), after.number("tail"), millis);
    push_messages(text, after, bytes)
}

/// Adds the rate at which a broadcast buffer was transmitted on.
fn push_board(
    text: &mut String,
    before: &Report,
    after: &Report,
    millis: u64,
) -> Result<(), AllocError> {
    let (then, now) = (before.number("tail"), after.number("tail"));
    push_rate(text, "bytes transmitted", then, now, millis)?;
    push_messages(text, after, per_second(then, now, millis))
}

impl Report {
    /// Returns one line with the rates since an earlier report of the same memory, which was made some milliseconds
    /// before. For a ring these are the bytes that were written and read in a second, and the correlation ids that were
    /// drawn. For a broadcast buffer they are the bytes that were transmitted, and for counters the change of each
    /// counter. For a ring and a broadcast buffer the line also says about how many messages these were. Memory counts
    /// no messages, so the messages in the buffer are taken as a sample.
    pub fn rates_since(
        &self,
        alloc: Global,
        before: &Report,
        millis: u64,
    ) -> Result<String, AllocError> {
        let mut text = String::from_str(alloc, "per second")?;
        self.push_rates(&mut text, before, millis)?;
        text.push('\n')?;
        Ok(text)
    }

    fn push_rates(
        &self,
        text: &mut String,
        before: &Report,
        millis: u64,
    ) -> Result<(), AllocError> {
        match self.kind {
            "ring" => push_ring(text, before, self, millis),
            "board" => push_board(text, before, self, millis),
            _ => push_changes(text, before, self, millis),
        }
    }
}
