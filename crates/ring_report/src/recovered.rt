//! The report of what is recovered from the memory that a ring left.
use crate::bodies;
use crate::report::{Cell, Column, Field, Report};
use crate::view::{Bodies, View};
use ring_layout::record_descriptor::HEADER_LENGTH;
use ring_recovery::{Recovered, RecoveredMessage, recover};
use std::alloc::{AllocError, Global};
use std::fmt::Write;

/// The columns of the list of messages. The last column is for bodies.
static COLUMNS: [Column; 4] = [
    Column {
        name: "place",
        is_number: true,
    },
    Column {
        name: "type",
        is_number: true,
    },
    Column {
        name: "length",
        is_number: true,
    },
    Column {
        name: "body",
        is_number: false,
    },
];

/// Returns the cells of a message, one cell for each column.
fn row_of(
    alloc: Global,
    bodies: Bodies,
    message: RecoveredMessage<'_>,
) -> Result<Vec<Cell>, AllocError> {
    let length = (message.body.len() as u64).saturating_add(HEADER_LENGTH as u64);
    let mut row = vec![in alloc;
        Cell::Unsigned(message.place),
        Cell::Signed(i64::from(message.type_id)),
        Cell::Unsigned(length),
    ]?;
    if bodies != Bodies::None {
        let bytes: Vec<u8> = message.body.collect(alloc)?;
        row.push(bodies::cell(alloc, bodies, bytes.as_slice())?)?;
    }
    Ok(row)
}

impl Report {
    /// Returns the report of what is recovered from the words and the slots that a ring left. It lists the messages
    /// that `recover` returns, in order. The findings are those of `recover`, after which nothing is listed.
    pub fn of_recovered(
        alloc: Global,
        words: &[u64],
        slots: &[u64],
        view: View,
    ) -> Result<Report, AllocError> {
        let mut report = Report::empty(alloc, "recovered", "messages");
        match recover(words, slots) {
            Ok(recovered) => report.add_recovered(alloc, recovered, view)?,
            Err(finding) => report.refuse(alloc, "nothing is recovered", finding)?,
        }
        Ok(report)
    }

    /// Adds what was recovered.
    fn add_recovered(
        &mut self,
        alloc: Global,
        recovered: Recovered<'_>,
        view: View,
    ) -> Result<(), AllocError> {
        let (capacity, tail) = (u64::from(recovered.capacity()), recovered.tail());
        let open = recovered.open_claims();
        let messages = self.add_messages(alloc, recovered, view)?;
        self.columns = if view.bodies == Bodies::None {
            &COLUMNS[..3]
        } else {
            &COLUMNS
        };
        self.fields.extend_from_slice(&[
            Field::new("capacity", capacity),
            Field::new("tail", tail),
        ])?;
        self.counts.extend_from_slice(&[
            Field::new("messages", messages),
            Field::new("open", open),
        ])?;
        write!(self.summary, "{messages} recovered, {open} open")
    }

    /// Adds a row for each message, up to the limit of the view. Returns the number of messages.
    fn add_messages(
        &mut self,
        alloc: Global,
        recovered: Recovered<'_>,
        view: View,
    ) -> Result<u64, AllocError> {
        let limit = view.limit.unwrap_or(u64::MAX);
        let mut messages = 0u64;
        for message in recovered {
            messages = messages.saturating_add(1);
            if self.rows.len() as u64 >= limit {
                self.unlisted = self.unlisted.saturating_add(1);
            } else {
                self.rows.push(row_of(alloc, view.bodies, message)?)?;
            }
        }
        Ok(messages)
    }
}
