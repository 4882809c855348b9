//! The content of a report of any kind, in any format.
use crate::blocked::Stop;
use crate::state::State;
use std::alloc::{AllocError, Global};
use std::fmt::Display;

/// A value in a table.
#[derive(Debug, Drop)]
pub enum Cell {
    /// No value, which is an empty place in a table and `null` in JSON.
    Nothing,
    /// A number that is never negative.
    Unsigned(u64),
    /// A number.
    Signed(i64),
    /// The state of a record or a counter.
    State(State),
    /// A text.
    Text(String),
}

/// A number with a name.
#[derive(Clone, Copy, Debug, PartialEq, Eq)]
pub struct Field {
    /// The name of the number.
    pub name: &'static str,
    /// The number. If it is `None`, it is `null` in JSON.
    pub value: Option<u64>,
}

impl Field {
    /// Returns a number with this name.
    pub(crate) fn new(name: &'static str, value: u64) -> Field {
        Field {
            name,
            value: Some(value),
        }
    }
}

/// A column of the list.
#[derive(Clone, Copy, Debug, PartialEq, Eq)]
pub struct Column {
    /// The name of the column, which is the name of its cells in JSON.
    pub name: &'static str,
    /// Whether the column has numbers, which are aligned right.
    pub is_number: bool,
}

/// The content of a copy of memory.
#[derive(Debug, Drop)]
pub struct Report {
    /// The kind of the report, which is `ring`, `board`, `counters` or `recovered`.
    pub kind: &'static str,
    /// The numbers of the whole.
    pub fields: Vec<Field>,
    /// The buffer as one line, which is empty if there is no buffer.
    pub picture: String,
    /// The name of the list, which is `records`, `counters` or `messages`.
    pub list: &'static str,
    /// The list's columns.
    pub columns: &'static [Column],
    /// The list's rows, each with a cell for each column.
    pub rows: Vec<Vec<Cell>>,
    /// How many rows were left out because of the limit.
    pub unlisted: u64,
    /// The number of records or counters of each kind.
    pub counts: Vec<Field>,
    /// The numbers that follow from the records.
    pub details: Vec<Field>,
    /// The number of bytes of the records that are messages, each from its start to the start of the next record.
    pub message_bytes: u64,
    /// The number of each kind, as one line.
    pub summary: String,
    /// The first record at which the consumer of a ring stops.
    pub stop: Option<Stop>,
    /// The least number of milliseconds for which the consumer was blocked there, if two looks showed this.
    pub blocked_ms: Option<u64>,
    /// Whether the positions stayed the same while the memory was read. If they changed, the list can be of different
    /// moments, so it gives no finding.
    pub is_settled: bool,
    /// The findings about the memory, each as one text.
    pub findings: Vec<String>,
}

impl Report {
    /// Returns the number of the report with this name, if there is one.
    pub fn number(&self, name: &str) -> Option<u64> {
        number(self.fields.as_slice(), name)
    }

    /// Returns an empty report of this kind, with a list of this name.
    pub(crate) fn empty(alloc: Global, kind: &'static str, list: &'static str) -> Report {
        Report {
            kind,
            fields: Vec::new(alloc),
            picture: String::new(alloc),
            list,
            columns: &[],
            rows: Vec::new(alloc),
            unlisted: 0,
            counts: Vec::new(alloc),
            details: Vec::new(alloc),
            message_bytes: 0,
            summary: String::new(alloc),
            stop: None,
            blocked_ms: None,
            is_settled: true,
            findings: Vec::new(alloc),
        }
    }

    /// Adds the finding that the memory is not what it is said to be.
    pub(crate) fn refuse<F: Display + Drop>(
        &mut self,
        alloc: Global,
        summary: &str,
        finding: F,
    ) -> Result<(), AllocError> {
        self.find(alloc, finding)?;
        self.summary.push_str(summary)
    }

    /// Adds a finding about the memory.
    pub(crate) fn find<F: Display + Drop>(
        &mut self,
        alloc: Global,
        finding: F,
    ) -> Result<(), AllocError> {
        add_finding(alloc, &mut self.findings, finding)
    }
}

/// Adds the text of a finding.
pub(crate) fn add_finding<F: Display + Drop>(
    alloc: Global,
    findings: &mut Vec<String>,
    finding: F,
) -> Result<(), AllocError> {
    findings.push(format!(in alloc; "{finding}")?)?;
    Ok(())
}

/// Returns the number with this name, if there is one.
pub(crate) fn number(fields: &[Field], name: &str) -> Option<u64> {
    for field in fields {
        if field.name == name {
            return field.value;
        }
    }
    None
}
