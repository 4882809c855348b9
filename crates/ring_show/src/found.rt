//! A ring, a broadcast buffer or counters that were found in memory, with the lines and the command that show them.
use crate::shell::Quoted;
use crate::tables::METADATA;
use ring_report::{Cell, Report};
use std::alloc::AllocError;
use std::fmt::Write;

/// The kind of what was found.
#[derive(Clone, Copy, PartialEq, Eq)]
pub enum Kind {
    Ring,
    Board,
    Counters,
}

impl Kind {
    /// Returns the name of the kind, which is also the name of the command that shows it.
    pub fn name(self) -> &'static str {
        match self {
            Kind::Ring => "ring",
            Kind::Board => "board",
            Kind::Counters => "counters",
        }
    }

    /// Returns the number of bytes after the buffer.
    pub fn trailer(self) -> u64 {
        match self {
            Kind::Ring => 768,
            Kind::Board => 128,
            Kind::Counters => 0,
        }
    }
}

/// Bytes of a file.
#[derive(Clone, Copy)]
pub struct Part {
    /// The place at which the bytes begin.
    pub at: u64,
    /// The number of bytes.
    pub length: u64,
}

/// A ring, a broadcast buffer or counters that were found.
#[derive(Clone, Copy)]
pub struct Found {
    pub kind: Kind,
    /// The address in the program.
    pub address: u64,
    /// The place in the file.
    pub at: u64,
    /// The number of bytes of the buffer, which is the largest one that fits, or of the metadata of the counters.
    pub capacity: u64,
    /// The sum of the other capacities that fit. They are powers of two.
    pub others: u32,
    /// The place in the file of the bodies of a ring, if they are stored separately.
    pub bodies_at: Option<u64>,
    /// The place in the file of the values of counters.
    pub values: Option<Part>,
    /// Whether the program itself keeps the addresses.
    pub is_known: bool,
}

impl Found {
    /// Returns the address after the buffer.
    pub fn end(self) -> u64 {
        self.address.saturating_add(self.capacity)
    }

    /// Returns the number of bytes, the trailer included.
    pub fn length(self) -> u64 {
        self.capacity.saturating_add(self.kind.trailer())
    }

    /// Tests whether a counter belongs to these counters. The counter's record must come a whole number of records
    /// after these counters, and at most eight.
    pub fn goes_on_at(self, address: u64) -> bool {
        match address.checked_sub(self.end()) {
            Some(gap) => gap % METADATA == 0 && gap <= 8 * METADATA,
            None => false,
        }
    }

    /// Returns a text that says how certain the kind of this object is. The text follows from the report.
    pub fn sureness(self, report: &Report) -> &'static str {
        if self.is_known {
            return "sure";
        }
        if self.others != 0 {
            return "several fit, so less sure";
        }
        match (self.kind, report.unlisted) {
            (Kind::Counters, _) if report.rows.iter().any(|row| has_label(row.as_slice())) =>
                "sure",
            (Kind::Counters, _) => "no label, so less sure",
            (_, 0) => "empty, so less sure",
            (Kind::Board, 1) => "one record, so less sure",
            _ => "sure",
        }
    }

    /// Adds the command that shows this object.
    pub fn push_command(self, text: &mut String, file: &str) -> Result<(), AllocError> {
        let (kind, at, length) = (self.kind.name(), self.at, self.length());
        write!(text, "ring-show {kind} {}", Quoted(file))?;
        if self.values.is_some() {
            write!(text, " {}", Quoted(file))?;
        }
        write!(text, " --at 0x{at:x} --length {length}")?;
        self.push_others(text)
    }

    /// Adds the place of the bodies or of the values.
    fn push_others(self, text: &mut String) -> Result<(), AllocError> {
        if let Some(bodies_at) = self.bodies_at {
            write!(text, " --bodies-at 0x{bodies_at:x}")?;
        }
        if let Some(Part { at, length }) = self.values {
            write!(text, " --values-at 0x{at:x} --values-length {length}")?;
        }
        Ok(())
    }

    /// Adds the address, the capacity and the other capacities that fit, and how sure this is.
    pub fn push_title(self, text: &mut String, report: &Report) -> Result<(), AllocError> {
        let (kind, address, capacity) = (self.kind.name(), self.address, self.capacity);
        write!(text, "{kind} at 0x{address:x}  capacity {capacity}")?;
        for exponent in 7..25u32 {
            if self.others & (1 << exponent) != 0 {
                write!(text, " or {}", 1u32 << exponent)?;
            }
        }
        writeln!(text, "  ({})", self.sureness(report))
    }

    /// Adds the lines of this object, which have its address and its capacity, its summary, and the command that shows
    /// it.
    pub fn push_lines(
        self,
        text: &mut String,
        file: &str,
        report: &Report,
    ) -> Result<(), AllocError> {
        self.push_title(text, report)?;
        text.push_str("  ")?;
        report.push_summary(text)?;
        if self.kind == Kind::Counters {
            push_counters(text, report.rows.as_slice())?;
        }
        text.push_str("\n  ")?;
        self.push_command(text, file)?;
        text.push('\n')
    }
}

/// Tests whether a counter has a label.
fn has_label(row: &[Cell]) -> bool {
    match row {
        [_, _, _, _, _, _, _, Cell::Text(label), ..] => !label.is_empty(),
        _ => false,
    }
}

/// Adds the id, the label and the value of a counter, if they are known.
fn push_counter(text: &mut String, row: &[Cell]) -> Result<(), AllocError> {
    match row {
        [
            Cell::Unsigned(id),
            _,
            _,
            Cell::Signed(value),
            _,
            _,
            _,
            Cell::Text(label),
            ..
        ] => { write!(text, "  {id} {label} {value}") }
        [Cell::Unsigned(id), _, _, _, _, _, _, Cell::Text(label), ..] => {
            write!(text, "  {id} {label}")
        }
        _ => Ok(()),
    }
}

/// Adds the ids, the labels and the values of counters.
fn push_counters(text: &mut String, rows: &[Vec<Cell>]) -> Result<(), AllocError> {
    text.push(':')?;
    for row in rows {
        push_counter(text, row.as_slice())?;
    }
    Ok(())
}
