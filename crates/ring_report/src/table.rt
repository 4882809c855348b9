//! Writes a report as a table for people to read.
use crate::colour::{Colour, push_colored, push_picture, row_colour};
use crate::report::{Cell, Column, Field, Report};
use std::alloc::{AllocError, Global};
use std::fmt::Write;

/// Returns how many characters a number has.
fn digits(value: u64) -> usize {
    value.checked_ilog10().unwrap_or(0) as usize + 1
}

/// Returns how many characters a value has.
fn cell_len(cell: &Cell) -> usize {
    match cell {
        Cell::Nothing => 0,
        Cell::Unsigned(value) => digits(*value),
        Cell::Signed(value) if *value < 0 => digits(value.unsigned_abs()).saturating_add(1),
        Cell::Signed(value) => digits(value.unsigned_abs()),
        Cell::State(state) => state.name().len(),
        Cell::Text(text) => text.len(),
    }
}

/// Pushes the text of a value.
fn push_cell(line: &mut String, cell: &Cell) -> Result<(), AllocError> {
    match cell {
        Cell::Nothing => Ok(()),
        Cell::Unsigned(value) => write!(line, "{value}"),
        Cell::Signed(value) => write!(line, "{value}"),
        Cell::State(state) => line.push_str(state.name()),
        Cell::Text(text) => line.push_str(text.as_str()),
    }
}

fn push_spaces(text: &mut String, count: usize) -> Result<(), AllocError> {
    for _ in 0..count {
        text.push(' ')?;
    }
    Ok(())
}

/// Returns how many spaces come before and after a text of this many characters. With these spaces the column and two
/// spaces are full.
fn spaces(column: &Column, len: usize, width: usize) -> (usize, usize) {
    let spaces = width.saturating_sub(len);
    if column.is_number {
        (spaces, 2)
    } else {
        (0, spaces.saturating_add(2))
    }
}

/// Pushes the name of a column, with the spaces of its width.
fn push_name(line: &mut String, column: &Column, width: usize) -> Result<(), AllocError> {
    let (before, after) = spaces(column, column.name.len(), width);
    push_spaces(line, before)?;
    line.push_str(column.name)?;
    push_spaces(line, after)
}

/// Pushes a value, with the spaces of its column's width.
fn push_word(
    line: &mut String,
    column: &Column,
    cell: &Cell,
    width: usize,
) -> Result<(), AllocError> {
    let (before, after) = spaces(column, cell_len(cell), width);
    push_spaces(line, before)?;
    push_cell(line, cell)?;
    push_spaces(line, after)
}

/// Pushes a number of the report with its name.
fn push_field(text: &mut String, field: &Field) -> Result<(), AllocError> {
    write!(text, "  {}", field.name)?;
    match field.value {
        Some(value) => write!(text, " {value}"),
        None => Ok(()),
    }
}

impl Report {
    /// Returns the width of a column, which is the width of its name or of its longest value.
    fn width(&self, column: usize, name: &str) -> usize {
        let mut width = name.len();
        for row in self.rows.iter() {
            if let Some(cell) = row.get(column) {
                width = width.max(cell_len(cell));
            }
        }
        width
    }

    /// Returns how wide each column is.
    fn widths(&self, alloc: Global) -> Result<Vec<usize>, AllocError> {
        let mut widths = Vec::new(alloc);
        for (k, column) in self.columns.iter().enumerate() {
            widths.push(self.width(k, column.name))?;
        }
        Ok(widths)
    }

    /// Pushes the line of the names of the columns.
    fn push_names(
        &self,
        text: &mut String,
        line: &mut String,
        widths: &[usize],
    ) -> Result<(), AllocError> {
        line.clear();
        for (column, width) in self.columns.iter().zip(widths) {
            push_name(line, column, *width)?;
        }
        push_colored(text, Colour::Plain, line.as_str().trim_end())
    }

    /// Pushes the line of a row, with each value in its column.
    fn push_row(
        &self,
        text: &mut String,
        line: &mut String,
        widths: &[usize],
        row: &[Cell],
        colour: Colour,
    ) -> Result<(), AllocError> {
        line.clear();
        for (column, (cell, width)) in self.columns.iter().zip(row.iter().zip(widths)) {
            push_word(line, column, cell, *width)?;
        }
        push_colored(text, colour, line.as_str().trim_end())
    }

    /// Pushes the names of the columns, and the rows.
    fn push_lines(
        &self,
        text: &mut String,
        line: &mut String,
        widths: &[usize],
        is_colored: bool,
    ) -> Result<(), AllocError> {
        self.push_names(text, line, widths)?;
        for row in self.rows.iter() {
            let row = row.as_slice();
            let colour = if is_colored {
                row_colour(row)
            } else {
                Colour::Plain
            };
            self.push_row(text, line, widths, row, colour)?;
        }
        Ok(())
    }

    /// Pushes the line of the numbers of the whole.
    fn push_whole(&self, text: &mut String) -> Result<(), AllocError> {
        text.push_str(self.kind)?;
        for field in self.fields.iter() {
            push_field(text, field)?;
        }
        text.push('\n')
    }

    /// Returns the report as a table. The table begins with a line of the numbers of the whole, and the picture of a
    /// buffer. Then come the list with the names of its columns, how many rows were left out, and the summary. The
    /// findings are not in it.
    pub fn to_table(&self, alloc: Global) -> Result<String, AllocError> {
        self.table(alloc, false)
    }

    /// Returns the table with colours, for a terminal. Open records and headers that are not yet stored are yellow.
    /// Aborted and lapped records and freed counters are dimmed. Messages are green in the picture.
    pub fn to_colored_table(&self, alloc: Global) -> Result<String, AllocError> {
        self.table(alloc, true)
    }

    /// Pushes the line of the picture of the buffer, if there is one.
    fn push_picture(&self, text: &mut String, is_colored: bool) -> Result<(), AllocError> {
        if self.picture.is_empty() {
            return Ok(());
        }
        if is_colored {
            push_picture(text, self.picture.as_str())?;
        } else {
            text.push_str(self.picture.as_str())?;
        }
        text.push('\n')
    }

    /// Pushes the lines of the list. If there are colours, the line of each row has the colour of its state.
    fn push_list(
        &self,
        alloc: Global,
        text: &mut String,
        is_colored: bool,
    ) -> Result<(), AllocError> {
        let widths = self.widths(alloc)?;
        let mut line = String::new(alloc);
        self.push_lines(text, &mut line, widths.as_slice(), is_colored)
    }

    /// Pushes the report as a table.
    fn push_table(
        &self,
        alloc: Global,
        text: &mut String,
        is_colored: bool,
    ) -> Result<(), AllocError> {
        self.push_whole(text)?;
        self.push_picture(text, is_colored)?;
        if !self.rows.is_empty() {
            self.push_list(alloc, text, is_colored)?;
        }
        if self.unlisted > 0 {
            writeln!(text, "({} more)", self.unlisted)?;
        }
        self.push_summary(text)?;
        text.push('\n')
    }

    /// Returns the report as a table, with colours or without.
    fn table(&self, alloc: Global, is_colored: bool) -> Result<String, AllocError> {
        let mut text = String::new(alloc);
        self.push_table(alloc, &mut text, is_colored)?;
        Ok(text)
    }
}
