//! The colours of a table at a terminal.
use crate::report::Cell;
use std::alloc::AllocError;

/// A colour of a text.
#[derive(Clone, Copy, PartialEq, Eq)]
pub enum Colour {
    /// The colour of the terminal.
    Plain,
    Green,
    Yellow,
    Dim,
}

impl Colour {
    /// Returns the text that begins this colour.
    fn start(self) -> &'static str {
        match self {
            Colour::Plain => "",
            Colour::Green => "\x1b[32m",
            Colour::Yellow => "\x1b[33m",
            Colour::Dim => "\x1b[2m",
        }
    }

    /// Returns the text that ends this colour.
    fn end(self) -> &'static str {
        match self {
            Colour::Plain => "",
            _ => "\x1b[0m",
        }
    }
}

/// Returns the colour of a row, which is the colour of its state.
pub fn row_colour(row: &[Cell]) -> Colour {
    for cell in row {
        if let Cell::State(state) = cell {
            return state.colour();
        }
    }
    Colour::Plain
}

/// Returns the colour of a piece of a buffer.
fn piece_colour(piece: char) -> Colour {
    match piece {
        '=' => Colour::Green,
        'O' | '?' => Colour::Yellow,
        'x' | '-' | '~' => Colour::Dim,
        _ => Colour::Plain,
    }
}

/// Pushes a line in a colour.
pub fn push_colored(text: &mut String, colour: Colour, line: &str) -> Result<(), AllocError> {
    text.push_str(colour.start())?;
    text.push_str(line)?;
    text.push_str(colour.end())?;
    text.push('\n')
}

/// Ends a colour, and begins another one.
fn push_change(text: &mut String, from: Colour, to: Colour) -> Result<(), AllocError> {
    if from == to {
        return Ok(());
    }
    text.push_str(from.end())?;
    text.push_str(to.start())
}

/// Pushes the line of a buffer, with its pieces in their colours.
pub fn push_picture(text: &mut String, line: &str) -> Result<(), AllocError> {
    let mut last = Colour::Plain;
    for piece in line.chars() {
        let colour = piece_colour(piece);
        push_change(text, last, colour)?;
        text.push(piece)?;
        last = colour;
    }
    text.push_str(last.end())
}
