//! The lines of a text, parsed one after another.

use crate::format::fault::{BadLine, LineFault};
use std::alloc::Global;

/// Parses the lines of a text of one kind.
pub trait ParseLine: Drop {
    /// What one line says.
    type Line: Drop;

    /// Parses the next line.
    fn parse(&mut self, line: &[u8]) -> Result<Self::Line, LineFault>;

    /// Tests whether one of the lines named this kind.
    fn has_kind(&self) -> bool;
}

/// Parses all lines of a text. The k-th line of the text is the k-th of the result.
///
/// # Errors
/// The first line that the parser refuses, out of memory, or `LineFault::NoKind` with the last line if no line named the
/// kind.
pub fn parse_lines<P: ParseLine>(
    alloc: Global,
    text: &[u8],
    mut parser: P,
) -> Result<Vec<P::Line>, BadLine> {
    let mut lines = Vec::new(alloc);
    for line in text.split(|letter| *letter == b'\n') {
        if let Err(fault) = push_line(&mut lines, &mut parser, line) {
            return Err(BadLine {
                line: lines.len().saturating_add(1),
                fault,
            });
        }
    }
    if parser.has_kind() {
        Ok(lines)
    } else {
        Err(BadLine {
            line: lines.len(),
            fault: LineFault::NoKind,
        })
    }
}

/// Parses a line, and pushes the result.
fn push_line<P: ParseLine>(
    lines: &mut Vec<P::Line>,
    parser: &mut P,
    line: &[u8],
) -> Result<(), LineFault> {
    lines.push(parser.parse(line)?)?;
    Ok(())
}
