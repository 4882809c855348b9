//! Bytes as text.
use crate::report::Cell;
use crate::view::Bodies;
use std::alloc::{AllocError, Global};

/// Returns bytes as text. Printable ASCII is unchanged, and every other byte is a dot.
fn as_text(alloc: Global, bytes: &[u8]) -> Result<String, AllocError> {
    let mut text = String::new(alloc);
    for byte in bytes {
        text.push(if *byte >= 32 && *byte < 127 {
            char::from(*byte)
        } else {
            '.'
        })?;
    }
    Ok(text)
}

/// Returns the cell in which bytes are shown. In hexadecimal digits, `-` means no bytes.
pub fn cell(alloc: Global, bodies: Bodies, bytes: &[u8]) -> Result<Cell, AllocError> {
    Ok(match bodies {
        Bodies::None => Cell::Nothing,
        Bodies::Text => Cell::Text(as_text(alloc, bytes)?),
        Bodies::Hex if bytes.is_empty() => Cell::Text(String::from_str(alloc, "-")?),
        Bodies::Hex => Cell::Text(hex::encode(alloc, bytes)?),
    })
}
